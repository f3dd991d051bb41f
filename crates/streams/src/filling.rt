// Reading as much as a run holds.
ghost use Rattle.std.specs.Prelude.{◌≡◌, length, take};
ghost use Rattle.std.specs.Io.KnownBytes.{Consumes, IsAtEnd};
ghost use Rattle.streams.specs.Filling.{Fills};

use crate::{Filled, Stop};
use std::io::Read;

// Reads until the run is full, the input ends or a read fails. std's `read_exact` does not answer how many bytes it read.
pub fn fill<R: Read>(reader: &mut R, run: &mut [u8]) -> Filled
    ensures fills { Fills (length run.new) result }
    ensures taken { Consumes (R.remaining reader.old) (R.remaining reader.new) (take result.length run.new) }
    ensures ended { result.stop ≡ Stop.Ended → IsAtEnd (R.remaining reader.new) }
{
    let mut length: usize = 0;
    while length < run.len() {
        match reader.read(&mut run[length..]) {
            Ok(0) => {
                return Filled {
                    length,
                    stop: Stop::Ended,
                };
            }
            Ok(n) => length += n,
            Err(_) => {
                return Filled {
                    length,
                    stop: Stop::Failed,
                };
            }
        }
    }
    Filled {
        length,
        stop: Stop::Full,
    }
}
