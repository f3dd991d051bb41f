// A block of a file: 8,192 records, or what is left of them.
ghost use Rattle.std.specs.Prelude.{◌≡◌, length};
ghost use Rattle.report.specs.Replays.{Ready, SameRuns, machine_in};
ghost use Rattle.reporting.specs.Blocks.{BlockGives, BYTES};

use crate::Block;
use report::Replay;
use std::io::Read;

// Reads a block and counts its records.
pub(crate) fn count_block<R: Read>(file: &mut R, replay: &mut Replay, input: &mut [u8]) -> Block
    requires { Ready replay.old × (length input.old ≡ BYTES) }
    ensures runs { SameRuns replay.old replay.new }
    ensures counted { BlockGives (machine_in replay.old) replay.old.totals.now result replay.new input.new }
{
    let filled = streams::fill(file, input);
    let counted = replay.run(&input[..filled.length]);
    Block { counted, filled }
}
