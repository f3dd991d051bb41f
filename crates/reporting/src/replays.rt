// A file's replay, block by block.
ghost use Rattle.std.specs.Prelude.{◌≡◌, length};
ghost use Rattle.report.specs.Replays.{Ready, SameRuns, machine_in};
ghost use Rattle.reporting.specs.Blocks.{BYTES};
ghost use Rattle.reporting.specs.Replays.{ReplayGives, goes_on};

use crate::blocks::count_block;
use crate::{Block, Replayed};
use report::Replay;
use std::io::Read;
use streams::Stop;

// A full block has 8,192 records of eight bytes.
pub const BLOCK: usize = 8 * 8192;

// The most blocks of a file.
const MOST: u64 = u64::MAX;

// Whether a block is followed by another, where there are so many: it is full, and every total is within the limit.
#[tactic(auto, unfolding(crate::specs::Replays::goes_on))]
fn goes_on(b: Block, blocks: u64) -> bool
    ensures { result ≡ goes_on b blocks }
{
    b.counted.is_ok() & matches!(b.filled.stop, Stop::Full) & (blocks < MOST)
}

// Counts one block after the other, and answers the last one: it is not full, a read failed in it, or a total passed the limit. A proved
// loop has to end, and nothing says that the file does: it counts its blocks too.
pub(crate) fn replay_file<R: Read>(file: &mut R, replay: &mut Replay, input: &mut [u8]) -> Replayed
    requires { Ready replay.old × (length input.old ≡ BYTES) }
    ensures runs { SameRuns replay.old replay.new }
    ensures replayed { ReplayGives (machine_in replay.old) replay.old.totals.now result replay.new input.new }
{
    let mut blocks: u64 = 0;
    loop {
        let last = count_block(file, replay, input);
        blocks += 1;
        if !goes_on(last, blocks) {
            return Replayed {
                registers: replay.registers,
                last,
                blocks,
            };
        }
    }
}
