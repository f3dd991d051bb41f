// The start of a file's replay.
ghost use Rattle.std.specs.Prelude.{◌≡◌, pos, length, replicate};
ghost use Rattle.slots.specs.Buffer.{Buffer};
ghost use Rattle.trace.specs.Traces.{WORDS};
ghost use Rattle.report.specs.Tallies.{ReplayStarts};
ghost use Rattle.report.specs.Totals.{TOTALS};

use registers::Registers;

// The start state, zero tables with their index, and totals that are all 0. A function that makes the `Replay` was tried: behind a call that
// answers a struct with lent runs, a proof knows no more than how long each run is.
pub fn start(
    buffer: &mut [u64],
    words: &mut [u32],
    links: &mut [u32],
    presents: &mut [u32],
    totals: &mut [i64],
) -> Registers
    requires { (length buffer.old ≡ 64) × (length words.old ≡ WORDS) × (length links.old ≡ 16) × (length presents.old ≡ 16)
        × (length totals.old ≡ TOTALS) }
    ensures { ReplayStarts (Buffer.Wide buffer.old) result (Buffer.Wide buffer.new)
        words.new links.new presents.new totals.new }
{
    let reply = control::start(buffer);
    words.fill(0);
    links.fill(0);
    presents.fill(0);
    totals.fill(0);
    reply.registers
}
