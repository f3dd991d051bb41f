// A trace, block by block.
ghost use Rattle.std.specs.Prelude.{◌≡◌, length, replicate};
ghost use Rattle.slots.specs.Buffer.{Buffer};
ghost use Rattle.trace.specs.Traces.{WORDS, start_machine};
ghost use Rattle.tracing.specs.Blocks.{LinesFit};
ghost use Rattle.tracing.specs.Traces.{TraceGives, goes_on};
ghost use Rattle.tracing.specs.Streams.{TraceMoves};

use crate::Block;
use crate::blocks::run_block;
use registers::Registers;
use std::io::{Read, Write};

// A full block has 1,024 records of eight bytes.
pub const BLOCK: usize = 8 * 1024;

// Room for the lines of a full block, of at most 49 bytes each.
pub const ROOM: usize = 49 * 1024;

// No block begins behind this record number.
const LAST: u64 = 18446744073709500000;

// Whether a block is followed by another: it is full, its lines could be written, and the record number is within the limit.
fn goes_on(b: Block) -> bool
    ensures { result ≡ goes_on b }
{
    b.written & (b.read == BLOCK) & (b.number <= LAST)
}

// Runs one block after the other, and answers the last one: it is not full, or its lines could not be written. A proved loop has to end,
// and nothing says that the input does: a block whose record number has passed the limit is the last one too.
pub fn run_blocks<R: Read, W: Write>(
    reader: &mut R,
    writer: &mut W,
    r: Registers,
    buffer: &mut [u64],
    words: &mut [u32],
    input: &mut [u8],
    out: &mut [u8],
) -> Block
    requires { LinesFit input.old out.old }
    ensures trace { TraceGives
        (record { registers = r; buffer = Buffer.Wide buffer.old; words = words.old }) result
        (Buffer.Wide buffer.new) words.new input.new out.new }
    ensures moves { TraceMoves
        (record { registers = r; buffer = Buffer.Wide buffer.old; words = words.old }) result
        (Buffer.Wide buffer.new) words.new input.new
        (R.remaining reader.old) (R.remaining reader.new) (W.contents writer.old) (W.contents writer.new) }
{
    // A `while`, since each turn tests the block that the one before answered.
    let mut last = run_block(reader, writer, r, buffer, words, 0, input, out);
    while goes_on(last) {
        let registers = last.registers;
        last = run_block(
            reader,
            writer,
            registers,
            buffer,
            words,
            last.number,
            input,
            out,
        );
    }
    last
}

// Runs the trace that a reader gives, from the start over zero tables.
pub fn run<R: Read, W: Write>(
    reader: &mut R,
    writer: &mut W,
    buffer: &mut [u64],
    words: &mut [u32],
    input: &mut [u8],
    out: &mut [u8],
) -> Block
    requires { (length buffer.old ≡ 64) × (words.old ≡ replicate WORDS 0) × LinesFit input.old out.old }
    ensures trace { TraceGives (start_machine (Buffer.Wide buffer.old)) result
        (Buffer.Wide buffer.new) words.new input.new out.new }
    ensures moves { TraceMoves (start_machine (Buffer.Wide buffer.old)) result
        (Buffer.Wide buffer.new) words.new input.new
        (R.remaining reader.old) (R.remaining reader.new) (W.contents writer.old) (W.contents writer.new) }
{
    let started = control::start(buffer);
    let registers = started.registers;
    run_blocks(reader, writer, registers, buffer, words, input, out)
}
