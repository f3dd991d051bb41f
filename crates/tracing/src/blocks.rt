// A block of the input: 1,024 records, or what is left of them.
ghost use Rattle.std.specs.Prelude.{◌≡◌, ◌≤◌, true, length, take};
ghost use Rattle.std.specs.Io.KnownBytes.{Appends, Consumes};
ghost use Rattle.slots.specs.Buffer.{Buffer};
ghost use Rattle.tracing.specs.Blocks.{BlockGives, LinesFit, LAST};

use crate::Block;
use registers::Registers;
use std::io::{Read, Write};
use streams::fill;

// Reads a block, makes its calls and writes its lines, from a record number on. The four lent runs stay parameters: as a struct, each function
// would promise besides that the four stay the same, and say no less otherwise.
pub(crate) fn run_block<R: Read, W: Write>(
    reader: &mut R,
    writer: &mut W,
    r: Registers,
    buffer: &mut [u64],
    words: &mut [u32],
    number: u64,
    input: &mut [u8],
    out: &mut [u8],
) -> Block
    requires { LinesFit input.old out.old × (number ≤ LAST) }
    ensures block { BlockGives
        (record { registers = r; buffer = Buffer.Wide buffer.old; words = words.old }) number result
        (Buffer.Wide buffer.new) words.new input.new out.new }
    ensures taken { Consumes (R.remaining reader.old) (R.remaining reader.new) (take result.read input.new) }
    ensures put { result.written ≡ true → Appends (W.contents writer.old) (W.contents writer.new) (take result.length out.new) }
{
    let filled = fill(reader, input);
    let read = filled.length;
    let ran = trace::run(r, buffer, words, number, &input[..read], out);
    let length = ran.length;
    let registers = ran.registers;
    let written = writer.write_all(&out[..length]).is_ok();
    Block {
        registers,
        number: number + (read as u64).div_ceil(8),
        read,
        length,
        written,
    }
}
