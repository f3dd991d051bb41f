// A run of records.
ghost use Rattle.std.specs.Prelude.{◌≡◌, ◌+◌, ◌*◌, ◌^◌, ◌≤◌, ◌<◌, length};
ghost use Rattle.slots.specs.Buffer.{Buffer};
ghost use Rattle.trace.specs.Commands.{command_at, record_count};
ghost use Rattle.trace.specs.Traces.{RunGives};

use crate::{Command, Ran};
use line::Text;
use registers::Registers;

// The record of an index. A last piece of fewer than eight bytes is cut short, and malformed.
pub fn command_at(input: &[u8], i: usize) -> Command
    ensures { result ≡ command_at input.now i }
{
    if input.len() / 8 <= i {
        return Command::Malformed;
    }
    let bits = wire::read::<u64>(input, i);
    crate::command_of(bits)
}

// Makes the calls of an input's records one after the other, from a record number on, and writes their lines.
pub fn run(
    r: Registers,
    buffer: &mut [u64],
    words: &mut [u32],
    number: u64,
    input: &[u8],
    out: &mut [u8],
) -> Ran
    requires { (49 * record_count (length input.now) ≤ length out.old) × (number + length input.now < 2 ^ 64) }
    ensures lines { RunGives
        (record { registers = r; buffer = Buffer.Wide buffer.old; words = words.old })
        number input.now out.old result
        (Buffer.Wide buffer.new) words.new out.new }
    ensures room { result.length ≤ length out.new }
{
    let count = input.len().div_ceil(8);
    let mut registers = r;
    let mut text = Text {
        bytes: out,
        length: 0,
    };
    for i in 0..count {
        let command = command_at(input, i);
        let reply = crate::step(registers, buffer, words, command);
        line::put_line(&mut text, number + i as u64, reply);
        registers = reply.registers;
    }
    Ran {
        registers,
        length: text.length,
    }
}
