// A record's step.
ghost use Rattle.slots.specs.Buffer.{Buffer};
ghost use Rattle.trace.specs.Steps.{StepGives};

use crate::Command;
use registers::{Refusal, Registers, Reply};

// Makes a command's call. A malformed record is refused with number 8.
pub fn step(r: Registers, buffer: &mut [u64], words: &mut [u32], command: Command) -> Reply
    ensures { StepGives
        (record { registers = r; buffer = Buffer.Wide buffer.old; words = words.old })
        command result (Buffer.Wide buffer.new) words.new }
{
    match command {
        Command::Serve(a) => {
            mmu::served_access(r, buffer, words, a.address, a.user, a.write, a.draw)
        }
        Command::Store(index, value) => store::table_store(r, buffer, words, index, value),
        Command::Set(number, value) => control::guarded_setting(r, number, value),
        Command::Malformed => registers::refused(r, u32::from(Refusal::Record)),
    }
}
