// What the unit's calls answer, as the words of an answer.
use crate::parts;
use access::Translation;
use collector::Collected;
use heap::{Mapped, Pool, PoolReply};
use mmu::Refused;
use page_table::Walk;
use registers::{Outcome, Registers, Reply};
use std::io::Write;

// The four words of an answer, and the registers.
#[derive(Clone, Copy)]
pub(crate) struct Answer {
    first: u32,
    second: u32,
    third: u32,
    fourth: u32,
    registers: Registers,
}

pub(crate) fn answered(
    first: u32,
    second: u32,
    third: u32,
    fourth: u32,
    registers: Registers,
) -> Answer {
    Answer {
        first,
        second,
        third,
        fourth,
        registers,
    }
}

impl Answer {
    pub(crate) fn write(self, output: &mut impl Write) {
        parts::write_run(output, &[self.first, self.second, self.third, self.fourth]);
        parts::write_run(output, &<[u32; registers::FIELDS]>::from(self.registers));
    }
}

impl From<Reply> for Answer {
    fn from(reply: Reply) -> Answer {
        let (word, value) = match reply.outcome {
            Outcome::At(address) => (0, address),
            Outcome::Fault(value) => (1, value),
            Outcome::Done(value) => (2, value),
            Outcome::Refused(number) => (3, number),
        };
        answered(word, value, reply.loads, 0, reply.registers)
    }
}

// The answer to a read of a register, which has a value or is refused.
pub(crate) fn read_answer(reply: Reply) -> Answer {
    let registers = reply.registers;
    match reply.outcome {
        Outcome::Done(value) => answered(0, value, reply.loads, 0, registers),
        Outcome::Refused(number) => answered(1, number, reply.loads, 0, registers),
        Outcome::At(_) | Outcome::Fault(_) => answered(2, 0, 0, 0, registers),
    }
}

pub(crate) fn raw_answer(reply: Result<Translation, Refused>) -> Answer {
    match reply {
        Ok(t) => {
            let flags = u32::from(t.interrupt) + 2 * u32::from(t.exception);
            let (form, address) = match t.physical {
                Some(address) => (1, address),
                None => (0, 0),
            };
            answered(form, address, flags, t.value, t.registers)
        }
        Err(refused) => answered(2, refused.number, 0, 0, refused.registers),
    }
}

pub(crate) fn walk_answer(found: Walk, registers: Registers) -> Answer {
    match found {
        Walk::Leaf(leaf) => answered(0, leaf.word, leaf.index, u32::from(leaf.global), registers),
        Walk::Absent(stop) => answered(1, 0, stop.level, u32::from(stop.global), registers),
        Walk::Broken(stop) => answered(2, 0, stop.level, u32::from(stop.global), registers),
    }
}

fn outcome_answer(outcome: Outcome, registers: Registers) -> Answer {
    Answer::from(registers::answered(registers, outcome, 0))
}

// The answers to calls on a pool, and the pool after each.
pub(crate) fn pool_answer(reply: PoolReply, registers: Registers) -> (Answer, Pool) {
    (outcome_answer(reply.outcome, registers), reply.pool)
}

pub(crate) fn held_answer(outcome: Outcome, pool: Pool, registers: Registers) -> (Answer, Pool) {
    (outcome_answer(outcome, registers), pool)
}

pub(crate) fn map_answer(mapped: Mapped) -> (Answer, Pool) {
    let answer = Answer {
        fourth: mapped.pfn,
        ..Answer::from(mapped.reply)
    };
    (answer, mapped.pool)
}

pub(crate) fn collect_answer(collected: Collected) -> (Answer, Pool) {
    let answer = Answer {
        fourth: collected.given,
        ..Answer::from(collected.reply)
    };
    (answer, collected.pool)
}
