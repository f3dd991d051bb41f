// Kind 15: a call of the MUPS/16 unit, whose entries are the table words.
use crate::answers::{Answer, answered};
use crate::{Request, parts};
use mups16::{Refusal, State};
use registers::Registers;
use std::io::{Read, Write};

// The operations, by the numbers of the unit's own paper.
#[derive(Clone, Copy, Debug, PartialEq, Eq)]
pub(crate) enum Operation {
    Map,
    ReadLow,
    ReadHigh,
    FaultAddress,
    SetTableIndex,
    SetEntry,
}

// A number that names no operation.
#[derive(Clone, Copy, Debug, PartialEq, Eq)]
pub(crate) struct UnknownOperation(pub u32);

impl TryFrom<u32> for Operation {
    type Error = UnknownOperation;

    fn try_from(number: u32) -> Result<Self, UnknownOperation> {
        match number {
            0 => Ok(Operation::Map),
            2 => Ok(Operation::ReadLow),
            3 => Ok(Operation::ReadHigh),
            4 => Ok(Operation::FaultAddress),
            5 => Ok(Operation::SetTableIndex),
            6 => Ok(Operation::SetEntry),
            _ => Err(UnknownOperation(number)),
        }
    }
}

// How many virtual addresses there are.
const ADDRESSES: u32 = 1 << 16;

// What a call answers: a value, with a map's faults; or that it is refused.
type Called = Result<(u32, u32), Refusal>;

// The virtual address that a word holds, modulo 65,536.
fn address_of(word: u32) -> u16 {
    (word % ADDRESSES) as u16
}

// Reads a state; none where the input ends before.
pub(crate) fn read_state(input: &mut impl Read) -> Option<State> {
    let [table_index, boot_mode, fault_address] = parts::read_part::<u32, 3>(input)?;
    Some(State {
        table_index,
        boot_mode: boot_mode != 0,
        fault_address: address_of(fault_address),
    })
}

fn write_state(output: &mut impl Write, state: State) {
    let boot_mode = u32::from(state.boot_mode);
    let fault_address = u32::from(state.fault_address);
    parts::write_run(output, &[state.table_index, boot_mode, fault_address]);
}

fn call_answer(called: Called, registers: Registers) -> Answer {
    match called {
        Ok((value, faults)) => answered(0, value, faults, 0, registers),
        Err(refusal) => answered(1, refusal.into(), 0, 0, registers),
    }
}

fn word_answer(word: u16) -> (u32, u32) {
    (u32::from(word), 0)
}

// A map; its mode is user + 2 x write.
fn map(entries: &[u32], state: State, address: u32, mode: u32) -> (Called, State) {
    let reply = mups16::map(
        entries,
        state,
        address_of(address),
        mode % 2 == 1,
        (mode / 2) % 2 == 1,
    );
    let answer = reply.answer.map(|m| (m.address, m.faults()));
    (answer, reply.state)
}

// Makes the call that an operation names: what it answers, and the state after it.
fn call(operation: Operation, q: Request, state: State, entries: &mut [u32]) -> (Called, State) {
    match operation {
        Operation::Map => map(entries, state, q.second, q.fourth),
        Operation::ReadLow => (mups16::read_low(entries, q.second).map(word_answer), state),
        Operation::ReadHigh => (
            mups16::read_high(entries, state, q.second).map(word_answer),
            state,
        ),
        Operation::FaultAddress => (Ok(word_answer(mups16::fault_address(state))), state),
        Operation::SetTableIndex => (Ok((0, 0)), mups16::set_table_index(state, q.second)),
        Operation::SetEntry => (
            mups16::set_entry(entries, q.second, q.third).map(|()| (0, 0)),
            state,
        ),
    }
}

// Makes a request's call over the entries, and writes the answer and the state after it.
pub(crate) fn reply(
    output: &mut impl Write,
    q: Request,
    operation: Operation,
    state: State,
    entries: &mut [u32],
) {
    let (called, after) = call(operation, q, state, entries);
    call_answer(called, q.registers).write(output);
    write_state(output, after);
}
