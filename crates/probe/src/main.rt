// Makes the unit's calls one after another, as standard input asks, and writes each answer to standard output: what the
// comparison with the second program drives. tests/PROTOCOL.md gives the bytes of requests and answers.
#![tactic(auto)]

mod answers;
mod calls;
mod kinds;
mod mups16_calls;
mod parts;
mod tables;

use heap::Pool;
use kinds::{Kind, PoolCall, UnitCall};
use mups16::State;
use mups16_calls::Operation;
use registers::Registers;
use std::io::{Read, Write};
use tables::{Count, Tables, WORD_BYTES, WORDS};

// How many slots a request brings at most: more than a buffer has.
const SLOTS: usize = 80;

// A call's kind, its four arguments, how long its runs are, and the registers.
#[derive(Clone, Copy)]
pub(crate) struct Request {
    kind: Kind,
    first: u32,
    second: u32,
    third: u32,
    fourth: u32,
    slots: Count<SLOTS>,
    words: Count<WORDS>,
    registers: Registers,
}

// A call, with what the request brings for it alone: a pool of frames, or the state of the MUPS/16 unit.
#[derive(Clone, Copy)]
enum Call {
    Unit(UnitCall),
    Pool(PoolCall, Pool),
    Mups16(Operation, State),
}

// Reads the head of a request. None where the input ends before, and at a kind that is none.
fn read_request(input: &mut impl Read) -> Option<Request> {
    let [number, first, second, third, fourth, slots, words, _] = parts::read_part::<u32, 8>(
        input,
    )?;
    let fields = parts::read_part::<u32, 11>(input)?;
    Some(Request {
        kind: Kind::try_from(number).ok()?,
        first,
        second,
        third,
        fourth,
        slots: Count::new(slots)?,
        words: Count::new(words)?,
        registers: Registers::from(fields),
    })
}

fn read_pool(input: &mut impl Read) -> Option<Pool> {
    let [first, size] = parts::read_part::<u32, 2>(input)?;
    let bits = parts::read_part::<u64, 64>(input)?;
    Some(Pool { first, size, bits })
}

fn write_pool(output: &mut impl Write, pool: Pool) {
    parts::write_run(output, &[pool.first, pool.size]);
    parts::write_run(output, &pool.bits);
}

// Reads what a request brings for its call alone. None where the input ends before, and at an operation that is none.
fn read_call(input: &mut impl Read, q: Request) -> Option<Call> {
    match q.kind {
        Kind::Unit(call) => Some(Call::Unit(call)),
        Kind::Pool(call) => Some(Call::Pool(call, read_pool(input)?)),
        Kind::Mups16 => {
            let operation = Operation::try_from(q.first).ok()?;
            Some(Call::Mups16(operation, mups16_calls::read_state(input)?))
        }
    }
}

// Makes a request's call, and writes the answer's words, the registers, and the pool or the state after it. The slots are no field beside the
// words: the borrow checker does not cover a call that is lent parts of two fields behind one reference.
fn answer_call(
    output: &mut impl Write,
    q: Request,
    call: Call,
    slots: &mut [u64],
    tables: &mut Tables,
) {
    let n = tables.kept.number;
    let words = &mut tables.words[..n];
    match call {
        Call::Unit(call) => calls::unit_call(q, call, slots, words).write(output),
        Call::Pool(call, pool) => {
            let (answer, after) = calls::pool_call(q, call, pool, slots, words);
            answer.write(output);
            write_pool(output, after);
        }
        Call::Mups16(operation, state) => mups16_calls::reply(output, q, operation, state, words),
    }
}

// Reads a request and replies. None where the input ends before, and at a request that the program doesn't know.
fn step(
    input: &mut impl Read,
    output: &mut impl Write,
    tables: &mut Tables,
    bytes: &mut [u8; WORD_BYTES],
) -> Option<()> {
    let q = read_request(input)?;
    let call = read_call(input, q)?;
    let mut room = [0u64; SLOTS];
    let slots = &mut room[..q.slots.number];
    parts::read_run(input, slots)?;
    tables.read(input, bytes, q.words)?;
    answer_call(output, q, call, slots, tables);
    parts::write_run(output, slots);
    if q.kind == Kind::Unit(UnitCall::TableWords) {
        tables.write(output, bytes);
    }
    Some(())
}

// A proved loop has to end, and nothing says that the input does: so the requests are counted. The room for the words' bytes is made once,
// and not for each request.
fn run(input: &mut impl Read, output: &mut impl Write, tables: &mut Tables) {
    let mut bytes = [0u8; WORD_BYTES];
    for _ in 0..u64::MAX {
        if step(input, output, tables, &mut bytes).is_none() {
            return;
        }
    }
}

fn main(rt: HostRuntime) {
    run(&mut rt.stdin(), &mut rt.stdout(), &mut Tables::new());
}
