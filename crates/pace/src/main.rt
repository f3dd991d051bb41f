// Makes one of the unit's calls many times: what the measurements drive. Standard input has a scenario and a count, two words of four
// bytes; standard output gets the sum of the answers, eight bytes. tests/PROTOCOL.md gives the scenarios.
#![tactic(auto)]

mod mups16_scenarios;

ghost use Rattle.std.specs.Prelude.{◌<◌, ◌≤◌};
ghost use Rattle.entry.specs.Address.{PAGE, PAGES};

use collector::Collected;
use heap::{Mapped, Pool};
use registers::{Access, Outcome, Registers, Reply};
use std::io::{Read, Write};

// Register numbers.
const SELECT: u32 = 6;

const TLB_HI: u32 = 7;

const TLB_LO: u32 = 8;

// Where the pool of scenarios 5 and 6 begins, how many frames it has, and how many of them are held at first.
const FIRST_PFN: u32 = 100000;

const POOL: u32 = 4096;

const HELD: u32 = 3000;

const WIDE_HELD: u64 = HELD as u64;

// Where directory 1 and table 1 begin, and the word that names either.
const DIRECTORY: u32 = page_table::DIRECTORY as u32;

const TABLE: u32 = page_table::TABLE as u32;

const NUMBER_1: u32 = page_table::PRESENT + 1;

// Valid and write enable of a leaf; a leaf that has both; and with the frame of page 0.
const VALID: u32 = 1 << 30;

const WE: u32 = 1 << 28;

const LEAF: u32 = page_table::PRESENT + VALID + WE;

const FIRST_LEAF: u32 = LEAF + PAGE_PFN;

// The frame of page 0, where the pool of scenarios 7 and 8 begins.
const PAGE_PFN: u32 = 256;

// How many pages identification 5 has; and how many where its directory names four tables.
const PAGES: u32 = 80;

const ALL_PAGES: u32 = 4 * TABLE;

// How many values the software bits of a leaf have, and what the lowest counts.
const SOFTWARE: u32 = 512;

const SOFTWARE_BIT: u32 = 1 << 19;

// What is measured, by its number in tests/PROTOCOL.md.
#[derive(Clone, Copy, PartialEq, Eq)]
enum Scenario {
    RawAccesses,
    Hits,
    Misses,
    Stores,
    Looks,
    Frames,
    Maps,
    Passes,
    FullPasses,
    TableIndexes,
    Entries,
}

impl From<u32> for Scenario {
    // A number above 10 is as 1.
    fn from(number: u32) -> Scenario {
        match number {
            0 => Scenario::RawAccesses,
            2 => Scenario::Misses,
            3 => Scenario::Stores,
            4 => Scenario::Looks,
            5 => Scenario::Frames,
            6 => Scenario::Maps,
            7 => Scenario::Passes,
            8 => Scenario::FullPasses,
            9 => Scenario::TableIndexes,
            10 => Scenario::Entries,
            _ => Scenario::Hits,
        }
    }
}

// What an answer adds to the sum.
trait Worth: Copy {
    fn worth(self) -> u64;
}

impl Worth for Outcome {
    fn worth(self) -> u64 {
        match self {
            Outcome::At(address) => u64::from(address),
            Outcome::Fault(value) => u64::from(value),
            Outcome::Done(value) => u64::from(value) + 1,
            Outcome::Refused(number) => 1000000 * u64::from(number),
        }
    }
}

impl Worth for Reply {
    fn worth(self) -> u64 {
        self.outcome.worth().wrapping_add(u64::from(self.loads))
    }
}

impl Worth for Mapped {
    fn worth(self) -> u64 {
        self.reply.worth().wrapping_add(u64::from(self.pfn))
    }
}

impl Worth for Collected {
    fn worth(self) -> u64 {
        self.reply.worth().wrapping_add(u64::from(self.given))
    }
}

fn added(sum: u64, answer: impl Worth) -> u64 {
    sum.wrapping_add(answer.worth())
}

// A user's read of a page.
fn reading(page: u32, offset: u32, draw: u32) -> Access
    requires { (page < PAGES) × (offset < PAGE) }
{
    Access {
        address: page * entry::PAGE + offset,
        user: true,
        write: false,
        draw,
    }
}

// A user's read in the 64 pages that are all in the buffer.
fn hit(i: u32) -> Access {
    reading(((7 * u64::from(i)) % 64) as u32, 291, 0)
}

// A user's read of one of 80 pages in turn, so that each one misses.
fn miss(i: u32) -> Access {
    reading(((64 + u64::from(i)) % 80) as u32, 0, (i / 16) % 4)
}

// Each scenario is a loop, no fold of a closure: a step is handed what the last one left, and lends the buffer and the words again. They and
// the registers stay three parameters, as the calls take them: a struct would be taken apart at each call.

// Raw accesses. One that is refused ends them.
fn run_raw(r: Registers, buffer: &[u64], count: u32) -> u64 {
    let mut registers = r;
    let mut sum: u64 = 0;
    for i in 0..count {
        let a = hit(i);
        let reply = mmu::raw_access(registers, buffer, a.address, a.user, a.write, a.draw);
        let Ok(t) = reply else {
            return 0;
        };
        sum = sum.wrapping_add(u64::from(t.physical.unwrap_or(0)));
        registers = t.registers;
    }
    sum
}

// Served accesses.
fn run_served<F: Fn(u32) -> Access>(
    r: Registers,
    buffer: &mut [u64],
    words: &[u32],
    count: u32,
    access_of: F,
) -> u64
    requires { F.IsAlwaysCallable access_of }
{
    let mut registers = r;
    let mut sum: u64 = 0;
    for i in 0..count {
        let a = access_of(i);
        let reply = mmu::served_access(
            registers, buffer, words, a.address, a.user, a.write, a.draw,
        );
        sum = added(sum, reply);
        registers = reply.registers;
    }
    sum
}

// Stores that change software bits alone.
fn run_stores(r: Registers, buffer: &mut [u64], words: &mut [u32], count: u32) -> u64 {
    let mut sum: u64 = 0;
    for i in 0..count {
        let page = i % 64;
        let software = (i / 64) % SOFTWARE;
        let value = FIRST_LEAF + page + software * SOFTWARE_BIT;
        sum = added(
            sum,
            store::table_store(r, buffer, words, TABLE + page, value),
        );
    }
    sum
}

// Looks at one slot after the other: SELECT is written, and TLB_HI and TLB_LO are read.
fn run_looks(r: Registers, buffer: &mut [u64], count: u32) -> u64 {
    let mut registers = r;
    let mut sum: u64 = 0;
    for i in 0..count {
        registers = control::write_register(registers, buffer, SELECT, i % 64).registers;
        let high = control::read_register(registers, buffer, TLB_HI);
        let low = control::read_register(high.registers, buffer, TLB_LO);
        sum = added(added(sum, high), low);
    }
    sum
}

// A pool of 4,096 frames of which so many, the first ones, are held.
fn held_pool(first: u32, held: u32) -> Pool {
    let mut pool = heap::new_pool(first, POOL).pool;
    for _ in 0..held {
        pool = heap::take(pool).pool;
    }
    pool
}

// A frame is given and taken again.
fn run_frames(count: u32) -> u64 {
    let mut pool = held_pool(FIRST_PFN, HELD);
    let mut sum: u64 = 0;
    for i in 0..count {
        let place = ((7 * u64::from(i)) % WIDE_HELD) as u32;
        let given = heap::give(pool, FIRST_PFN + place);
        let taken = heap::take(given.pool);
        pool = taken.pool;
        sum = added(added(sum, given.outcome), taken.outcome);
    }
    sum
}

// A frame is mapped and given back.
fn run_maps(r: Registers, buffer: &mut [u64], words: &mut [u32], count: u32) -> u64 {
    let mut pool = held_pool(FIRST_PFN, HELD);
    let mut sum: u64 = 0;
    for i in 0..count {
        let mapped = heap::map(r, buffer, words, pool, TABLE + i % 64, LEAF);
        let given = heap::give(mapped.pool, mapped.pfn);
        pool = given.pool;
        sum = added(added(sum, mapped), given.outcome);
    }
    sum
}

// A sum on its way, and the pool then.
#[derive(Clone, Copy)]
struct Going {
    sum: u64,
    pool: Pool,
}

// Maps so many pages, from page 0 on.
fn map_pages(r: Registers, buffer: &mut [u64], words: &mut [u32], pages: u32, begun: Going) -> Going
    requires { pages ≤ 4096 }
{
    let mut going = begun;
    for page in 0..pages {
        let mapped = heap::map(r, buffer, words, going.pool, TABLE + page, LEAF);
        going = Going {
            sum: added(going.sum, mapped),
            pool: mapped.pool,
        };
    }
    going
}

// A pass for identification 5.
fn pass(r: Registers, buffer: &mut [u64], words: &mut [u32], begun: Going) -> Going {
    let collected = collector::collect(r, buffer, words, begun.pool, 5);
    Going {
        sum: added(begun.sum, collected),
        pool: collected.pool,
    }
}

// Two passes, the second of which gives every frame back.
fn two_passes(r: Registers, buffer: &mut [u64], words: &mut [u32], begun: Going) -> Going {
    let aged = pass(r, buffer, words, begun);
    pass(r, buffer, words, aged)
}

// Two passes, and the pages mapped again.
fn map_again(r: Registers, buffer: &mut [u64], words: &mut [u32], pages: u32, begun: Going) -> Going
    requires { pages ≤ 4096 }
{
    let given = two_passes(r, buffer, words, begun);
    map_pages(r, buffer, words, pages, given)
}

// All pages go and come again.
fn run_passes(
    r: Registers,
    buffer: &mut [u64],
    words: &mut [u32],
    pool: Pool,
    pages: u32,
    count: u32,
) -> u64
    requires { pages ≤ 4096 }
{
    let mut going = Going { sum: 0, pool };
    for _ in 0..count {
        going = map_again(r, buffer, words, pages, going);
    }
    going.sum
}

// Has the directory name tables 2 to 4 too.
fn name_tables(r: Registers, buffer: &mut [u64], words: &mut [u32]) {
    for k in 1..4 {
        store::table_store(r, buffer, words, DIRECTORY + k, NUMBER_1 + k);
    }
}

// Four tables, and every page of them mapped; answers the pool after that.
fn fill_tables(r: Registers, buffer: &mut [u64], words: &mut [u32]) -> Pool {
    name_tables(r, buffer, words);
    let pool = held_pool(PAGE_PFN, 0);
    map_pages(r, buffer, words, ALL_PAGES, Going { sum: 0, pool }).pool
}

fn run(r: Registers, buffer: &mut [u64], words: &mut [u32], scenario: Scenario, count: u32) -> u64 {
    match scenario {
        Scenario::RawAccesses => run_raw(r, buffer, count),
        Scenario::Hits => run_served(r, buffer, words, count, hit),
        Scenario::Misses => run_served(r, buffer, words, count, miss),
        Scenario::Stores => run_stores(r, buffer, words, count),
        Scenario::Looks => run_looks(r, buffer, count),
        Scenario::Frames => run_frames(count),
        Scenario::Maps => run_maps(r, buffer, words, count),
        Scenario::Passes => {
            let pool = held_pool(PAGE_PFN, PAGES);
            run_passes(r, buffer, words, pool, PAGES, count)
        }
        Scenario::FullPasses => {
            let pool = fill_tables(r, buffer, words);
            run_passes(r, buffer, words, pool, ALL_PAGES, count)
        }
        Scenario::TableIndexes => mups16_scenarios::table_indexes(count),
        Scenario::Entries => mups16_scenarios::entries(count),
    }
}

// The tables of identification 5: a directory, a table, and 80 pages.
fn build(r: Registers, buffer: &mut [u64], words: &mut [u32]) {
    store::table_store(r, buffer, words, 5, NUMBER_1);
    store::table_store(r, buffer, words, DIRECTORY, NUMBER_1);
    for page in 0..PAGES {
        store::table_store(r, buffer, words, TABLE + page, FIRST_LEAF + page);
    }
}

// CTRL 7, CONTEXT 5, ENABLE 1.
fn settings(r: Registers) -> Registers {
    let mut registers = r;
    for (number, value) in [(1, 7), (5, 5), (2, 1)] {
        registers = control::guarded_setting(registers, number, value).registers;
    }
    registers
}

// Pages 0 to 63, one in each slot.
fn fill(r: Registers, buffer: &mut [u64], words: &[u32]) -> Registers {
    let mut registers = r;
    for page in 0..64 {
        let a = reading(page, 0, page / 16);
        let reply = mmu::served_access(
            registers, buffer, words, a.address, a.user, a.write, a.draw,
        );
        registers = reply.registers;
    }
    registers
}

fn prepare(buffer: &mut [u64], words: &mut [u32]) -> Registers {
    let r = control::start(buffer).registers;
    build(r, buffer, words);
    fill(settings(r), buffer, words)
}

// What the input lacks counts as 0, and a sum that can't be written is lost.
fn pace(input: &mut impl Read, output: &mut impl Write, buffer: &mut [u64], words: &mut [u32]) {
    let mut bytes = [0u8; 8];
    let _ = input.read_exact(&mut bytes);
    let scenario = Scenario::from(wire::read::<u32>(&bytes, 0));
    let count = wire::read::<u32>(&bytes, 1);
    let r = prepare(buffer, words);
    let sum = run(r, buffer, words, scenario, count);
    let mut answer = [0u8; 8];
    wire::write(&mut answer, 0, sum);
    let _ = output.write_all(&answer);
}

fn main(rt: HostRuntime) {
    let mut input = rt.stdin();
    let mut output = rt.stdout();
    let mut buffer = [0u64; 64];
    let mut words: [u32; 16384] = [0; 16384];
    pace(&mut input, &mut output, &mut buffer, &mut words);
}
