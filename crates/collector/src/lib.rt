// The reference collector: a pass over the tree of one identification visits the leaves whose frames are in a pool. A valid one is made not
// valid; one that it finds not valid is taken away, and its frame is given back.
#![tactic(auto)]

mod aging;
mod frames;
mod leaves;

ghost use Rattle.std.specs.Prelude.{true, ◌≡◌, ◌<◌};
ghost use Rattle.page_table.specs.Stretches.{tables_fit};
ghost use Rattle.slots.specs.Buffer.{Buffer};
ghost use Rattle.registers.specs.Numbers.{number_of, refusal_number};
ghost use Rattle.heap.specs.Pools.{pool_fits};
ghost use Rattle.collector.specs.Collect.{CollectGives, collect_refusal, may_collect, refused_collect};

use heap::Pool;
use registers::{Refusal, Registers, Reply};

// A pass on its way: the frames given back and the slots emptied so far, and the pool.
#[derive(Clone, Copy)]
pub struct Aged {
    pub given: u32,
    pub emptied: u32,
    pub pool: Pool,
}

// What a pass answers: a table store's reply, with the slots emptied; how many frames were given back; the pool after it.
#[derive(Clone, Copy)]
pub struct Collected {
    pub reply: Reply,
    pub given: u32,
    pub pool: Pool,
}

// Whether the tree of an identification stands by itself, and its leaves map frames of the pool once each, and only held ones.
fn may_collect(words: &[u32], pool: Pool, id: u32) -> bool
    requires { (tables_fit words.now ≡ true) × (id < 64) × (pool_fits pool ≡ true) }
    ensures { result ≡ may_collect words.now pool id }
{
    if !trees::tree_fits(words, id) {
        return false;
    }
    let root = words[id as usize];
    if !page_table::leads_on(words.len(), 1, root) {
        return true;
    }
    frames::may_give_tree(words, page_table::number_of(root), pool)
}

// Whether a pass is accepted, or what it is refused for.
fn collect_refusal(
    r: Registers,
    buffer: &[u64],
    words: &[u32],
    pool: Pool,
    id: u32,
) -> Result<(), Refusal>
    ensures { refusal_number result ≡ collect_refusal
        (record { registers = r; buffer = Buffer.Wide buffer.now; words = words.now }) pool id }
{
    if !heap::frames_fit(pool.first, pool.size) {
        return Err(Refusal::Pool);
    }
    registers::machine_refusal(
        registers::registers_fit(r),
        slots::buffer_fits(buffer),
        page_table::tables_fit(words),
    )?;
    let known = id <= 62;
    if !known {
        return Err(Refusal::Service);
    }
    if !may_collect(words, pool, id) {
        return Err(Refusal::Tree);
    }
    Ok(())
}

// A refused pass gives no frame back.
fn refused_collect(r: Registers, refusal: Refusal, pool: Pool) -> Collected
    ensures { result ≡ refused_collect r (number_of refusal) pool }
{
    let reply = registers::refused(r, u32::from(refusal));
    Collected {
        reply,
        given: 0,
        pool,
    }
}

// One pass over the tree of an identification. The outcome is Done with the slots emptied.
pub fn collect(
    r: Registers,
    buffer: &mut [u64],
    words: &mut [u32],
    pool: Pool,
    id: u32,
) -> Collected
    ensures { CollectGives
        (record { registers = r; buffer = Buffer.Wide buffer.old; words = words.old })
        pool id result (Buffer.Wide buffer.new) words.new }
{
    if let Err(refusal) = collect_refusal(r, buffer, words, pool, id) {
        return refused_collect(r, refusal, pool);
    }
    let aged = aging::age(buffer, words, pool, id);
    let reply = registers::done(r, aged.emptied);
    Collected {
        reply,
        given: aged.given,
        pool: aged.pool,
    }
}
