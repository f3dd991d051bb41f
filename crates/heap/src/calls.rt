// The calls on a pool alone: new pool, take, give, held.
ghost use Rattle.std.specs.Prelude.{◌≡◌, ◌≤◌};
ghost use Rattle.registers.specs.Numbers.{number_of};
ghost use Rattle.heap.specs.Pools as pools;
ghost use Rattle.heap.specs.Pools.{LARGEST, frames_fit, refused_pool};
ghost use Rattle.heap.specs.NewPool.{NewPoolGives, clear_pool};
ghost use Rattle.heap.specs.Take.{TakeGives};
ghost use Rattle.heap.specs.Give.{GiveGives};
ghost use Rattle.heap.specs.Held.{HeldGives};

use crate::bits::{flip, held_at, held_frames, lowest_free};
use crate::{Pool, PoolReply};
use registers::{Outcome, Refusal};

// How many frames the largest pool has.
const LARGEST: u32 = 4096;

// How many frames there are in all.
const FRAMES: u64 = entry::FRAMES as u64;

// A pool has 1 to 4,096 frames, and none past pfn 524,287.
pub fn frames_fit(first: u32, size: u32) -> bool
    ensures { result ≡ frames_fit first size }
{
    (1 <= size) & (size <= LARGEST) & (first as u64 + size as u64 <= FRAMES)
}

// Whether a pfn is that of a held frame of the pool with these fields.
fn holds(first: u32, size: u32, bits: &[u64; 64], pfn: u32) -> bool
    requires { size ≤ LARGEST }
    ensures { result ≡ pools.holds (record { first = first; size = size; bits = bits.now }) pfn }
{
    if pfn < first {
        return false;
    }
    let place = pfn - first;
    if size <= place {
        return false;
    }
    held_at(bits, place)
}

// A refusal hands the pool back unchanged.
fn refused_pool(refusal: Refusal, pool: Pool) -> PoolReply
    ensures { result ≡ refused_pool (number_of refusal) pool }
{
    PoolReply {
        outcome: Outcome::Refused(u32::from(refusal)),
        pool,
    }
}

// A pool of which every frame is free.
fn clear_pool(first: u32, size: u32) -> Pool
    ensures { result ≡ clear_pool first size }
{
    Pool {
        first,
        size,
        bits: [0; 64],
    }
}

// A new pool of the frames from a first pfn on, all free. A refused one is all 0.
pub fn new_pool(first: u32, size: u32) -> PoolReply
    ensures { NewPoolGives first size result }
{
    if !frames_fit(first, size) {
        return refused_pool(Refusal::Pool, clear_pool(0, 0));
    }
    let pool = clear_pool(first, size);
    PoolReply {
        outcome: Outcome::Done(0),
        pool,
    }
}

// Takes the lowest free frame. The outcome is Done with its pfn.
pub fn take(mut pool: Pool) -> PoolReply
    ensures { TakeGives pool result }
{
    if !frames_fit(pool.first, pool.size) {
        return refused_pool(Refusal::Pool, pool);
    }
    let Some(place) = lowest_free(&pool.bits, pool.size) else {
        return refused_pool(Refusal::Full, pool);
    };
    flip(&mut pool.bits, place);
    let pfn = pool.first + place;
    PoolReply {
        outcome: Outcome::Done(pfn),
        pool,
    }
}

// Gives a held frame back. The outcome is Done with 0.
pub fn give(mut pool: Pool, pfn: u32) -> PoolReply
    ensures { GiveGives pool pfn result }
{
    if !frames_fit(pool.first, pool.size) {
        return refused_pool(Refusal::Pool, pool);
    }
    if !holds(pool.first, pool.size, &pool.bits, pfn) {
        return refused_pool(Refusal::NotHeld, pool);
    }
    let place = pfn - pool.first;
    flip(&mut pool.bits, place);
    PoolReply {
        outcome: Outcome::Done(0),
        pool,
    }
}

// The number of frames held. The outcome is Done with it.
pub fn held(pool: Pool) -> Outcome
    ensures { HeldGives pool result }
{
    if !frames_fit(pool.first, pool.size) {
        return Outcome::Refused(u32::from(Refusal::Pool));
    }
    Outcome::Done(held_frames(&pool.bits, pool.size))
}
