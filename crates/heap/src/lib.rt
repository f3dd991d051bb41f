// A heap of frames above the unit: a pool of up to 4,096 frames, from which frames are taken, given back, and mapped.
#![tactic(auto)]

mod bits;
mod calls;
mod maps;

pub use calls::{frames_fit, give, held, new_pool, take};
pub use maps::map;
use registers::{Outcome, Reply};

// The frames from a first pfn on, as many as the size says. Bit j of word k belongs to the frame at the place 64k + j and is set
// where the frame is held. Bits at and past the size belong to no frame: they are ignored and stay.
#[derive(Clone, Copy)]
pub struct Pool {
    pub first: u32,
    pub size: u32,
    pub bits: [u64; 64],
}

// The outcome of a call on a pool, and the pool after it.
#[derive(Clone, Copy)]
pub struct PoolReply {
    pub outcome: Outcome,
    pub pool: Pool,
}

// What a map answers: the table store's reply, with the slots emptied; the pfn of the frame; the pool after it.
#[derive(Clone, Copy)]
pub struct Mapped {
    pub reply: Reply,
    pub pfn: u32,
    pub pool: Pool,
}
