// Reading until a run is full, and a writer that remembers whether anybody still reads what it writes.
#![tactic(auto)]

mod filling;
mod output;

pub use filling::fill;
pub use output::Output;

// Why reading stopped: the run is full, the input has ended, or a read failed.
#[derive(Clone, Copy)]
pub enum Stop {
    Full,
    Ended,
    Failed,
}

// How many bytes were read to a run's start, and why there are no more.
#[derive(Clone, Copy)]
pub struct Filled {
    pub length: usize,
    pub stop: Stop,
}
