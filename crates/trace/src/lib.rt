// A trace: records of eight bytes, each a call or malformed; a record's step; and a run of records.
#![tactic(auto)]

mod records;
mod steps;
mod traces;

pub use records::command_of;
use registers::{Access, Registers};
pub use steps::step;
pub use traces::{command_at, run};

// What a record asks for: a served access; a store at an index; a guarded setting of a register; or nothing, where it is malformed.
#[derive(Clone, Copy)]
pub enum Command {
    Serve(Access),
    Store(u32, u32),
    Set(u32, u32),
    Malformed,
}

// After a run of records: the registers, and how many bytes the lines have.
#[derive(Clone, Copy)]
pub struct Ran {
    pub registers: Registers,
    pub length: usize,
}
