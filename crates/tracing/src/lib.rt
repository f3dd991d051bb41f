// The trace program's loop: reads records of eight bytes from a reader, block by block, and writes a line for each to a writer.
#![tactic(auto)]

mod blocks;
mod traces;

use registers::Registers;
pub use traces::{BLOCK, ROOM, run, run_blocks};

// After a block: the registers; the next record's number; how many bytes were read; how many bytes the block's lines have, and whether
// they could be written. No Result says that: `TraceGives` also speaks of a block whose lines could not be.
#[derive(Clone, Copy)]
pub struct Block {
    pub registers: Registers,
    pub number: u64,
    pub read: usize,
    pub length: usize,
    pub written: bool,
}
