// The report program's loops: over the blocks of a file, and over the files that the arguments name.
#![tactic(auto)]

mod blocks;
mod files;
mod lines;
mod replays;
mod reports;

use registers::Registers;
pub use replays::BLOCK;
use report::PastLimit;
pub use reports::{ROOM, run};
use streams::Filled;

// After a block: whether a total passed the limit, how many bytes were read, and why there were no more.
#[derive(Clone, Copy)]
pub struct Block {
    pub counted: Result<(), PastLimit>,
    pub filled: Filled,
}

// After a file's blocks: the registers, the last block, and how many there were.
#[derive(Clone, Copy)]
pub struct Replayed {
    pub registers: Registers,
    pub last: Block,
    pub blocks: u64,
}

// After a file: its replay, of no block where it could not be opened, and how many bytes its lines have.
#[derive(Clone, Copy)]
pub struct Filed {
    pub replayed: Replayed,
    pub length: usize,
}

// How a file ended: it could not be read to its end, a total passed the limit, or it was counted whole.
#[derive(Clone, Copy)]
pub enum Ending {
    Unread,
    Refused,
    Whole,
}

// After the files of some arguments: the next argument, the last file, and whether its lines could be written (`ReportGives` speaks of all
// three at once).
#[derive(Clone, Copy)]
pub struct Reported {
    pub next: usize,
    pub file: Filed,
    pub written: bool,
}
