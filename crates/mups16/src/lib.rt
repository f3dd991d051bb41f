// The memory unit of the MUPS/16: 32 tables of 256 entries, and the operations that map through them, read them and set them.
#![tactic(auto)]

mod entries;
mod maps;
mod reads;
mod refusal;
mod sets;

pub use maps::map;
pub use reads::{fault_address, read_high, read_low};
pub use refusal::Refusal;
pub use sets::{set_entry, set_table_index};

// What the unit keeps from call to call. Of the table index the low 5 bits count. Boot mode is a line of the machine: the caller sets it.
#[derive(Clone, Copy, Default)]
pub struct State {
    pub table_index: u32,
    pub boot_mode: bool,
    pub fault_address: u16,
}

// What a map answers: an address of 24 bits, and each fault by itself.
#[derive(Clone, Copy)]
pub struct Mapping {
    pub address: u32,
    pub no_mapping: bool,
    pub write_violation: bool,
    pub protection_violation: bool,
}

// A map's answer, and the state after it, which a refused map leaves.
#[derive(Clone, Copy)]
pub struct MapReply {
    pub answer: Result<Mapping, Refusal>,
    pub state: State,
}
