// The entries that the caller lends, their bits, and the table index by which one is found.
ghost use Rattle.std.specs.Prelude.{◌≡◌, ◌<◌};
ghost use Rattle.runs.specs.Bits.{flag};
ghost use Rattle.mups16.specs.Entries.{entry_at, page_of, place_of};
ghost use Rattle.mups16.specs.States.{index_of};

use crate::State;

// How many tables there are, how many entries each has, and how many there are in all.
pub(crate) const TABLES: u32 = 32;

pub(crate) const TABLE: u32 = 256;

pub(crate) const ENTRIES: u32 = TABLES * TABLE;

// How many values an entry has, 19 bits, and how many physical pages there are, 16 bits.
pub(crate) const ENTRY_VALUES: u32 = 1 << 19;

pub(crate) const PHYSICAL_PAGES: u32 = 1 << 16;

// The bits above an entry's physical page.
pub(crate) const MAPPED: u32 = 18;

pub(crate) const SYSTEM: u32 = 17;

pub(crate) const WRITABLE: u32 = 16;

// A run of as many entries as the unit has. A call makes it of the run that is lent, or refuses.
pub(crate) type Entries = [u32; ENTRIES as usize];

// The place among the entries that an entry address names.
pub(crate) fn place_of(entry_address: u32) -> u32
    ensures { result ≡ place_of entry_address }
{
    entry_address % ENTRIES
}

// The entry at a place. Bits 19 and up are ignored.
pub(crate) fn entry_at(entries: &Entries, place: u32) -> u32
    requires { place < ENTRIES }
    ensures { result ≡ entry_at entries.now place }
{
    entries[place as usize] % ENTRY_VALUES
}

// Whether an entry has a bit.
pub(crate) fn has(e: u32, bit: u32) -> bool
    requires { bit < 32 }
    ensures { result ≡ flag bit e }
{
    (e >> bit) % 2 == 1
}

// Bits 15 to 0, the physical page.
pub(crate) fn page_of(e: u32) -> u16
    ensures { result ≡ page_of e }
{
    (e % PHYSICAL_PAGES) as u16
}

// The table index that counts.
pub(crate) fn index_of(state: State) -> u32
    ensures { result ≡ index_of state }
{
    state.table_index % TABLES
}
