// Operations 2, 3 and 4, which read: the two words of an entry, and the fault address.
ghost use Rattle.mups16.specs.Read.{FaultAddressGives, ReadHighGives, ReadLowGives};

use crate::entries::{Entries, entry_at, index_of, page_of, place_of};
use crate::{Refusal, State};

// The table index is the upper byte of the high word: there it counts 256.
const INDEX: u32 = 1 << 8;

// Operation 2: reads bits 15 to 0 of an entry, its physical page.
pub fn read_low(entries: &[u32], entry_address: u32) -> Result<u16, Refusal>
    ensures { ReadLowGives entries.now entry_address result }
{
    let entries = <&Entries>::try_from(entries)?;
    let e = entry_at(entries, place_of(entry_address));
    Ok(page_of(e))
}

// Operation 3: reads bits 18 to 16 of an entry, and the table index above them.
pub fn read_high(entries: &[u32], state: State, entry_address: u32) -> Result<u16, Refusal>
    ensures { ReadHighGives entries.now state entry_address result }
{
    let entries = <&Entries>::try_from(entries)?;
    let e = entry_at(entries, place_of(entry_address));
    let index = index_of(state);
    Ok((index * INDEX + (e >> 16) % 8) as u16)
}

// Operation 4: reads the virtual address of the last map that had a fault.
pub fn fault_address(state: State) -> u16
    ensures { FaultAddressGives state result }
{
    state.fault_address
}
