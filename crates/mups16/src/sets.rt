// Operations 5 and 6, which set: the table index, and an entry.
ghost use Rattle.mups16.specs.Set.{SetEntryGives, SetTableIndexGives};

use crate::entries::{ENTRY_VALUES, Entries, TABLES, place_of};
use crate::{Refusal, State};

// Operation 5: sets the table index.
pub fn set_table_index(state: State, index: u32) -> State
    ensures { SetTableIndexGives state index result }
{
    State {
        table_index: index % TABLES,
        ..state
    }
}

// Operation 6: sets an entry. Bits 19 and up become zero.
pub fn set_entry(entries: &mut [u32], entry_address: u32, e: u32) -> Result<(), Refusal>
    ensures { SetEntryGives entries.old entry_address e entries.new result }
{
    // Not by `try_from`, as in the reads: its contract leaves open what the lent run ends as.
    let Some(entries): Option<&mut Entries> = entries.as_mut_array() else {
        return Err(Refusal::WrongLength);
    };
    entries[place_of(entry_address) as usize] = e % ENTRY_VALUES;
    Ok(())
}
