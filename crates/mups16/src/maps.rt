// Operation 0: a virtual address of 16 bits becomes a physical one of 24 bits.
ghost use Rattle.std.specs.Prelude.{◌+◌, ◌*◌, ◌≡◌};
ghost use Rattle.runs.specs.Bits.{bit};
ghost use Rattle.mups16.specs.Faults.{has_fault};
ghost use Rattle.mups16.specs.Map.{MapGives, boot_mapping, entry_mapping, map_place, mapping_of, offset, state_after, virtual_page};

use crate::entries::{Entries, MAPPED, SYSTEM, TABLE, WRITABLE, entry_at, has, index_of, page_of};
use crate::{MapReply, Mapping, State};

// How many bytes a page has.
const PAGE: u32 = 256;

// What stands above the virtual address in boot mode: 80 hex in the top byte.
const BOOT: u32 = 0x80 << 16;

// The upper eight bits of a virtual address.
fn virtual_page(virtual_address: u16) -> u32
    ensures { result ≡ virtual_page virtual_address }
{
    u32::from(virtual_address) / PAGE
}

// The lower eight bits.
fn offset(virtual_address: u16) -> u32
    ensures { result ≡ offset virtual_address }
{
    u32::from(virtual_address) % PAGE
}

// A map in boot mode: no fault.
fn boot_mapping(virtual_address: u16) -> Mapping
    ensures { result ≡ boot_mapping virtual_address }
{
    Mapping {
        address: BOOT + u32::from(virtual_address),
        no_mapping: false,
        write_violation: false,
        protection_violation: false,
    }
}

// A map by an entry. Its address is the entry's, whatever the faults are.
fn entry_mapping(e: u32, virtual_address: u16, user: bool, write: bool) -> Mapping
    ensures { result ≡ entry_mapping e virtual_address user write }
{
    Mapping {
        address: u32::from(page_of(e)) * PAGE + offset(virtual_address),
        no_mapping: !has(e, MAPPED),
        write_violation: write & !has(e, WRITABLE),
        protection_violation: user & has(e, SYSTEM),
    }
}

// The place of the entry that a map looks at.
fn map_place(state: State, virtual_address: u16) -> u32
    ensures { result ≡ map_place state virtual_address }
{
    TABLE * index_of(state) + virtual_page(virtual_address)
}

// What a map over all entries answers.
fn mapping_of(
    entries: &Entries,
    state: State,
    virtual_address: u16,
    user: bool,
    write: bool,
) -> Mapping
    ensures { result ≡ mapping_of entries.now state virtual_address user write }
{
    if state.boot_mode {
        return boot_mapping(virtual_address);
    }
    let e = entry_at(entries, map_place(state, virtual_address));
    entry_mapping(e, virtual_address, user, write)
}

impl Mapping {
    // Whether a map has any fault.
    fn has_fault(self) -> bool
        ensures { result ≡ has_fault self }
    {
        self.no_mapping | self.write_violation | self.protection_violation
    }

    // The faults as programs tell them, in one number: no mapping counts 1, a write violation 2 and a protection violation 4.
    pub fn faults(self) -> u32
        ensures { result ≡ bit self.no_mapping + 2 * bit self.write_violation + 4 * bit self.protection_violation }
    {
        u32::from(self.no_mapping)
            + 2 * u32::from(self.write_violation)
            + 4 * u32::from(self.protection_violation)
    }
}

impl State {
    // The state after a map: one with a fault leaves its virtual address.
    fn after(self, virtual_address: u16, m: Mapping) -> State
        ensures { result ≡ state_after self virtual_address m }
    {
        if m.has_fault() {
            return State {
                fault_address: virtual_address,
                ..self
            };
        }
        self
    }
}

// Maps a virtual address. A map with a fault answers its address too.
pub fn map(entries: &[u32], state: State, virtual_address: u16, user: bool, write: bool) -> MapReply
    ensures { MapGives entries.now state virtual_address user write result }
{
    match <&Entries>::try_from(entries) {
        Ok(entries) => {
            let m = mapping_of(entries, state, virtual_address, user, write);
            MapReply {
                answer: Ok(m),
                state: state.after(virtual_address, m),
            }
        }
        Err(error) => MapReply {
            answer: Err(error.into()),
            state,
        },
    }
}
