// An entry of the translation buffer, as one number of 64 bits and as its fields; the empty slot; a page's slots.
#![tactic(auto)]

ghost use Rattle.std.specs.Prelude.{◌≡◌, ◌<◌, ◌^◌};
ghost use Rattle.entry.specs.Address.{slot_of, vpn_of};
ghost use Rattle.entry.specs.Entry.{EntryFits, join, low_bits, pack, unpack};
ghost use Rattle.entry.specs.Empty.{empty_entry};

// How many pages there are, and how many frames: a vpn and a pfn have 19 bits.
pub const PAGES: u32 = 1 << 19;

pub const FRAMES: u32 = 1 << 19;

// How many bytes a page has: an offset has 13 bits.
pub const PAGE: u32 = 1 << 13;

// How many values a vpn15 has: 15 bits.
pub const VPN15S: u32 = 1 << 15;

// The same for a number of 64 bits.
const WIDE_VPN15S: u64 = VPN15S as u64;

const WIDE_FRAMES: u64 = FRAMES as u64;

// The 44 bits of an entry, by their fields.
#[derive(Clone, Copy)]
pub struct Entry {
    pub vpn15: u32,
    pub page_id: u32,
    pub global: bool,
    pub valid: bool,
    pub kernel: bool,
    pub we: bool,
    pub pfn: u32,
}

// Bits 43 to 29.
pub fn vpn15_of(e: u64) -> u32
    ensures { result ≡ (unpack e).vpn15 }
{
    ((e >> 29) % WIDE_VPN15S) as u32
}

// Bits 28 to 23.
pub fn page_id_of(e: u64) -> u32
    ensures { result ≡ (unpack e).page_id }
{
    ((e >> 23) % 64) as u32
}

// One function with a place for bits 22 and 21 is no plainer: each is one line, under the field's name.

// Bit 22.
pub fn is_global(e: u64) -> bool
    ensures { result ≡ (unpack e).global }
{
    (e >> 22) % 2 == 1
}

// Bit 21.
pub fn is_valid(e: u64) -> bool
    ensures { result ≡ (unpack e).valid }
{
    (e >> 21) % 2 == 1
}

// All fields of a number. Bits 44 and up are ignored.
pub fn unpack(e: u64) -> Entry
    ensures { result ≡ unpack e }
{
    Entry {
        vpn15: vpn15_of(e),
        page_id: page_id_of(e),
        global: is_global(e),
        valid: is_valid(e),
        kernel: (e >> 20) % 2 == 1,
        we: (e >> 19) % 2 == 1,
        pfn: (e % WIDE_FRAMES) as u32,
    }
}

// What the lowest bit of each field counts in an entry's number.
const VPN15: u64 = 1 << 29;

const PAGE_ID: u64 = 1 << 23;

const GLOBAL: u32 = 1 << 22;

const VALID: u32 = 1 << 21;

const KERNEL: u32 = 1 << 20;

const WE: u32 = 1 << 19;

// An entry from its vpn15, its page_id and its bits 22 to 0.
pub fn join(vpn15: u32, page_id: u32, low: u32) -> u64
    requires { (vpn15 < 2 ^ 15) × (page_id < 2 ^ 6) × (low < 2 ^ 23) }
    ensures { result ≡ join vpn15 page_id low }
{
    vpn15 as u64 * VPN15 + page_id as u64 * PAGE_ID + low as u64
}

// Bits 22 to 0 of an entry's number.
fn low_bits(f: Entry) -> u32
    requires { EntryFits f }
    ensures { (result ≡ low_bits f) × (result < 2 ^ 23) }
{
    f.global as u32 * GLOBAL
        + f.valid as u32 * VALID
        + f.kernel as u32 * KERNEL
        + f.we as u32 * WE
        + f.pfn
}

// The number of the fields. Bits 44 and up are zero.
pub fn pack(f: Entry) -> u64
    requires { EntryFits f }
    ensures { result ≡ pack f }
{
    let low = low_bits(f);
    join(f.vpn15, f.page_id, low)
}

// What an empty slot of a set holds.
pub fn empty_entry(set: u32) -> u64
    requires { set < 4 }
    ensures { result ≡ empty_entry set }
{
    pack(Entry {
        vpn15: set,
        page_id: 63,
        global: false,
        valid: false,
        kernel: false,
        we: false,
        pfn: 0,
    })
}

// The virtual page number of an address.
pub fn vpn_of(address: u32) -> u32
    ensures { result ≡ vpn_of address }
{
    (address >> 13) % PAGES
}

// The slot of a set in which a page's entry stands.
pub fn slot_of(set: u32, vpn: u32) -> u32
    requires { set < 4 }
    ensures { result ≡ slot_of set vpn }
{
    16 * set + vpn % 16
}
