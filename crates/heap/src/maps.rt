// The call map: a frame taken and stored, by its pfn, in a leaf of the page tables.
ghost use Rattle.std.specs.Prelude.{◌≡◌, ◌<◌};
ghost use Rattle.entry.specs.Entry.{FRAMES};
ghost use Rattle.slots.specs.Buffer.{Buffer};
ghost use Rattle.registers.specs.Numbers.{number_of};
ghost use Rattle.heap.specs.Map.{MapGives, MayMap, mapped_word, refused_map};

use crate::bits::{flip, lowest_free};
use crate::calls::frames_fit;
use crate::{Mapped, Pool};
use registers::{Refusal, Registers};

// How many values the bits of a leaf have that a map keeps: valid, kernel, we and nine software bits, above the pfn's 19.
const KEPT: u32 = 1 << 12;

// A leaf with present set and another pfn; valid, kernel, we and the software bits stay.
fn mapped_word(leaf: u32, pfn: u32) -> u32
    requires { pfn < FRAMES }
    ensures { result ≡ mapped_word leaf pfn }
{
    page_table::PRESENT + (leaf >> 19) % KEPT * entry::FRAMES + pfn
}

// A refused map takes no frame.
fn refused_map(r: Registers, refusal: Refusal, pool: Pool) -> Mapped
    ensures { result ≡ refused_map r (number_of refusal) pool }
{
    let reply = registers::refused(r, u32::from(refusal));
    Mapped {
        reply,
        pfn: 0,
        pool,
    }
}

// Takes the frame at a place, the lowest free one, and stores a leaf with its pfn.
fn map_frame(
    r: Registers,
    buffer: &mut [u64],
    words: &mut [u32],
    mut pool: Pool,
    place: u32,
    index: u32,
    leaf: u32,
) -> Mapped
    requires { MayMap (record { registers = r; buffer = Buffer.Wide buffer.old; words = words.old }) pool place index }
    ensures { MapGives
        (record { registers = r; buffer = Buffer.Wide buffer.old; words = words.old })
        pool index leaf result (Buffer.Wide buffer.new) words.new }
{
    let pfn = pool.first + place;
    let emptied = store::rewrite(buffer, words, index, mapped_word(leaf, pfn));
    let reply = registers::done(r, emptied);
    flip(&mut pool.bits, place);
    Mapped { reply, pfn, pool }
}

// Takes the lowest free frame and stores, at a word of the page tables, a leaf with its pfn. The outcome is Done with the slots emptied.
pub fn map(
    r: Registers,
    buffer: &mut [u64],
    words: &mut [u32],
    pool: Pool,
    index: u32,
    leaf: u32,
) -> Mapped
    ensures { MapGives
        (record { registers = r; buffer = Buffer.Wide buffer.old; words = words.old })
        pool index leaf result (Buffer.Wide buffer.new) words.new }
{
    if !frames_fit(pool.first, pool.size) {
        return refused_map(r, Refusal::Pool, pool);
    }
    if let Err(refusal) = store::store_refusal(r, buffer, words, index) {
        return refused_map(r, refusal, pool);
    }
    let Some(place) = lowest_free(&pool.bits, pool.size) else {
        return refused_map(r, Refusal::Full, pool);
    };
    map_frame(r, buffer, words, pool, place, index, leaf)
}
