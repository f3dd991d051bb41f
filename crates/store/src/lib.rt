// The table store: one word of the page tables is written, and every slot of the buffer is judged anew.
#![tactic(auto)]

ghost use Rattle.std.specs.Prelude.{true, [], ◌∷◌, ◌≡◌, ◌<◌, ◌≤◌, ◌^◌, length};
ghost use Rattle.entry.specs.Address.{PAGES};
ghost use Rattle.entry.specs.Entry.{pack, unpack};
ghost use Rattle.page_table.specs.Stretches.{ROOTS};
ghost use Rattle.registers.specs.Numbers.{refusal_number};
ghost use Rattle.slots.specs.Buffer.{Buffer, buffer_fits};
ghost use Rattle.store.specs.Leaf.{leaf_entry};
ghost use Rattle.store.specs.Sweep.{SweepGives, agrees_with_leaf, goes, kept, settled};
ghost use Rattle.store.specs.Claims.{PageOf, claim_of};
ghost use Rattle.store.specs.Rewrite.{RewriteGives};
ghost use Rattle.store.specs.TableStore.{TableStoreGives, store_refusal};

use entry::Entry;
use page_table::{Found, TableRun, Walk};
use registers::{Refusal, Registers, Reply};

// A page under an identification.
#[derive(Clone, Copy)]
pub struct Page {
    pub id: u32,
    pub vpn: u32,
}

// What the entry of a slot claims: nothing in an empty slot, what no tables give with page_id 63, else a page's leaf.
#[derive(Clone, Copy)]
pub enum Claim {
    Nothing,
    Void,
    Of(Page),
}

// The number of a leaf's entry for a page under an identification.
pub fn leaf_entry(id: u32, vpn: u32, found: Found) -> u64
    requires { (id < 64) × (vpn < PAGES) }
    ensures { result ≡ pack (leaf_entry id vpn found) }
{
    let word = found.word;
    entry::pack(Entry {
        vpn15: vpn / 16,
        page_id: id,
        global: found.global,
        valid: (word >> 30) % 2 == 1,
        kernel: (word >> 29) % 2 == 1,
        we: (word >> 28) % 2 == 1,
        pfn: word % entry::FRAMES,
    })
}

// What the entry of a slot claims. Only the 44 bits are judged.
pub fn claim_of(slot: u32, e: u64) -> Claim
    requires { (slot < 64) × (e < 2 ^ 44) }
    ensures { result ≡ claim_of slot (unpack e) }
{
    if e == entry::empty_entry(slot / 16) {
        return Claim::Nothing;
    }
    let id = entry::page_id_of(e);
    if 62 < id {
        return Claim::Void;
    }
    let vpn = 16 * entry::vpn15_of(e) + slot % 16;
    Claim::Of(Page { id, vpn })
}

// The walk of the page that an entry claims gave that very entry.
pub fn agrees_with_leaf(found: Walk, page: Page, e: u64) -> bool
    requires { PageOf (unpack e) page × (e < 2 ^ 44) }
    ensures { result ≡ agrees_with_leaf found page.vpn (unpack e) }
{
    let Walk::Leaf(leaf) = found else {
        return false;
    };
    e == leaf_entry(page.id, page.vpn, leaf)
}

// The entry of a slot is empty, or the tables give what it claims.
fn kept<T: TableRun>(tables: T, slot: u32, e: u64) -> bool
    requires { (ROOTS ≤ length (T.words tables)) × (slot < 64) × (e < 2 ^ 44) }
    ensures { result ≡ kept (T.words tables) slot (unpack e) }
{
    match claim_of(slot, e) {
        Claim::Nothing => true,
        Claim::Void => false,
        Claim::Of(page) => {
            let found = page_table::walk_page(tables, page.id, page.vpn);
            agrees_with_leaf(found, page, e)
        }
    }
}

// Empties a slot unless it is kept; answers how many slots that empties, one or none.
pub fn settle(buffer: &mut [u64], slot: u32, keep: bool) -> u32
    requires { (buffer_fits (Buffer.Wide buffer.old) ≡ true) × (slot < 64) }
    ensures number { result ≡ goes keep }
    ensures buffer { Buffer.Wide buffer.new ≡ settled keep slot (Buffer.Wide buffer.old) }
{
    if keep {
        return 0;
    }
    let empty = entry::empty_entry(slot / 16);
    slots::put_slot(buffer, slot, empty);
    1
}

// Empties every slot that is not kept, and answers how many.
pub fn sweep<T: TableRun>(buffer: &mut [u64], tables: T) -> u32
    requires { (buffer_fits (Buffer.Wide buffer.old) ≡ true) × (ROOTS ≤ length (T.words tables)) }
    ensures { SweepGives (T.words tables) (Buffer.Wide buffer.old) (Buffer.Wide buffer.new) result }
{
    let mut emptied: u32 = 0;
    for slot in 0..64 {
        let e = slots::slot_at(buffer, slot);
        let keep = kept(tables, slot, e);
        emptied += settle(buffer, slot, keep);
    }
    emptied
}

// Writes one word and sweeps; answers how many slots were emptied. The bytes have these two lines too: a run that is lent to be written
// is not copied, as a `TableRun` is, and no trait can lend it on for a shorter time.
pub fn rewrite(buffer: &mut [u64], words: &mut [u32], index: u32, value: u32) -> u32
    requires { (buffer_fits (Buffer.Wide buffer.old) ≡ true) × (ROOTS ≤ length words.old) × (index < length words.old) }
    ensures { RewriteGives ((record { index = index; value = value }) ∷ []) words.old words.new
        (Buffer.Wide buffer.old) (Buffer.Wide buffer.new) result }
{
    words[index as usize] = value;
    sweep(buffer, &*words)
}

// Whether a table store is accepted, or what it is refused for.
pub fn store_refusal(r: Registers, buffer: &[u64], words: &[u32], index: u32) -> Result<(), Refusal>
    ensures { refusal_number result ≡ store_refusal
        (record { registers = r; buffer = Buffer.Wide buffer.now; words = words.now }) index }
{
    registers::machine_refusal(
        registers::registers_fit(r),
        slots::buffer_fits(buffer),
        page_table::tables_fit(words),
    )?;
    let index_fits = (index as usize) < words.len();
    if !index_fits {
        return Err(Refusal::Index);
    }
    Ok(())
}

// Writes one word of the page tables. The outcome is Done with the number of slots that were emptied.
pub fn table_store(
    r: Registers,
    buffer: &mut [u64],
    words: &mut [u32],
    index: u32,
    value: u32,
) -> Reply
    ensures { TableStoreGives
        (record { registers = r; buffer = Buffer.Wide buffer.old; words = words.old })
        (record { index = index; value = value }) result (Buffer.Wide buffer.new) words.new }
{
    if let Err(refusal) = store_refusal(r, buffer, words, index) {
        return registers::refused(r, u32::from(refusal));
    }
    let emptied = rewrite(buffer, words, index, value);
    registers::done(r, emptied)
}
