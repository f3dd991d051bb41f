// The page tables as bytes: the walk of a page, and the store of one word. A walk decodes only the words that it reads.
#![tactic(auto)]

ghost use Rattle.std.specs.Prelude.{true, ◌≡◌, ◌+◌, ◌*◌, ◌≤◌, ◌<◌, length, get_or};
ghost use Rattle.entry.specs.Address.{PAGES};
ghost use Rattle.page_table.specs.Stretches.{ROOTS, stretch};
ghost use Rattle.page_table.specs.Walk.{walk_page};
ghost use Rattle.slots.specs.Buffer.{Buffer, buffer_fits};
ghost use Rattle.table_bytes.specs.TableBytes.{words_of, stretch_bytes, RewriteGives};

use page_table::{TableRun, Walk};

// How many bytes a word has.
const WORD: usize = 4;

// A lent run of table words as bytes.
#[derive(Clone, Copy)]
struct TableBytes<'a> {
    bytes: &'a [u8],
}

impl<'a> TableRun for TableBytes<'a> {
    ghost words = { λ run. words_of run.bytes.now };

    fn count(self) -> usize {
        self.bytes.len() / WORD
    }

    fn word_at(self, index: usize) -> u32 {
        wire::read(self.bytes, index)
    }

    fn stretch(self, size: usize, number: usize) -> TableBytes<'a>
        requires { size * number + size ≤ length (words_of self.bytes.now) }
        ensures words { words_of result.bytes.now ≡ stretch (words_of self.entry.bytes.now) size number }
        ensures bytes { result.bytes.now ≡ stretch_bytes self.entry.bytes.now size number }
    {
        let long = WORD * size;
        let from = long * number;
        TableBytes {
            bytes: &self.bytes[from..from + long],
        }
    }
}

// The walk of a page under an identification: the global tree first, and the own tree where that has nothing.
#[tactic(auto, using(crate::proofs::Words::roots_inside))]
pub fn walk_page(tables: &[u8], id: u32, vpn: u32) -> Walk
    requires { (id ≤ 63) × (vpn < PAGES) × (4 * ROOTS ≤ length tables.now) }
    ensures { result ≡ walk_page (words_of tables.now) id vpn }
{
    page_table::walk_page(TableBytes { bytes: tables }, id, vpn)
}

// Writes one word's bytes and sweeps; answers how many slots were emptied.
pub fn rewrite(buffer: &mut [u64], tables: &mut [u8], index: u32, value: u32) -> u32
    requires { (buffer_fits (Buffer.Wide buffer.old) ≡ true) × (4 * ROOTS ≤ length tables.old) × (index < length (words_of tables.old)) }
    ensures { RewriteGives (record { index = index; value = value }) tables.old tables.new
        (Buffer.Wide buffer.old) (Buffer.Wide buffer.new) result }
{
    wire::write(tables, index as usize, value);
    store::sweep(buffer, TableBytes { bytes: tables })
}
