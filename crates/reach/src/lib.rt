// What the 64 roots reach in the page tables, and how many leaf words there are. An index is kept beside the tables: for each table, how
// many words of reached directories lead on to it (its links), and how many of its words are present.
#![tactic(auto)]

mod links;

ghost use Rattle.std.specs.Prelude.{true, ◌≡◌, ◌+◌, ◌*◌, ◌≤◌, ◌<◌, length, set};
ghost use Rattle.page_table.specs.Stretches.{stretch, tables_fit};
ghost use Rattle.reach.specs.Reach.{leads_to};
ghost use Rattle.reach.specs.Index.{Indexes, links_of, presents_of};
ghost use Rattle.reach.specs.Leaves.{leaf_count};

// How many words a table and a directory have.
const TABLE: u32 = page_table::TABLE as u32;

const DIRECTORY: u32 = page_table::DIRECTORY as u32;

// How many roots there are; and as a root's number, one that is none.
pub const ROOTS: u32 = 64;

// The words of a directory.
pub fn directory(words: &[u32], number: usize) -> &[u32]
    requires { 512 * number + 512 ≤ length words.now }
    ensures { result.now ≡ stretch words.now 512 number }
{
    let from = page_table::DIRECTORY * number;
    &words[from..from + page_table::DIRECTORY]
}

// Whether a word leads on to the stretch of a number, which has so many levels below it, in a run of a length.
pub fn leads_to(length: usize, levels: u32, word: u32, number: usize) -> bool
    ensures { result ≡ leads_to length levels word number }
{
    page_table::leads_on(length, levels, word) & (page_table::number_of(word) == number)
}

// How many leaf words the tables have, by their index. The words themselves serve the contract only.
// The index is two lent runs beside the words, and no struct here: the replay of crate report lends all three, and holds them in its own.
pub fn leaf_count(words: &[u32], links: &[u32], presents: &[u32]) -> u32
    requires { (tables_fit words.now ≡ true) × Indexes words.now links.now presents.now }
    ensures { result ≡ leaf_count words.now }
{
    let mut leaves = 0;
    for (link, present) in links.iter().zip(presents) {
        if *link != 0 {
            leaves += *present;
        }
    }
    leaves
}

// Brings the counts of present words up to date after a store: the table of an index had another word there.
fn recount(words: &[u32], presents: &mut [u32], index: u32, old: u32)
    requires { (tables_fit words.now ≡ true) × (index < length words.now) × (presents.old ≡ presents_of (set words.now index old)) }
    ensures { presents.new ≡ presents_of words.now }
{
    let table = (index / TABLE) as usize;
    let word = words[index as usize];
    let more = page_table::is_present(word) as u32;
    let fewer = page_table::is_present(old) as u32;
    presents[table] = presents[table] + more - fewer;
}

// Brings the links up to date after a store.
fn relink(words: &[u32], links: &mut [u32], index: u32, old: u32)
    requires { (tables_fit words.now ≡ true) × (index < length words.now) × (links.old ≡ links_of (set words.now index old)) }
    ensures { links.new ≡ links_of words.now }
{
    let word = words[index as usize];
    if index < ROOTS {
        links::shift_root(words, links, index, old, false);
        links::shift_root(words, links, index, word, true);
        return;
    }
    let length = words.len();
    if !(page_table::leads_on(length, 0, old) | page_table::leads_on(length, 0, word)) {
        return;
    }
    // No root is left out: all of them count.
    if links::reached_beside(words, ROOTS, index / DIRECTORY) {
        links::shift(links, length, old, false);
        links::shift(links, length, word, true);
    }
}

// Brings the index up to date after a store, which put another word in the place of `old`.
pub fn stored(words: &[u32], links: &mut [u32], presents: &mut [u32], index: u32, old: u32)
    requires { (tables_fit words.now ≡ true) × (index < length words.now)
        × Indexes (set words.now index old) links.old presents.old }
    ensures { Indexes words.now links.new presents.new }
{
    relink(words, links, index, old);
    recount(words, presents, index, old);
}
