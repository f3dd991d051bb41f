// The stores of a pass, one visited leaf after another.
ghost use Rattle.std.specs.Prelude.{true, ◌≡◌, ◌≤◌, ◌<◌, ◌+◌, ◌*◌, ◌^◌, length, get_or};
ghost use Rattle.page_table.specs.Words.{present};
ghost use Rattle.page_table.specs.Stretches.{LONGEST, ROOTS, tables_fit};
ghost use Rattle.slots.specs.Buffer.{Buffer, buffer_fits};
ghost use Rattle.trees.specs.Trees.{apart, tree_fits};
ghost use Rattle.collector.specs.Visits.{pass_leaves, table_leaves, tree_leaves};
ghost use Rattle.collector.specs.Turns.{at_first, turn, turns};

use crate::Aged;
use crate::leaves::{Frames, aged_word, is_valid, is_visited, pfn_of};
use heap::Pool;

// Visits the leaf at an index: its store, and where it was not valid its frame goes back.
fn age_leaf(buffer: &mut [u64], words: &mut [u32], index: u32, begun: Aged) -> Aged
    requires { (buffer_fits (Buffer.Wide buffer.old) ≡ true) × (ROOTS ≤ length words.old) × (index < length words.old)
        × (present (get_or words.old index 0) ≡ true) × (begun.given < 2 ^ 31) × (begun.emptied < 2 ^ 31) }
    ensures { record { buffer = Buffer.Wide buffer.new; words = words.new; aged = result }
        ≡ turn (record { buffer = Buffer.Wide buffer.old; words = words.old; aged = begun })
        (record { index = index; value = get_or words.old index 0 }) }
{
    let word = words[index as usize];
    let emptied = begun.emptied + store::rewrite(buffer, words, index, aged_word(word));
    if is_valid(word) {
        return Aged { emptied, ..begun };
    }
    let reply = heap::give(begun.pool, pfn_of(word));
    Aged {
        given: begun.given + 1,
        emptied,
        pool: reply.pool,
    }
}

// Visits the leaves of a table, lowest first.
fn age_table(
    buffer: &mut [u64],
    words: &mut [u32],
    frames: Frames,
    table: usize,
    begun: Aged,
) -> Aged
    requires { (buffer_fits (Buffer.Wide buffer.old) ≡ true) × (ROOTS ≤ length words.old) × (length words.old ≤ LONGEST)
        × (1024 * table + 1024 ≤ length words.old) × (begun.given < 2 ^ 30) × (begun.emptied < 2 ^ 30) }
    ensures { record { buffer = Buffer.Wide buffer.new; words = words.new; aged = result }
        ≡ turns (record { buffer = Buffer.Wide buffer.old; words = words.old; aged = begun })
        (table_leaves words.old frames.first frames.size table) }
{
    let mut aged = begun;
    for k in 0..page_table::TABLE {
        let index = page_table::TABLE * table + k;
        if is_visited(frames, words[index]) {
            aged = age_leaf(buffer, words, index as u32, aged);
        }
    }
    aged
}

// Visits the leaves of a directory's tables, lowest page first.
fn age_tree(buffer: &mut [u64], words: &mut [u32], pool: Pool, id: u32, directory: usize) -> Aged
    requires { (buffer_fits (Buffer.Wide buffer.old) ≡ true) × (ROOTS ≤ length words.old) × (length words.old ≤ LONGEST)
        × (512 * directory + 512 ≤ length words.old) × (apart words.old id directory ≡ true) }
    ensures { record { buffer = Buffer.Wide buffer.new; words = words.new; aged = result }
        ≡ turns (record { buffer = Buffer.Wide buffer.old; words = words.old; aged = at_first pool })
        (tree_leaves words.old pool.first pool.size directory 512) }
{
    let frames = Frames {
        first: pool.first,
        size: pool.size,
    };
    let mut aged = Aged {
        given: 0,
        emptied: 0,
        pool,
    };
    for j in 0..page_table::DIRECTORY {
        let word = words[page_table::DIRECTORY * directory + j];
        if page_table::leads_on(words.len(), 0, word) {
            aged = age_table(buffer, words, frames, page_table::number_of(word), aged);
        }
    }
    aged
}

// Visits the leaves of an identification's tree, lowest page first; an absent root has none.
pub(crate) fn age(buffer: &mut [u64], words: &mut [u32], pool: Pool, id: u32) -> Aged
    requires { (buffer_fits (Buffer.Wide buffer.old) ≡ true) × (tables_fit words.old ≡ true) × (id < 64)
        × (tree_fits words.old id ≡ true) }
    ensures { record { buffer = Buffer.Wide buffer.new; words = words.new; aged = result }
        ≡ turns (record { buffer = Buffer.Wide buffer.old; words = words.old; aged = at_first pool })
        (pass_leaves words.old pool.first pool.size id) }
{
    let root = words[id as usize];
    if !page_table::leads_on(words.len(), 1, root) {
        return Aged {
            given: 0,
            emptied: 0,
            pool,
        };
    }
    age_tree(buffer, words, pool, id, page_table::number_of(root))
}
