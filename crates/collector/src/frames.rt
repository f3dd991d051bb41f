// Whether the visited leaves of a tree map frames of the pool once each, and only held ones: each frame is given from a copy of the pool,
// which refuses one that it does not hold or that was given before.
ghost use Rattle.std.specs.Prelude.{not, true, ◌≡◌, ◌+◌, ◌*◌, ◌≤◌, eqb, length};
ghost use Rattle.page_table.specs.Stretches.{LONGEST};
ghost use Rattle.registers.specs.Replies.{refusal_of};
ghost use Rattle.collector.specs.Visits.{table_leaves, tree_leaves};
ghost use Rattle.collector.specs.Frames.{all_given, pfns_of};
ghost use Rattle.collector.specs.Turns.{ChecksBy};

use crate::leaves::{Frames, is_visited, pfn_of};
use heap::Pool;
use registers::Outcome;

// Whether an outcome is a refusal.
#[tactic(auto, unfolding(registers::specs::Replies::refusal_of))]
fn is_refused(outcome: Outcome) -> bool
    ensures { result ≡ not (eqb (refusal_of outcome) 0) }
{
    matches!(outcome, Outcome::Refused(number) if number != 0)
}

// Gives the frames of a table's visited leaves: the pool after that, or none where a give is refused.
fn give_table(words: &[u32], frames: Frames, table: usize, pool: Pool) -> Option<Pool>
    requires { (length words.now ≤ LONGEST) × (1024 * table + 1024 ≤ length words.now) }
    ensures { ChecksBy pool (pfns_of (table_leaves words.now frames.first frames.size table)) result }
{
    let from = page_table::TABLE * table;
    let mut left = pool;
    for word in &words[from..from + page_table::TABLE] {
        if is_visited(frames, *word) {
            let reply = heap::give(left, pfn_of(*word));
            if is_refused(reply.outcome) {
                return None;
            }
            left = reply.pool;
        }
    }
    Some(left)
}

// Whether the frames of a tree's visited leaves could be given one after another.
pub(crate) fn may_give_tree(words: &[u32], directory: usize, pool: Pool) -> bool
    requires { (length words.now ≤ LONGEST) × (512 * directory + 512 ≤ length words.now) }
    ensures { result ≡ all_given pool (pfns_of (tree_leaves words.now pool.first pool.size directory 512)) }
{
    let frames = Frames {
        first: pool.first,
        size: pool.size,
    };
    let mut left = pool;
    for word in reach::directory(words, directory) {
        if page_table::leads_on(words.len(), 0, *word) {
            match give_table(words, frames, page_table::number_of(*word), left) {
                Some(after) => left = after,
                None => return false,
            }
        }
    }
    true
}
