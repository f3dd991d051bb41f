// What a call gives to the totals: an accepted served access, or an accepted store.
ghost use Rattle.std.specs.Prelude.{[], ◌∷◌, ◌≡◌, SomeIff, true, is_ok, length, pos, ◌-ℤ◌};
ghost use Rattle.report.specs.Gains.{access_gains, fault_column, gain, has_column};
ghost use Rattle.report.specs.Totals.{AllWithin, BookAllGives, CHANGE, EMPTIED, LOADS, SERVED, TOTALS};

use crate::PastLimit;
use crate::totals::book;
use registers::Outcome;

// The columns of the totals; those from 2 to 11 are the faults'. They are numbers and no enum: a total's place and a fault's column are
// counted from them.
const SERVED: u32 = 0;

const LOADS: u32 = 1;

const ABSENT_FAULTS: u32 = 10;

const BROKEN_FAULTS: u32 = 11;

const EMPTIED: u32 = 12;

const CHANGE: u32 = 13;

// The column of a fault's kind: 1 to 8, 16 and 32 have one.
#[tactic(auto, unfolding(crate::specs::Gains::has_column, crate::specs::Gains::fault_column))]
fn fault_column(kind: u32) -> Option<u32>
    ensures { SomeIff result (has_column kind ≡ true) (fault_column kind) }
{
    match kind {
        1..=8 => Some(kind + 1),
        page_table::ABSENT => Some(ABSENT_FAULTS),
        page_table::BROKEN => Some(BROKEN_FAULTS),
        _ => None,
    }
}

// The first number minus the second, which may be below zero.
fn difference(a: u32, b: u32) -> i64
    ensures { result ≡ pos a -ℤ pos b }
{
    let first = a as i64;
    let second = b as i64;
    first - second
}

// An accepted access counts once, with its loads.
fn book_served(totals: &mut [i64], id: u32, loads: u32) -> Result<(), PastLimit>
    requires { (length totals.old ≡ TOTALS) × AllWithin totals.old }
    ensures { BookAllGives id (gain SERVED (pos 1) ∷ gain LOADS (pos loads) ∷ []) totals.old (is_ok result) totals.new }
{
    book(totals, id, SERVED, 1)?;
    let amount = i64::from(loads);
    book(totals, id, LOADS, amount)
}

// A fault counts by its kind as well, wherever its walk stopped.
fn book_fault(totals: &mut [i64], id: u32, value: u32, loads: u32) -> Result<(), PastLimit>
    requires { (length totals.old ≡ TOTALS) × AllWithin totals.old }
    ensures { BookAllGives id (access_gains (Outcome.Fault value) loads) totals.old (is_ok result) totals.new }
{
    book_served(totals, id, loads)?;
    match fault_column(page_table::fault_kind(value)) {
        Some(column) => book(totals, id, column, 1),
        None => Ok(()),
    }
}

// Books what an access gives, by its outcome; a refused one gives nothing.
pub(crate) fn book_access(
    totals: &mut [i64],
    id: u32,
    outcome: Outcome,
    loads: u32,
) -> Result<(), PastLimit>
    requires { (length totals.old ≡ TOTALS) × AllWithin totals.old }
    ensures { BookAllGives id (access_gains outcome loads) totals.old (is_ok result) totals.new }
{
    match outcome {
        Outcome::At(_) => book_served(totals, id, loads),
        Outcome::Fault(value) => book_fault(totals, id, value, loads),
        Outcome::Done(_) => Ok(()),
        Outcome::Refused(_) => Ok(()),
    }
}

// Books what an accepted store gives: the slots that it emptied, and leaf words after minus leaf words before.
pub(crate) fn book_store(
    totals: &mut [i64],
    id: u32,
    emptied: u32,
    before: u32,
    after: u32,
) -> Result<(), PastLimit>
    requires { (length totals.old ≡ TOTALS) × AllWithin totals.old }
    ensures { BookAllGives id (gain EMPTIED (pos emptied) ∷ gain CHANGE (pos after -ℤ pos before) ∷ [])
        totals.old (is_ok result) totals.new }
{
    let amount = i64::from(emptied);
    book(totals, id, EMPTIED, amount)?;
    let change = difference(after, before);
    book(totals, id, CHANGE, change)
}
