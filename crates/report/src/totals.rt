// The totals: fourteen for each identification 0 to 62, one after the other.
ghost use Rattle.std.specs.Prelude.{◌≡◌, ◌^◌, ◌≤◌, ◌<◌, is_ok, length, nat_abs};
ghost use Rattle.report.specs.Gains.{gain};
ghost use Rattle.report.specs.Totals.{AllWithin, BookGives, COLUMNS, TOTALS, within};

use crate::PastLimit;

// How many totals an identification has.
const COLUMNS: u32 = 14;

// The highest total and the lowest.
const HIGHEST: i64 = 4294967295;

const LOWEST: i64 = -4294967295;

// A total is not past 4,294,967,295 either way.
fn is_within(total: i64) -> bool
    ensures { result ≡ within total }
{
    (LOWEST <= total) & (total <= HIGHEST)
}

// Adds an amount to a total, which may take it past the limit. Identifications above 62 have no totals.
pub(crate) fn book(totals: &mut [i64], id: u32, column: u32, amount: i64) -> Result<(), PastLimit>
    requires { (length totals.old ≡ TOTALS) × AllWithin totals.old × (column < COLUMNS) × (nat_abs amount ≤ 2 ^ 32) }
    ensures { BookGives id (gain column amount) totals.old (is_ok result) totals.new }
{
    if 62 < id {
        return Ok(());
    }
    let at = (COLUMNS * id + column) as usize;
    let old = totals[at];
    let total = old + amount;
    totals[at] = total;
    if !is_within(total) {
        return Err(PastLimit);
    }
    Ok(())
}
