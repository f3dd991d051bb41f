// An identification's line, as text.
ghost use Rattle.std.specs.Prelude.{◌≡◌, ◌+◌, ◌*◌, ◌≤◌, ◌<◌, length};
ghost use Rattle.line.specs.Writing.{Grows, HasRoom};
ghost use Rattle.rows.specs.Rows.{COLUMNS, LINES, ROW, TOTALS, row_head, row_of, signed, total_text, totals_text};

use crate::COLUMNS;
use line::Text;

// Puts a total in decimal, with a minus sign below zero.
fn put_signed(text: &mut Text<'_>, n: i64)
    requires { HasRoom text.old 20 }
    ensures same { text.new.bytes.ghost_name ≡ text.old.bytes.ghost_name }
    ensures grows { Grows text.old text.new (signed n) }
    ensures room { text.new.length ≤ text.old.length + 20 }
{
    if n < 0 {
        text.put(b"-");
    }
    text.put_decimal(n.unsigned_abs());
}

// Puts a total with a space before it.
fn put_total(text: &mut Text<'_>, n: i64)
    requires { HasRoom text.old 21 }
    ensures same { text.new.bytes.ghost_name ≡ text.old.bytes.ghost_name }
    ensures grows { Grows text.old text.new (total_text n) }
    ensures room { text.new.length ≤ text.old.length + 21 }
{
    text.put(b" ");
    put_signed(text, n);
}

// Puts the fourteen totals from an index on.
fn put_totals(text: &mut Text<'_>, totals: &[i64], from: usize)
    requires { HasRoom text.old 294 × (from + COLUMNS ≤ length totals.now) }
    ensures same { text.new.bytes.ghost_name ≡ text.old.bytes.ghost_name }
    ensures grows { Grows text.old text.new (totals_text totals.now from COLUMNS) }
    ensures room { text.new.length ≤ text.old.length + 294 }
{
    for total in &totals[from..from + COLUMNS] {
        put_total(text, *total);
    }
}

// Puts the file's number and an identification, with a space between.
fn put_head(text: &mut Text<'_>, number: u64, id: usize)
    requires { HasRoom text.old 23 × (id < LINES) }
    ensures same { text.new.bytes.ghost_name ≡ text.old.bytes.ghost_name }
    ensures head { Grows text.old text.new (row_head number id) }
    ensures room { text.new.length ≤ text.old.length + 23 }
{
    text.put_decimal(number);
    text.put(b" ");
    text.put_decimal(id as u64);
}

// Puts an identification's line: the file's number, the identification, its fourteen totals.
pub(crate) fn put_row(text: &mut Text<'_>, number: u64, id: usize, totals: &[i64])
    requires { HasRoom text.old ROW × (id < LINES) × (length totals.now ≡ TOTALS) }
    ensures same { text.new.bytes.ghost_name ≡ text.old.bytes.ghost_name }
    ensures row { Grows text.old text.new (row_of number id totals.now) }
    ensures room { text.new.length ≤ text.old.length + ROW }
{
    put_head(text, number, id);
    put_totals(text, totals, COLUMNS * id);
    text.put(b"\n");
}
