// The report's lines of one file, as text from a run's first byte on. Each function answers how many bytes the text has.
#![tactic(auto)]

mod row;

ghost use Rattle.std.specs.Prelude.{◌≡◌, ◌*◌, ◌≤◌, ◌++◌, length};
ghost use Rattle.line.specs.Text.{TextPut, decimal};
ghost use Rattle.rows.specs.Rows.{LINES, ROW, TOTALS, refused_text, report_of, unread_text};

use crate::row::put_row;
use line::Text;

// A file has a line for each identification from 0 to 62.
pub const LINES: usize = 63;

// A line has so many totals.
pub const COLUMNS: usize = 14;

// Writes the 63 lines of a file: a line for each identification, with its fourteen totals. A line has at most 318 bytes.
pub fn put_report(out: &mut [u8], number: u64, totals: &[i64]) -> usize
    requires { (LINES * ROW ≤ length out.old) × (length totals.now ≡ TOTALS) }
    ensures text { TextPut out.old 0 (report_of number totals.now) result out.new }
    ensures room { result ≤ length out.new }
{
    let mut text = Text {
        bytes: out,
        length: 0,
    };
    for id in 0..LINES {
        put_row(&mut text, number, id, totals);
    }
    text.length
}

// Writes a file's one line: its number and a word.
fn put_single(out: &mut [u8], number: u64, word: &[u8]) -> usize
    requires { (32 ≤ length out.old) × (length word.now ≤ 12) }
    ensures text { TextPut out.old 0 (decimal number ++ word.now) result out.new }
    ensures room { result ≤ length out.new }
{
    let mut text = Text {
        bytes: out,
        length: 0,
    };
    text.put_decimal(number);
    text.put(word);
    text.length
}

// Writes the line of a file that was stopped.
pub fn put_refused(out: &mut [u8], number: u64) -> usize
    requires { 32 ≤ length out.old }
    ensures text { TextPut out.old 0 (refused_text number) result out.new }
    ensures room { result ≤ length out.new }
{
    put_single(out, number, b" refused 9\n")
}

// Writes the line of a file that can't be read.
pub fn put_unread(out: &mut [u8], number: u64) -> usize
    requires { 32 ≤ length out.old }
    ensures text { TextPut out.old 0 (unread_text number) result out.new }
    ensures room { result ≤ length out.new }
{
    put_single(out, number, b" unread\n")
}
