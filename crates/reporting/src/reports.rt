// The files that the arguments name, one after the other.
ghost use Rattle.std.specs.Prelude.{◌≡◌, ◌-◌, ◌≤◌, true, length, take};
ghost use Rattle.std.specs.Io.KnownBytes.{Appends};
ghost use Rattle.reporting.specs.Reports.{FilePut, ReportFits, ReportGives};
ghost use Rattle.reporting.specs.Streams.{ReportPuts};

use crate::lines::{put_lines, unopened};
use crate::{Filed, Reported};
use std::env::Env;
use std::fs::Files;
use std::io::Write;

// Room for the lines of a file: 63 of at most 318 bytes.
pub const ROOM: usize = 20480;

// After a file: what it gave, and whether its lines could be written. No Result: a file whose lines could not be written is answered too
// (`LastFile`).
#[derive(Clone, Copy)]
struct Lines {
    file: Filed,
    written: bool,
}

// Puts an argument at the start of a run, and answers how many bytes it has: none where it is missing or longer than the run. An Option is
// no plainer: a file without a name is unread, as one with a name of no bytes is.
fn put_argument<E: Env>(host: &E, argument: usize, path: &mut [u8]) -> usize
    ensures { result ≤ length path.new }
{
    host.arg(argument, path).unwrap_or(0)
}

// Writes the lines of the file that an argument names: argument 1 names file 0.
fn write_lines<H: Env + Files, W: Write>(
    host: &H,
    writer: &mut W,
    argument: usize,
    path: &mut [u8],
    words: &mut [u32],
    input: &mut [u8],
    out: &mut [u8],
) -> Lines
    requires { (1 ≤ argument) × ReportFits words.old input.old out.old }
    ensures lines { FilePut (argument - 1) result.file words.new input.new out.new }
    ensures put { result.written ≡ true → Appends (W.contents writer.old) (W.contents writer.new) (take result.file.length out.new) }
{
    let n = put_argument(host, argument, path);
    let file = put_lines(host, &path[..n], argument as u64 - 1, words, input, out);
    let written = writer.write_all(&out[..file.length]).is_ok();
    Lines { file, written }
}

// Writes the lines of the files that so many arguments name, the first of which is the program's own name. It stops where lines could not
// be written.
pub fn run<H: Env + Files, W: Write>(
    host: &H,
    writer: &mut W,
    count: usize,
    path: &mut [u8],
    words: &mut [u32],
    input: &mut [u8],
    out: &mut [u8],
) -> Reported
    requires { ReportFits words.old input.old out.old }
    ensures report { ReportGives count result words.new input.new out.new }
    ensures puts { result.written ≡ true → ReportPuts (result.next - 1) (W.contents writer.old) (W.contents writer.new) }
{
    // A `while`, since it also ends where lines could not be written: a `for` would answer at two places.
    let mut next: usize = 1;
    let mut file = unopened(0);
    let mut written = true;
    while written & (next < count) {
        let lines = write_lines(host, writer, next, path, words, input, out);
        file = lines.file;
        written = lines.written;
        next += 1;
    }
    Reported {
        next,
        file,
        written,
    }
}
