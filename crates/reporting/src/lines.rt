// The lines of a file.
ghost use Rattle.std.specs.Prelude.{◌≡◌, ◌≤◌, is_ok, length};
ghost use Rattle.line.specs.Text.{TextPut};
ghost use Rattle.reporting.specs.Endings.{ending_of, ending_text};
ghost use Rattle.reporting.specs.Reports.{FileGives, FilePut, ROOM, ReportFits};
ghost use Rattle.report.specs.Totals.{TOTALS};

use crate::files::open;
use crate::replays::replay_file;
use crate::{Block, Ending, Filed, Replayed};
use report::{PastLimit, Replay};
use std::fs::Files;
use std::io::Read;
use streams::{Filled, Stop};

// How many totals a file has.
const TOTALS: usize = rows::LINES * rows::COLUMNS;

// How a file ended, by its last block: a total that passed the limit comes before a read that failed behind it.
#[tactic(auto, unfolding(crate::specs::Endings::ending_of))]
fn ending_of(last: Block) -> Ending
    ensures { result ≡ ending_of (is_ok last.counted) last.filled.stop }
{
    match (last.counted, last.filled.stop) {
        (Err(PastLimit), _) => Ending::Refused,
        (Ok(()), Stop::Failed) => Ending::Unread,
        (Ok(()), _) => Ending::Whole,
    }
}

// Puts the lines of a file that ended so.
fn put_ending(out: &mut [u8], number: u64, totals: &[i64], ending: Ending) -> usize
    requires { (length out.old ≡ ROOM) × (length totals.now ≡ TOTALS) }
    ensures text { TextPut out.old 0 (ending_text number totals.now ending) result out.new }
    ensures room { result ≤ length out.new }
{
    match ending {
        Ending::Unread => rows::put_unread(out, number),
        Ending::Refused => rows::put_refused(out, number),
        Ending::Whole => rows::put_report(out, number, totals),
    }
}

// Replays an open file and puts its lines, with a buffer, an index of the tables and totals of the file's own.
fn put_open<R: Read>(
    file: &mut R,
    number: u64,
    words: &mut [u32],
    input: &mut [u8],
    out: &mut [u8],
) -> Filed
    requires { ReportFits words.old input.old out.old }
    ensures lines { FileGives number result words.new input.new out.new }
    ensures room { result.length ≤ length out.new }
{
    let mut buffer = [0u64; 64];
    let mut links = [0u32; 16];
    let mut presents = [0u32; 16];
    let mut totals = [0i64; TOTALS];
    let registers = report::start(&mut buffer, words, &mut links, &mut presents, &mut totals);
    let mut replay = Replay {
        registers,
        buffer: &mut buffer,
        words,
        links: &mut links,
        presents: &mut presents,
        totals: &mut totals,
    };
    let replayed = replay_file(file, &mut replay, input);
    let ending = ending_of(replayed.last);
    let length = put_ending(out, number, replay.totals, ending);
    Filed { replayed, length }
}

// A file that was not opened, with so many bytes of lines: its replay has no block.
pub(crate) fn unopened(length: usize) -> Filed
    ensures { (result.replayed.blocks ≡ 0) × (result.length ≡ length) }
{
    let replayed = Replayed {
        registers: registers::zero_registers(),
        last: Block {
            counted: Ok(()),
            filled: Filled {
                length: 0,
                stop: Stop::Failed,
            },
        },
        blocks: 0,
    };
    Filed { replayed, length }
}

// Opens a file, and puts its lines; one that can't be opened is unread.
pub(crate) fn put_lines<F: Files>(
    files: &F,
    path: &[u8],
    number: u64,
    words: &mut [u32],
    input: &mut [u8],
    out: &mut [u8],
) -> Filed
    requires { ReportFits words.old input.old out.old }
    ensures lines { FilePut number result words.new input.new out.new }
    ensures room { result.length ≤ length out.new }
{
    match open(files, path) {
        Some(mut file) => put_open(&mut file, number, words, input, out),
        None => {
            let n = rows::put_unread(out, number);
            unopened(n)
        }
    }
}
