// A record's line, as text; and text and numbers in decimal, for other lines.
#![tactic(auto)]

mod text;

ghost use Rattle.std.specs.Prelude.{◌≡◌, ◌+◌, ◌≤◌};
ghost use Rattle.line.specs.Lines.{head_of, line_of, value_of, word_of};
ghost use Rattle.line.specs.Writing.{Grows, HasRoom};

use registers::{Outcome, Reply};
pub use text::Text;

// The number that a line shows.
fn value_of(outcome: Outcome) -> u32
    ensures { result ≡ value_of outcome }
{
    match outcome {
        Outcome::At(address) => address,
        Outcome::Fault(value) => value,
        Outcome::Done(value) => value,
        Outcome::Refused(number) => number,
    }
}

// Puts the outcome's word, with a space on either side.
fn put_word(text: &mut Text<'_>, outcome: Outcome)
    requires { HasRoom text.old 9 }
    ensures same { text.new.bytes.ghost_name ≡ text.old.bytes.ghost_name }
    ensures word { Grows text.old text.new (word_of outcome) }
{
    match outcome {
        Outcome::At(_) => text.put(b" at "),
        Outcome::Fault(_) => text.put(b" fault "),
        Outcome::Done(_) => text.put(b" done "),
        Outcome::Refused(_) => text.put(b" refused "),
    }
}

// Puts a record's number, the word and the value.
fn put_head(text: &mut Text<'_>, number: u64, outcome: Outcome)
    requires { HasRoom text.old 37 }
    ensures same { text.new.bytes.ghost_name ≡ text.old.bytes.ghost_name }
    ensures head { Grows text.old text.new (head_of number outcome) }
{
    text.put_decimal(number);
    put_word(text, outcome);
    text.put_hex(value_of(outcome));
}

// Puts the line of a record's number and reply. A line has at most 49 bytes.
pub fn put_line(text: &mut Text<'_>, number: u64, reply: Reply)
    requires { HasRoom text.old 49 }
    ensures same { text.new.bytes.ghost_name ≡ text.old.bytes.ghost_name }
    ensures line { Grows text.old text.new (line_of number reply) }
    ensures room { text.new.length ≤ text.old.length + 49 }
{
    put_head(text, number, reply.outcome);
    text.put(b" ");
    text.put_decimal(reply.loads as u64);
    text.put(b"\n");
}
