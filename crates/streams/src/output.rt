// A writer that remembers whether the reader at the other end of its pipe is gone.
ghost use Rattle.std.specs.Prelude.{◌≡◌, false, ◌||◌, OnOk, MatchResult, IsTrue, ◌↔◌, if◌then◌else◌, []};
ghost use Rattle.std.specs.Io.KnownBytes.{Appends, WriteAppends};
ghost use Rattle.std.specs.Io.{WritesAtMost};
ghost use Rattle.std.specs.IoError.{error_kind};

use std::io;
use std::io::{ErrorKind, Write};

// A writer, and whether the reader at the other end of its pipe is gone.
#[derive(Drop)]
pub struct Output<W> {
    to: W,
    reader_gone: bool,
}

impl<W> Output<W> {
    // A writer whose reader is not known to be gone.
    pub fn new(to: W) -> Output<W>
        ensures { result ≡ record { to = to; reader_gone = false } }
    {
        Output {
            to,
            reader_gone: false,
        }
    }

    // Where a line could not be written, says so by a sentence, but for a pipe whose reader is gone: then the program ends without a word.
    pub fn say_unless<E: Write>(&self, written: bool, to: &mut E, sentence: &[u8]) -> io::Result<()>
        ensures { OnOk result (Appends (E.contents to.old) (E.contents to.new) (if written || self.now.reader_gone then [] else sentence.now)) }
    {
        if written | self.reader_gone {
            return Ok(());
        }
        to.write_all(sentence)
    }
}

impl<W: Write> Write for Output<W> {
    ghost contents = { λ s. W.contents s.to };

    fn write(&mut self, buf: &[u8]) -> io::Result<usize>
        ensures bound { WritesAtMost result buf.now }
        ensures bytes { WriteAppends (W.contents self.old.to) (W.contents self.new.to) result buf.now }
        ensures gone { MatchResult result (λ n. self.new.reader_gone ≡ self.old.reader_gone)
            (λ e. IsTrue self.new.reader_gone ↔ error_kind e ≡ ErrorKind.BrokenPipe) }
    {
        let wrote = self.to.write(buf);
        if let Err(e) = &wrote {
            self.reader_gone = e.kind() == ErrorKind::BrokenPipe;
        }
        wrote
    }

    fn flush(&mut self) -> io::Result<()> {
        self.to.flush()
    }
}
