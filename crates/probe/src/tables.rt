// The table words that the program keeps, from one request to the next.
ghost use Rattle.std.specs.Prelude.{◌≤◌};

use crate::parts;
use std::io::{Read, Write};

// How many table words a request brings at most, and their bytes.
pub(crate) const WORDS: usize = 16384;

// Room for the bytes of the words, on their way in and out.
pub(crate) const WORD_BYTES: usize = 4 * WORDS;

// A number of which there is room for so many.
#[derive(Clone, Copy)]
pub(crate) struct Count<const ROOM: usize> {
    pub number: usize,
    ghost fits: { number ≤ ROOM },
}

impl<const ROOM: usize> Count<ROOM> {
    // None where there is no room for so many.
    pub(crate) fn new(number: u32) -> Option<Count<ROOM>> {
        let number = number as usize;
        if ROOM < number {
            return None;
        }
        Some(Count { number })
    }
}

// Room for the words, and how many are kept.
#[derive(Drop)]
pub(crate) struct Tables {
    pub words: [u32; WORDS],
    pub kept: Count<WORDS>,
}

impl Tables {
    pub(crate) fn new() -> Tables {
        Tables {
            words: [0; WORDS],
            kept: Count { number: 0 },
        }
    }

    // Reads so many words; where these are none, the ones that are kept stay. None where the input ends before.
    pub(crate) fn read(
        &mut self,
        input: &mut impl Read,
        bytes: &mut [u8; WORD_BYTES],
        count: Count<WORDS>,
    ) -> Option<()> {
        let n = count.number;
        if n != 0 {
            parts::read_by(input, &mut bytes[..4 * n], &mut self.words[..n])?;
            self.kept = count;
        }
        Some(())
    }

    pub(crate) fn write(&self, output: &mut impl Write, bytes: &mut [u8; WORD_BYTES]) {
        let n = self.kept.number;
        parts::write_by(output, &mut bytes[..4 * n], &self.words[..n]);
    }
}
