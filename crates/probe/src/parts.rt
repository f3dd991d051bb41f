// The parts of requests and answers: runs of numbers as bytes. A read answers none where the input ends before, or can't be read.
ghost use Rattle.std.specs.Prelude.{◌≡◌, ◌*◌, ◌≤◌, length};
ghost use Rattle.probe.specs.Lengths.{PART_BYTES};

use crate::SLOTS;
use std::io::{Read, Write};
use wire::Number;

// How many bytes a part has at most, but for the table words: those of the slots.
const PART_BYTES: usize = 8 * SLOTS;

// Fills the run from the input, by way of the bytes.
pub(crate) fn read_by<N: Number>(
    input: &mut impl Read,
    bytes: &mut [u8],
    numbers: &mut [N],
) -> Option<()>
    requires { length bytes.old ≡ N.SIZE * length numbers.old }
{
    input.read_exact(bytes).ok()?;
    wire::decode(bytes, numbers);
    Some(())
}

pub(crate) fn read_run<N: Number>(input: &mut impl Read, numbers: &mut [N]) -> Option<()>
    requires { N.SIZE * length numbers.old ≤ PART_BYTES }
{
    let mut bytes = [0u8; PART_BYTES];
    read_by(input, &mut bytes[..N::SIZE * numbers.len()], numbers)
}

// Reads so many numbers.
pub(crate) fn read_part<N: Number + Default, const COUNT: usize>(
    input: &mut impl Read,
) -> Option<[N; COUNT]>
    requires { N.SIZE * COUNT ≤ PART_BYTES }
{
    let mut numbers = [N::default(); COUNT];
    read_run(input, &mut numbers)?;
    Some(numbers)
}

// Writes the run, by way of the bytes. Where it can't be written the program still goes on to the end of its input.
pub(crate) fn write_by<N: Number>(output: &mut impl Write, bytes: &mut [u8], numbers: &[N])
    requires { length bytes.old ≡ N.SIZE * length numbers.now }
{
    wire::encode(numbers, bytes);
    let _ = output.write_all(bytes);
}

pub(crate) fn write_run<N: Number>(output: &mut impl Write, numbers: &[N])
    requires { N.SIZE * length numbers.now ≤ PART_BYTES }
{
    let mut bytes = [0u8; PART_BYTES];
    write_by(output, &mut bytes[..N::SIZE * numbers.len()], numbers);
}
