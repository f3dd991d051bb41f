// The words that hold a pool's bits: the lowest free frame, how many are held, and one bit flipped.
ghost use Rattle.std.specs.Prelude.{not, ◌≡◌, ◌+◌, ◌*◌, ◌≤◌, ◌<◌, ◌%◌, ◌^◌, get_or, set};
ghost use Rattle.std.specs.Int.Count.{count_trailing_zeros};
ghost use Rattle.runs.specs.Counts.{count};
ghost use Rattle.heap.specs.Bits.{IsLowestFree, held_at, with_held};
ghost use Rattle.heap.specs.Pools.{LARGEST};

// The lowest bits of a number, as many as the width says.
fn low_bits(n: u64, width: u32) -> u64
    ensures { result ≡ n % 2 ^ width }
{
    if width < 64 {
        return n % (1u64 << width);
    }
    n
}

// How many words hold the bits of so many frames.
fn words_of(size: u32) -> u32
    requires { size ≤ LARGEST }
    ensures { (size ≤ 64 * result) × (64 * result < size + 64) }
{
    size.div_ceil(64)
}

// One word of the bits.
fn word_at(bits: &[u64; 64], k: u32) -> u64
    requires { k < 64 }
    ensures { result ≡ get_or bits.now k 0 }
{
    bits[k as usize]
}

// The place of the lowest set bit of a number; 64 where none is set.
fn lowest_set(n: u64) -> u32
    ensures { result ≡ count_trailing_zeros 64 n }
{
    u64::trailing_zeros(n)
}

// The place of the lowest free frame; none where every frame is held.
pub(crate) fn lowest_free(bits: &[u64; 64], size: u32) -> Option<u32>
    requires { size ≤ LARGEST }
    ensures { IsLowestFree bits.now size result }
{
    for k in 0..words_of(size) {
        // The free word: the complement within the size.
        let free = low_bits(!word_at(bits, k), size - 64 * k);
        if free != 0 {
            return Some(64 * k + lowest_set(free));
        }
    }
    None
}

// How many frames are held.
pub(crate) fn held_frames(bits: &[u64; 64], size: u32) -> u32
    requires { size ≤ LARGEST }
    ensures { result ≡ count (held_at bits.now) size }
{
    let mut number: u32 = 0;
    for k in 0..words_of(size) {
        let held = low_bits(word_at(bits, k), size - 64 * k);
        number += u64::count_ones(held);
    }
    number
}

// Whether the frame at a place is held.
pub(crate) fn held_at(bits: &[u64; 64], place: u32) -> bool
    requires { place < LARGEST }
    ensures { result ≡ held_at bits.now place }
{
    (word_at(bits, place / 64) >> (place % 64)) % 2 == 1
}

// Replaces one word of the bits.
fn put_word(bits: &mut [u64; 64], k: u32, word: u64)
    requires { k < 64 }
    ensures { bits.new ≡ set bits.old k word }
{
    bits[k as usize] = word;
}

// Flips the bit at a place: a free frame becomes held, and a held one free.
pub(crate) fn flip(bits: &mut [u64; 64], place: u32)
    requires { place < LARGEST }
    ensures { bits.new ≡ with_held (not (held_at bits.old place)) place bits.old }
{
    let k = place / 64;
    let word = word_at(bits, k);
    put_word(bits, k, word ^ (1u64 << (place % 64)));
}
