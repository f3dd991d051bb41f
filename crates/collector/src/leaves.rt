// A leaf, and what a pass makes of it.
ghost use Rattle.std.specs.Prelude.{true, ◌≡◌};
ghost use Rattle.page_table.specs.Words.{present, leaf_valid, leaf_pfn};
ghost use Rattle.collector.specs.Visits.{is_visited, aged};

// The frame of a leaf.
pub(crate) fn pfn_of(word: u32) -> u32
    ensures { result ≡ leaf_pfn word }
{
    word % entry::FRAMES
}

// The frames of a pool: the first pfn, and how many there are.
#[derive(Clone, Copy)]
pub(crate) struct Frames {
    pub(crate) first: u32,
    pub(crate) size: u32,
}

// Whether a word is a present leaf whose frame is among them.
pub(crate) fn is_visited(frames: Frames, word: u32) -> bool
    ensures { result ≡ is_visited frames.first frames.size word }
{
    let pfn = pfn_of(word);
    let end = frames.first as u64 + frames.size as u64;
    page_table::is_present(word) & ((frames.first <= pfn) & ((pfn as u64) < end))
}

// Whether a leaf is valid.
pub(crate) fn is_valid(word: u32) -> bool
    ensures { result ≡ leaf_valid word }
{
    (word >> 30) % 2 == 1
}

// The bit of a leaf that says that it is valid.
const VALID: u32 = 1 << 30;

// A valid leaf without its valid bit, another one without its present bit.
pub(crate) fn aged_word(word: u32) -> u32
    requires { present word ≡ true }
    ensures { result ≡ aged word }
{
    if is_valid(word) {
        return word - VALID;
    }
    word - page_table::PRESENT
}
