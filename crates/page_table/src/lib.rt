// The walk of the page tables, a lent run of table words (course format).
#![tactic(auto)]

ghost use Rattle.std.specs.Prelude.{true, ◌≡◌, ℕ, ◌+◌, ◌*◌, ◌%◌, ◌≤◌, ◌<◌, List, length, get_or};
ghost use Rattle.entry.specs.Address.{PAGES};
ghost use Rattle.page_table.specs.Words.{present, number};
ghost use Rattle.page_table.specs.Stretches.{LONGEST, ROOTS, TABLE, stretch, stretch_size, index_in, broken, tables_fit};
ghost use Rattle.page_table.specs.Walk.{index_below, walk_tree, walk_page};
ghost use Rattle.page_table.specs.Reads.{leads_on};
ghost use Rattle.page_table.specs.Ends.{end_read, ending};
ghost use Rattle.page_table.specs.Faults.{fault_kind, stop_place, walk_fault};

// How many words a table has, a directory, and the longest run.
pub const TABLE: usize = 1024;

pub const DIRECTORY: usize = 512;

const LONGEST: usize = 1 << 26;

// The highest bit of a table word: it is present.
pub const PRESENT: u32 = 1 << 31;

// A leaf: whether it stands in the global tree, its word, and the word's index in the run.
#[derive(Clone, Copy)]
pub struct Found {
    pub global: bool,
    pub word: u32,
    pub index: u32,
}

// Where a walk ends: the levels below, the word that decides, and its index in the run.
#[derive(Clone, Copy)]
pub struct End {
    pub levels: u32,
    pub word: u32,
    pub index: u32,
}

// Where a walk stopped: whether in the global tree, and the level of the word that decided: root 1, directory 2, leaf 3.
#[derive(Clone, Copy)]
pub struct Stop {
    pub global: bool,
    pub level: u32,
}

#[derive(Clone, Copy)]
pub enum Walk {
    Leaf(Found),
    Absent(Stop),
    Broken(Stop),
}

// A lent run of table words, as words or as bytes. A walk reads the tables by this trait alone.
pub trait TableRun: Copy {
    // The words of the run.
    ghost words: { Self → List ℕ };

    // How many words the run has.
    fn count(self) -> usize
        ensures { result ≡ length (words self) };

    // The word of an index.
    fn word_at(self, index: usize) -> u32
        requires { index < length (words self) }
        ensures { result ≡ get_or (words self) index 0 };

    // The directory or table with a number: that very stretch of the lent run.
    fn stretch(self, size: usize, number: usize) -> Self
        requires { size * number + size ≤ length (words self) }
        ensures { words result ≡ stretch (words self) size number };
}

impl<'a> TableRun for &'a [u32] {
    ghost words = { λ run. run.now };

    fn count(self) -> usize {
        self.len()
    }

    fn word_at(self, index: usize) -> u32 {
        self[index]
    }

    fn stretch(self, size: usize, number: usize) -> &'a [u32] {
        let from = size * number;
        &self[from..from + size]
    }
}

// The run has 1,024 to 67,108,864 words, in multiples of 1,024.
pub fn tables_fit(words: &[u32]) -> bool
    ensures { result ≡ tables_fit words.now }
{
    let n = words.len();
    (TABLE <= n) & (n <= LONGEST) & (n % TABLE == 0)
}

// How many words a stretch has, by the levels left below it: a table none, a directory one. No enum says which: the walk counts levels.
pub fn stretch_size(levels: u32) -> usize
    ensures { result ≡ stretch_size levels }
{
    if levels == 0 { TABLE } else { DIRECTORY }
}

// How many pages a table has leaves for.
const TABLE_PAGES: u32 = TABLE as u32;

// The index of a page's word in such a stretch.
pub fn index_in(levels: u32, vpn: u32) -> usize
    ensures { result ≡ index_in levels vpn }
{
    if levels == 0 {
        (vpn % TABLE_PAGES) as usize
    } else {
        (vpn / TABLE_PAGES) as usize
    }
}

// Whether a word is present. A bit is read as its definition has it, by shift and remainder, as everywhere here: a mask is no plainer.
pub fn is_present(word: u32) -> bool
    ensures { result ≡ present word }
{
    (word >> 31) % 2 == 1
}

// How many values a number has, of 16 bits, and the 15 reserved bits above it.
const NUMBERS: u32 = 1 << 16;

const RESERVED: u32 = 1 << 15;

// The number of the directory or table that a root or directory word names.
pub fn number_of(word: u32) -> usize
    ensures { result ≡ number word }
{
    (word % NUMBERS) as usize
}

// Whether a present root or directory word is broken: reserved bits, number 0, or a stretch that is not wholly inside the run.
fn is_broken(length: usize, size: usize, word: u32) -> bool
    requires { (1 ≤ size) × (size ≤ TABLE) }
    ensures { result ≡ broken length size word }
{
    let number = number_of(word);
    let last = size * number + (size - 1);
    ((word >> 16) % RESERVED != 0) | (number == 0) | (length <= last)
}

// Whether a word leads on to the stretch that it names, which has so many levels below it, in a run of a length.
pub fn leads_on(length: usize, levels: u32, word: u32) -> bool
    ensures { result ≡ leads_on length levels word }
{
    let size = stretch_size(levels);
    is_present(word) & !is_broken(length, size, word)
}

// The index in the run of a page's word in the stretch that a word names.
pub fn index_below(vpn: u32, levels: u32, word: u32) -> u32
    requires { vpn < PAGES }
    ensures { result ≡ index_below vpn levels word }
{
    let size = stretch_size(levels);
    (size * number_of(word) + index_in(levels, vpn)) as u32
}

// Goes on with a walk from the word at which it stands, as far as words lead on: there it ends, with the word that it read. Run and end
// are lent, and each level hands them on as they are: that lets the compiler make a loop of the calls.
fn descend<T: TableRun>(tables: &T, vpn: u32, end: &mut End)
    requires { (vpn < PAGES) × (end.old.levels ≤ 2) × (end.old.index < LONGEST) × (end.old.word ≡ get_or (T.words tables.now) end.old.index 0) }
    ensures { end.new ≡ end_read (T.words tables.now) vpn end.old.levels end.old.index }
{
    let levels = end.levels;
    if levels == 0 {
        return;
    }
    let run = *tables;
    let word = end.word;
    let below = levels - 1;
    if !leads_on(run.count(), below, word) {
        return;
    }
    let part = run.stretch(stretch_size(below), number_of(word));
    let next = part.word_at(index_in(below, vpn));
    *end = End {
        levels: below,
        word: next,
        index: index_below(vpn, below, word),
    };
    descend(tables, vpn, end)
}

// The answer of a walk, by its end: what the word says that the walk read there.
pub fn ended(global: bool, end: End) -> Walk
    requires { end.levels ≤ 2 }
    ensures { result ≡ ending global end }
{
    let level = 3 - end.levels;
    let word = end.word;
    if !is_present(word) {
        return Walk::Absent(Stop { global, level });
    }
    if end.levels == 0 {
        return Walk::Leaf(Found {
            global,
            word,
            index: end.index,
        });
    }
    Walk::Broken(Stop { global, level })
}

// The walk of one tree, from its root.
pub fn walk_tree<T: TableRun>(tables: T, vpn: u32, global: bool, root: u32) -> Walk
    requires { (vpn < PAGES) × (root ≤ 63) × (ROOTS ≤ length (T.words tables)) }
    ensures { result ≡ walk_tree (T.words tables) vpn global root }
{
    let word = tables.word_at(root as usize);
    let mut end = End {
        levels: 2,
        word,
        index: root,
    };
    descend(&tables, vpn, &mut end);
    ended(global, end)
}

// The root of the global tree.
pub const GLOBAL_ROOT: u32 = 63;

// The walk of a page under an identification: the global tree first, and the own tree where that has nothing.
pub fn walk_page<T: TableRun>(tables: T, id: u32, vpn: u32) -> Walk
    requires { (id ≤ 63) × (vpn < PAGES) × (ROOTS ≤ length (T.words tables)) }
    ensures { result ≡ walk_page (T.words tables) id vpn }
{
    let first = walk_tree(tables, vpn, true, GLOBAL_ROOT);
    let Walk::Absent(_) = first else {
        return first;
    };
    walk_tree(tables, vpn, false, id)
}

// The kinds of a fault after a walk: it found a leaf, it was absent, or it was broken.
const MISS: u32 = 8;

pub const ABSENT: u32 = 16;

pub const BROKEN: u32 = 32;

// What the lowest bit of the level counts in a fault value, above the kind, and the bit of the global tree.
const LEVEL: u32 = 1 << 8;

const GLOBAL_TREE: u32 = 1 << 12;

// Where a walk stopped, as a fault value carries it: the level in bits 8 to 11, and bit 12 for the global tree.
fn stop_place(stop: Stop) -> u32
    ensures { result ≡ stop_place stop }
{
    let tree = stop.global as u32;
    stop.level % 16 * LEVEL + tree * GLOBAL_TREE
}

// The fault value of an access that still misses after this walk.
pub fn walk_fault(found: Walk) -> u32
    ensures { result ≡ walk_fault found }
{
    match found {
        Walk::Leaf(_) => MISS,
        Walk::Absent(stop) => ABSENT + stop_place(stop),
        Walk::Broken(stop) => BROKEN + stop_place(stop),
    }
}

// The kind of a fault value: at most 8, or 16 absent, 32 broken.
pub fn fault_kind(value: u32) -> u32
    ensures { result ≡ fault_kind value }
{
    value % LEVEL
}
