// Whether the tree of an identification stands by itself, so that a store to one of its leaves changes no other word that a walk reads.
// Directories and tables are told by their numbers: directory d stands in the words of table d / 2.
#![tactic(auto)]

ghost use Rattle.std.specs.Prelude.{true, ◌≡◌, ◌+◌, ◌*◌, ◌≤◌, ◌<◌, length};
ghost use Rattle.page_table.specs.Stretches.{ROOTS, stretch};
ghost use Rattle.trees.specs.Trees.{names_table, also_named, has_broken, names_twice, overlaps};
ghost use Rattle.trees.specs.Trees.{shares_table, meets, meets_root, met, apart, tree_fits};

// A directory that stands in the lent words, by its number.
#[derive(Clone, Copy)]
struct Directory<'a> {
    words: &'a [u32],
    number: usize,
    // It is wholly inside the run.
    ghost inside: { 512 * number + 512 ≤ length words.now },
}

impl<'a> Directory<'a> {
    // Its own words.
    fn own(self) -> &'a [u32]
        ensures { result.now ≡ stretch self.entry.words.now 512 self.entry.number }
    {
        reach::directory(self.words, self.number)
    }

    // Whether one of its first n words leads on to a table.
    fn names_table(self, n: usize, table: usize) -> bool
        requires { n ≤ 512 }
        ensures { result ≡ names_table self.entry.words.now self.entry.number n table }
    {
        let length = self.words.len();
        self.own()[..n]
            .iter()
            .any(|word| reach::leads_to(length, 0, *word, table))
    }

    // Whether a word leads on to a table that one of its first n words leads on to as well.
    fn also_named(self, word: u32, n: usize) -> bool
        requires { n ≤ 512 }
        ensures { result ≡ also_named self.entry.words.now word self.entry.number n }
    {
        if !page_table::leads_on(self.words.len(), 0, word) {
            return false;
        }
        self.names_table(n, page_table::number_of(word))
    }

    // Whether a word of it is broken.
    fn has_broken(self) -> bool
        ensures { result ≡ has_broken self.entry.words.now self.entry.number }
    {
        let length = self.words.len();
        self.own().iter().any(|word| page_table::is_present(*word)
            & !page_table::leads_on(length, 0, *word))
    }

    // Whether two words of it lead on to one table.
    fn names_twice(self) -> bool
        ensures { result ≡ names_twice self.entry.words.now self.entry.number }
    {
        let own = self.own();
        (0..page_table::DIRECTORY).any(|j| self.also_named(own[j], j))
    }

    // Whether it stands in the words of one of its tables.
    fn overlaps(self) -> bool
        ensures { result ≡ overlaps self.entry.words.now self.entry.number }
    {
        self.names_table(page_table::DIRECTORY, self.number / 2)
    }

    // Whether a table of another directory is one of its own.
    fn shares_table(self, other: usize) -> bool
        requires { 512 * other + 512 ≤ length self.words.now }
        ensures { result ≡ shares_table self.entry.words.now self.entry.number other }
    {
        reach::directory(self.words, other)
            .iter()
            .any(|word| self.also_named(*word, page_table::DIRECTORY))
    }

    // Whether a word of it or of its tables lies in another directory or in one of its tables.
    fn meets(self, other: usize) -> bool
        requires { 512 * other + 512 ≤ length self.words.now }
        ensures { result ≡ meets self.entry.words.now self.entry.number other }
    {
        if self.number == other {
            return true;
        }
        if self.names_table(page_table::DIRECTORY, other / 2) {
            return true;
        }
        let beside = Directory {
            words: self.words,
            number: other,
        };
        if beside.names_table(page_table::DIRECTORY, self.number / 2) {
            return true;
        }
        self.shares_table(other)
    }

    // Whether a word of it or of its tables lies in a stretch that a root reaches, another one than the identification's own.
    fn meets_root(self, id: u32, root: u32) -> bool
        requires { (ROOTS ≤ length self.words.now) × (root < 64) }
        ensures { result ≡ meets_root self.entry.words.now id self.entry.number root }
    {
        if root == id {
            return false;
        }
        let word = self.words[root as usize];
        if !page_table::leads_on(self.words.len(), 1, word) {
            return false;
        }
        self.meets(page_table::number_of(word))
    }

    // Whether such a word lies in a stretch that any other root reaches, the global root too.
    fn is_met(self, id: u32) -> bool
        requires { ROOTS ≤ length self.words.now }
        ensures { result ≡ met self.entry.words.now id self.entry.number }
    {
        (0..reach::ROOTS).any(|root| self.meets_root(id, root))
    }

    // Whether the tree of the identification's directory stands by itself.
    fn stands_apart(self, id: u32) -> bool
        requires { ROOTS ≤ length self.words.now }
        ensures { result ≡ apart self.entry.words.now id self.entry.number }
    {
        if self.has_broken() {
            return false;
        }
        if self.names_twice() {
            return false;
        }
        if self.overlaps() {
            return false;
        }
        !self.is_met(id)
    }
}

// Whether the tree of an identification stands by itself: an absent root has none to judge, a broken one never does.
pub fn tree_fits(words: &[u32], id: u32) -> bool
    requires { (ROOTS ≤ length words.now) × (id < 64) }
    ensures { result ≡ tree_fits words.now id }
{
    let root = words[id as usize];
    if !page_table::is_present(root) {
        return true;
    }
    if !page_table::leads_on(words.len(), 1, root) {
        return false;
    }
    let directory = Directory {
        words,
        number: page_table::number_of(root),
    };
    directory.stands_apart(id)
}
