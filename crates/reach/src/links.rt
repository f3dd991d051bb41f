// The links of the tables: how many words of reached directories lead on to each.
ghost use Rattle.std.specs.Prelude.{true, not, ◌≡◌, ◌+◌, ◌*◌, ◌≤◌, ◌<◌, length};
ghost use Rattle.page_table.specs.Stretches.{tables_fit};
ghost use Rattle.reach.specs.Relinking.{Steps, Relinks, RelinksAll, reached_beside, relinked, relinked_first, root_links, stepped};

// Whether a root other than `root` leads on to a directory.
pub(crate) fn reached_beside(words: &[u32], root: u32, directory: u32) -> bool
    requires { tables_fit words.now ≡ true }
    ensures { result ≡ reached_beside words.now root directory }
{
    (0..crate::ROOTS).any(|r| (r != root)
        & crate::leads_to(words.len(), 1, words[r as usize], directory as usize))
}

// One more, or one fewer. Which way is a bool, and no enum: the contract of shift_root says the other way by `not`.
fn step(n: u32, up: bool) -> u32
    requires { Steps up n }
    ensures { result ≡ stepped up n }
{
    if up { n + 1 } else { n - 1 }
}

// Adds or takes away the link of a word.
pub(crate) fn shift(links: &mut [u32], length: usize, word: u32, up: bool)
    requires { Relinks up length word links.old }
    ensures { links.new ≡ relinked up length word links.old }
{
    if !page_table::leads_on(length, 0, word) {
        return;
    }
    let table = page_table::number_of(word);
    links[table] = step(links[table], up);
}

// Adds or takes away the links of all words of a directory.
fn shift_directory(words: &[u32], links: &mut [u32], directory: usize, up: bool)
    requires { (512 * directory + 512 ≤ length words.now) × RelinksAll up words.now directory links.old }
    ensures { links.new ≡ relinked_first up words.now directory 512 links.old }
{
    for word in crate::directory(words, directory) {
        shift(links, words.len(), *word, up);
    }
}

// Adds or takes away the links of the directory that a root's word leads on to, unless another root reaches that too.
pub(crate) fn shift_root(words: &[u32], links: &mut [u32], root: u32, word: u32, up: bool)
    requires { (tables_fit words.now ≡ true) × (links.old ≡ root_links (not up) words.now root word) }
    ensures { links.new ≡ root_links up words.now root word }
{
    if !page_table::leads_on(words.len(), 1, word) {
        return;
    }
    let directory = page_table::number_of(word);
    if reached_beside(words, root, directory as u32) {
        return;
    }
    shift_directory(words, links, directory, up);
}
