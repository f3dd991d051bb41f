// Opening a file.
use std::fs::Files;
use std::{fs, str};

// Opens a file for reading, where it can be opened. A name that is no UTF-8 text is refused.
pub(crate) fn open<F: Files>(files: &F, path: &[u8]) -> Option<F::File> {
    let name = str::from_utf8(path).ok()?;
    fs::open(files, name).ok()
}
