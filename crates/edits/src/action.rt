// What an edit does at a path.
use trees::entry::Entry;

#[derive(Clone, Copy, PartialEq, Eq)]
pub enum Action {
    // A file, new or in place of one.
    Put(Entry),
    // A new directory of that mode.
    Mkdir(u16),
    // That mode, and all else as it is.
    Chmod(u16),
    // Nothing in place of a file or of a directory without a child.
    Remove,
}
