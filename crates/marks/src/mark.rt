// What a layer says of a path.
ghost use Rattle.std.specs.Prelude.{◌≡◌, Some};
ghost use Rattle.marks.specs.Marks.{entry_of, mark_of, stops, is_opaque, marks_dir};
ghost use Rattle.marks.specs.Squash.{over};

use trees::entry::{DirMeta, Entry, FileMeta};

#[derive(Clone, Copy, PartialEq, Eq)]
pub enum Mark {
    // Nothing is there, whatever lies below.
    Whiteout,
    File(FileMeta),
    // A directory, through which what lies below is seen.
    Dir(DirMeta),
    // A directory, through which nothing below is seen.
    Opaque(DirMeta),
}

impl Mark {
    // The entry that the mark sets.
    pub fn entry(self) -> Option<Entry>
        ensures { result ≡ entry_of self }
    {
        match self {
            Mark::Whiteout => None,
            Mark::File(file) => Some(Entry::File(file)),
            Mark::Dir(dir) | Mark::Opaque(dir) => Some(Entry::Dir(dir)),
        }
    }

    // Whether the mark is of a directory, opaque or not.
    pub fn is_dir(self) -> bool
        ensures { result ≡ marks_dir (Some self) }
    {
        matches!(self, Mark::Dir(_) | Mark::Opaque(_))
    }

    // Whether nothing below is seen under the path.
    pub fn is_cut(self) -> bool
        ensures { result ≡ stops (Some self) }
    {
        !matches!(self, Mark::Dir(_))
    }

    pub fn is_opaque(self) -> bool
        ensures { result ≡ is_opaque (Some self) }
    {
        matches!(self, Mark::Opaque(_))
    }

    // This mark over one of a lower layer, as a squash has it. What the lower mark hides stays hidden.
    pub fn over(self, lower: Option<Mark>) -> Mark
        ensures { over (Some self) lower ≡ Some result }
    {
        match (self, lower) {
            (Mark::Whiteout | Mark::File(_) | Mark::Opaque(_), _) => self,
            (Mark::Dir(dir), Some(lower)) if lower.is_cut() => Mark::Opaque(dir),
            (Mark::Dir(_), None | Some(_)) => self,
        }
    }
}

// The mark that sets an entry, and hides nothing below it.
impl From<Entry> for Mark {
    ghost from_gives = { λ entry mark. mark ≡ mark_of entry };

    fn from(entry: Entry) -> Mark {
        match entry {
            Entry::File(file) => Mark::File(file),
            Entry::Dir(dir) => Mark::Dir(dir),
        }
    }
}
