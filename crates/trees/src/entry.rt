// What stands at a path. The values may be out of range until a tree has judged them.
ghost use Rattle.std.specs.Prelude.{◌≡◌, Some};

// Modes have four octal digits.
pub const MOST_MODE: u16 = 0o7777;

#[derive(Clone, Copy, PartialEq, Eq)]
pub struct FileMeta {
    pub mode: u16,
    pub size: u64,
    // The number under which the content is kept.
    pub content: u64,
}

#[derive(Clone, Copy, PartialEq, Eq)]
pub struct DirMeta {
    pub mode: u16,
}

#[derive(Clone, Copy, PartialEq, Eq)]
pub enum Entry {
    File(FileMeta),
    Dir(DirMeta),
}

impl Entry {
    ghost use Rattle.trees.specs.Entries.{is_dir, is_file, in_range, with_mode};

    pub fn is_dir(&self) -> bool
        ensures { result ≡ is_dir (Some self.now) }
    {
        matches!(self, Entry::Dir(_))
    }

    pub fn is_file(&self) -> bool
        ensures { result ≡ is_file (Some self.now) }
    {
        matches!(self, Entry::File(_))
    }

    // Whether the mode is at most 7777 in octal, and a file's size at most 2^40.
    pub fn is_in_range(self) -> bool
        ensures { result ≡ in_range self }
    {
        match self {
            Entry::File(file) => file.mode <= MOST_MODE && file.size <= 1 << 40,
            Entry::Dir(dir) => dir.mode <= MOST_MODE,
        }
    }

    // The same with another mode.
    pub fn with_mode(self, mode: u16) -> Entry
        ensures { result ≡ with_mode mode self }
    {
        match self {
            Entry::File(file) => Entry::File(FileMeta { mode, ..file }),
            Entry::Dir(_) => Entry::Dir(DirMeta { mode }),
        }
    }
}
