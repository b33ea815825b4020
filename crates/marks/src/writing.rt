// The mark that an edit writes, over the mark and the entry that are there.
ghost use Rattle.std.specs.Prelude.{◌≡◌};
ghost use Rattle.marks.specs.Edits.{made_dir, new_mode, new_mark};

use crate::mark::Mark;
use edits::action::Action;
use trees::entry::{DirMeta, Entry, FileMeta};

impl Mark {
    // The mark of the same kind with another mode; a whiteout has none.
    fn with_mode(self, mode: u16) -> Option<Mark>
        ensures { result ≡ new_mode mode (Some self) None }
    {
        match self {
            Mark::Whiteout => None,
            Mark::File(file) => Some(Mark::File(FileMeta { mode, ..file })),
            Mark::Dir(_) => Some(Mark::Dir(DirMeta { mode })),
            Mark::Opaque(_) => Some(Mark::Opaque(DirMeta { mode })),
        }
    }
}

// A directory over a whiteout is opaque: what lay below stays hidden.
fn made_dir(mode: u16, mark: Option<Mark>) -> Mark
    ensures { result ≡ made_dir mode mark }
{
    match mark {
        Some(Mark::Whiteout) => Mark::Opaque(DirMeta { mode }),
        _ => Mark::Dir(DirMeta { mode }),
    }
}

// The mark that an edit writes at its path.
pub fn mark_after(action: Action, mark: Option<Mark>, entry: Option<Entry>) -> Option<Mark>
    ensures { result ≡ new_mark action mark entry }
{
    match action {
        Action::Put(Entry::File(file)) => Some(Mark::File(file)),
        Action::Mkdir(mode) => Some(made_dir(mode, mark)),
        // The mark keeps its kind; without one it is that of the entry.
        Action::Chmod(mode) => mark.or(entry.map(Mark::from))?.with_mode(mode),
        Action::Put(Entry::Dir(_)) | Action::Remove => None,
    }
}
