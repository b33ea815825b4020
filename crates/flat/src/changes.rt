// What changes a flat tree.
ghost use Rattle.std.specs.Prelude.{◌≡◌, ◌≤◌, true, false, Some, None};
ghost use Rattle.paths.specs.Paths.{names};
ghost use Rattle.rows.specs.Builds.{set_at};
ghost use Rattle.rows.specs.Tables.{listed};
ghost use Rattle.trees.specs.Entries.{is_tree};
ghost use Rattle.edits.specs.Edits.{has_child, refused_at, edited};
ghost use Rattle.flat.specs.Rooms.{room_of, need_at};
ghost use Rattle.std.proofs.Common.{arith};

use crate::{Flat, ROWS};
use edits::action::Action;
use edits::checks::{check, entry_after};
use edits::editable::Editable;
use paths::Path;
use trees::entry::Entry;
use trees::fault::Fault;
use trees::store::Store;

impl Flat {
    // One row, where there is none yet.
    fn need_at(&self, path: &Path) -> usize
        ensures { result ≡ need_at (listed self.now.rows) (names path.now) }
    {
        usize::from(self.rows.find(path).is_none())
    }

    // Puts an entry at a path, in place of what is there.
    #[tactic(auto, using(crate::proofs::Steps::finds_room))]
    fn set(&mut self, path: &Path, entry: Entry)
        requires grows { is_tree (set_at (listed self.old.rows) (names path.now) (Some entry)) ≡ true }
        requires fits { need_at (listed self.old.rows) (names path.now) ≤ room_of (listed self.old.rows) }
        ensures { listed self.new.rows ≡ set_at (listed self.old.rows) (names path.now) (Some entry) }
    {
        self.rows.set(path, entry);
    }

    // Takes out the entry at a path with nothing below it.
    #[tactic(auto, using(crate::proofs::Steps::taken))]
    fn take_out(&mut self, path: &Path)
        requires grows { is_tree (set_at (listed self.old.rows) (names path.now) None) ≡ true }
        requires bare { has_child (listed self.old.rows) (names path.now) ≡ false }
        ensures { listed self.new.rows ≡ set_at (listed self.old.rows) (names path.now) None }
    {
        self.rows.remove_under(path);
    }

    // Makes a change that the checks have granted.
    #[tactic(auto, using(crate::proofs::Steps::applying))]
    fn apply(&mut self, path: &Path, action: Action)
        requires { refused_at (listed self.old.rows) (room_of (listed self.old.rows)) (need_at (listed self.old.rows) (names path.now)) (names path.now) action ≡ None }
        ensures { listed self.new.rows ≡ edited (listed self.old.rows) (names path.now) action }
    {
        match entry_after(action, self.entry(path)) {
            Some(entry) => self.set(path, entry),
            None => self.take_out(path),
        }
    }
}

impl Editable for Flat {
    ghost spare = { λ t. room_of (listed t.rows) };

    ghost needs = { λ t p. need_at (listed t.rows) p };

    ghost few = { λ t p. Prim.grind arith };

    // How many more rows there may be.
    fn room(&self) -> usize {
        ROWS - self.rows.as_rows().len()
    }

    fn need(&self, path: &[u8]) -> Result<usize, Fault> {
        let path = Path::parse(path)?;
        Ok(self.need_at(&path))
    }

    fn edit(&mut self, path: &[u8], action: Action) -> Result<(), Fault> {
        let path = Path::parse(path)?;
        check(self, &path, action, self.room(), self.need_at(&path))?;
        self.apply(&path, action);
        Ok(())
    }
}
