// Edits of a session: checked by what is seen, and made on the marks.
ghost use Rattle.std.specs.Prelude.{◌≡◌, ◌+◌, ◌≤◌, true, false, length, is_ok};
ghost use Rattle.paths.specs.Paths.{names};
ghost use Rattle.edits.specs.Edits.{refused_at, answered, Outcome};
ghost use Rattle.marks.specs.Marks.{layered};
ghost use Rattle.marks.specs.Laws.{Granted};
ghost use Rattle.edits.specs.declared.action.Action.TheVariants.{Put, Mkdir, Chmod, Remove};
ghost use Rattle.marks.specs.Edits.{written, shows_again, removed, marked, lacks, ProperDirs};
ghost use Rattle.sessions.specs.Sessions.{room_of, refusal_over, marks_after, marks_in, rows_below, seen_rows};
ghost use Rattle.marks.proofs.Noted.{lacks_most};

use crate::session::Session;
use edits::action::Action;
use edits::checks;
use edits::editable::Editable;
use layers::layer::ROWS;
use layers::writing::put_rows;
use marks::mark::Mark;
use marks::writing::mark_after;
use paths::Path;
use trees::asked;
use trees::entry::Entry;
use trees::fault::Fault;
use trees::store::Store;
use trees::tree::Tree;

impl<T: Tree> Session<T> {
    // Writes a mark, after the directories above it that have none. This and the other four that change a session
    // say each that the tree below stays: over the layer alone they could not look at it.
    fn write(&mut self, path: &Path, mark: Mark)
        requires dirs { ProperDirs (seen_rows T.Tree.entries self.old) (names path.now) }
        requires room { length (marks_in self.old) + lacks (marks_in self.old) (names path.now) ≤ 192 }
        requires grows { layered (written mark (marks_in self.old) (rows_below T.Tree.entries self.old) (names path.now)) ≡ true }
        ensures marks { marks_in self.new ≡ written mark (marks_in self.old) (rows_below T.Tree.entries self.old) (names path.now) }
        ensures lower { self.new.lower ≡ self.old.lower }
    {
        let new = self.fresh_rows(path, mark);
        put_rows(&mut self.layer.rows, path, mark, new.as_rows());
    }

    // Drops the rows at the path and below it. Where the tree below would be seen again, a whiteout
    // hides it.
    fn take_out(&mut self, path: &Path)
        requires { Granted (marks_in self.old) (rows_below T.Tree.entries self.old) (room_of (marks_in self.old)) (names path.now) Remove }
        ensures marks { marks_in self.new ≡ removed (marks_in self.old) (rows_below T.Tree.entries self.old) (names path.now) }
        ensures lower { self.new.lower ≡ self.old.lower }
    {
        let shows = self.shows_again(path);
        self.layer.rows.remove_under(path);
        if shows {
            self.write(path, Mark::Whiteout);
        }
    }

    // Whether the tree below has the path, and no directory above it is opaque.
    fn shows_again(&self, path: &Path) -> bool
        ensures { result ≡ shows_again (marks_in self.now) (rows_below T.Tree.entries self.now) (names path.now) }
    {
        asked::entry_at(&self.lower, path).is_some() && !self.layer.hides(path)
    }

    // Makes an edit that is granted.
    fn apply(&mut self, path: &Path, action: Action)
        requires { Granted (marks_in self.old) (rows_below T.Tree.entries self.old) (room_of (marks_in self.old)) (names path.now) action }
        ensures marks { marks_in self.new ≡ marked (marks_in self.old) (rows_below T.Tree.entries self.old) (names path.now) action }
        ensures lower { self.new.lower ≡ self.old.lower }
    {
        match mark_after(action, self.layer.mark(path), self.entry(path)) {
            Some(mark) => self.write(path, mark),
            None => self.take_out(path),
        }
    }

    // The checks of an edit at a good path, by what is seen.
    fn check(&self, path: &Path, action: Action) -> Result<(), Fault>
        ensures { result ≡ answered (refused_at (seen_rows T.Tree.entries self.now) (room_of (marks_in self.now)) (lacks (marks_in self.now) (names path.now)) (names path.now) action) }
    {
        checks::check(self, path, action, self.room(), self.layer.lacking(path))
    }

    // Makes one change at a path, or refuses and leaves all as it was: the marks afterwards.
    fn edit_marks(&mut self, path: &[u8], action: Action) -> Result<(), Fault>
        ensures answer { result ≡ answered (refusal_over (marks_in self.old) (rows_below T.Tree.entries self.old) path.now action) }
        ensures marks { marks_in self.new ≡ marks_after (marks_in self.old) (rows_below T.Tree.entries self.old) path.now action }
        ensures lower { self.new.lower ≡ self.old.lower }
        ensures refused { is_ok result ≡ false → self.new ≡ self.old }
    {
        let path = Path::parse(path)?;
        self.check(&path, action)?;
        self.apply(&path, action);
        Ok(())
    }
}

impl<T: Tree> Editable for Session<T> {
    ghost spare = { λ s. room_of (marks_in s) };

    ghost needs = { λ s p. lacks (marks_in s) p };

    ghost few = { λ t p. lacks_most (marks_in t) p };

    fn room(&self) -> usize {
        ROWS - self.layer.count()
    }

    fn need(&self, path: &[u8]) -> Result<usize, Fault> {
        let path = Path::parse(path)?;
        Ok(self.layer.lacking(&path))
    }

    fn edit(&mut self, path: &[u8], action: Action) -> Result<(), Fault>
        ensures outcome { Outcome (seen_rows T.Tree.entries self.old) (seen_rows T.Tree.entries self.new) (room_of (marks_in self.old)) (room_of (marks_in self.new)) (lacks (marks_in self.old)) (lacks (marks_in self.new)) path.now action result }
        ensures marks { marks_in self.new ≡ marks_after (marks_in self.old) (rows_below T.Tree.entries self.old) path.now action }
        ensures lower { self.new.lower ≡ self.old.lower }
        ensures refused { is_ok result ≡ false → self.new ≡ self.old }
    {
        self.edit_marks(path, action)
    }

    // The four by name, which say of the marks what `edit` says: the trait knows of none.
    fn put(&mut self, path: &[u8], entry: Entry) -> Result<(), Fault>
        ensures outcome { Outcome (seen_rows T.Tree.entries self.old) (seen_rows T.Tree.entries self.new) (room_of (marks_in self.old)) (room_of (marks_in self.new)) (lacks (marks_in self.old)) (lacks (marks_in self.new)) path.now (Put entry) result }
        ensures marks { marks_in self.new ≡ marks_after (marks_in self.old) (rows_below T.Tree.entries self.old) path.now (Put entry) }
        ensures lower { self.new.lower ≡ self.old.lower }
        ensures refused { is_ok result ≡ false → self.new ≡ self.old }
    {
        self.edit(path, Action::Put(entry))
    }

    fn mkdir(&mut self, path: &[u8], mode: u16) -> Result<(), Fault>
        ensures outcome { Outcome (seen_rows T.Tree.entries self.old) (seen_rows T.Tree.entries self.new) (room_of (marks_in self.old)) (room_of (marks_in self.new)) (lacks (marks_in self.old)) (lacks (marks_in self.new)) path.now (Mkdir mode) result }
        ensures marks { marks_in self.new ≡ marks_after (marks_in self.old) (rows_below T.Tree.entries self.old) path.now (Mkdir mode) }
        ensures lower { self.new.lower ≡ self.old.lower }
        ensures refused { is_ok result ≡ false → self.new ≡ self.old }
    {
        self.edit(path, Action::Mkdir(mode))
    }

    fn chmod(&mut self, path: &[u8], mode: u16) -> Result<(), Fault>
        ensures outcome { Outcome (seen_rows T.Tree.entries self.old) (seen_rows T.Tree.entries self.new) (room_of (marks_in self.old)) (room_of (marks_in self.new)) (lacks (marks_in self.old)) (lacks (marks_in self.new)) path.now (Chmod mode) result }
        ensures marks { marks_in self.new ≡ marks_after (marks_in self.old) (rows_below T.Tree.entries self.old) path.now (Chmod mode) }
        ensures lower { self.new.lower ≡ self.old.lower }
        ensures refused { is_ok result ≡ false → self.new ≡ self.old }
    {
        self.edit(path, Action::Chmod(mode))
    }

    fn remove(&mut self, path: &[u8]) -> Result<(), Fault>
        ensures outcome { Outcome (seen_rows T.Tree.entries self.old) (seen_rows T.Tree.entries self.new) (room_of (marks_in self.old)) (room_of (marks_in self.new)) (lacks (marks_in self.old)) (lacks (marks_in self.new)) path.now (Remove) result }
        ensures marks { marks_in self.new ≡ marks_after (marks_in self.old) (rows_below T.Tree.entries self.old) path.now (Remove) }
        ensures lower { self.new.lower ≡ self.old.lower }
        ensures refused { is_ok result ≡ false → self.new ≡ self.old }
    {
        self.edit(path, Action::Remove)
    }
}
