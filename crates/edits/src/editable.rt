// What an editable tree does.
ghost use Rattle.std.specs.Prelude.{◌≡◌, ℕ, ◌+◌, ◌≤◌, length};
ghost use Rattle.rows.specs.Maps.{Names};
ghost use Rattle.edits.specs.declared.action.Action.TheVariants.{Put, Mkdir, Chmod, Remove};
ghost use Rattle.edits.specs.Edits.{OutcomeOf, need_of};

use crate::action::Action;
use trees::entry::Entry;
use trees::fault::Fault;
use trees::tree::Tree;

pub trait Editable: Tree {
    // How many rows are left, and how many an edit at a path takes at most.
    ghost spare: { Self → ℕ };

    ghost needs: { Self → Names → ℕ };

    fn room(&self) -> usize
        ensures { result ≡ spare self.now };

    fn need(&self, path: &[u8]) -> Result<usize, Fault>
        ensures { result ≡ need_of (needs self.now) path.now };

    // Makes one change at a path, or refuses and leaves all as it was.
    fn edit(&mut self, path: &[u8], action: Action) -> Result<(), Fault>
        ensures { OutcomeOf Self.Tree.entries spare needs self.old self.new path.now action result };

    // The four edits by name. One form for all is `edit`, which is there; these spare a caller the `Action`.
    // A file, new or in place of one.
    fn put(&mut self, path: &[u8], entry: Entry) -> Result<(), Fault>
        ensures { OutcomeOf Self.Tree.entries spare needs self.old self.new path.now (Put entry) result }
    {
        self.edit(path, Action::Put(entry))
    }

    fn mkdir(&mut self, path: &[u8], mode: u16) -> Result<(), Fault>
        ensures { OutcomeOf Self.Tree.entries spare needs self.old self.new path.now (Mkdir mode) result }
    {
        self.edit(path, Action::Mkdir(mode))
    }

    fn chmod(&mut self, path: &[u8], mode: u16) -> Result<(), Fault>
        ensures { OutcomeOf Self.Tree.entries spare needs self.old self.new path.now (Chmod mode) result }
    {
        self.edit(path, Action::Chmod(mode))
    }

    // Takes out a file, or a directory without a child.
    fn remove(&mut self, path: &[u8]) -> Result<(), Fault>
        ensures { OutcomeOf Self.Tree.entries spare needs self.old self.new path.now Remove result }
    {
        self.edit(path, Action::Remove)
    }

    // A need is at most the number of the path's prefixes.
    ghost few: { (t : Self) (p : Names) → needs t p ≤ length p + 1 };
}
