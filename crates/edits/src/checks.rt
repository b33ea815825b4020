// The checks of an edit, in their order, and the entry that it leaves.
ghost use Rattle.std.specs.Prelude.{◌≡◌, nat_lt};
ghost use Rattle.paths.specs.Paths.{names};
ghost use Rattle.trees.specs.declared.fault.Fault.TheVariants.{NoRoom};
ghost use Rattle.edits.specs.Edits.{refuse_if, value_fault, root_fault, parent_fault, absent_fault, place_fault, refused_at, answered, new_entry};

use crate::action::Action;
use paths::Path;
use trees::entry::{DirMeta, Entry, MOST_MODE};
use trees::fault::Fault;
use trees::store::{Store, lost, present};

fn check_values(action: Action) -> Result<(), Fault>
    ensures { result ≡ answered (value_fault action) }
{
    let fine = match action {
        Action::Put(entry) => entry.is_file() && entry.is_in_range(),
        Action::Mkdir(mode) | Action::Chmod(mode) => mode <= MOST_MODE,
        Action::Remove => true,
    };
    if !fine {
        return Err(Fault::OutOfRange);
    }
    Ok(())
}

fn check_root(path: &Path, action: Action) -> Result<(), Fault>
    ensures { result ≡ answered (root_fault (names path.now) action) }
{
    if path.depth() == 0 && !matches!(action, Action::Chmod(_)) {
        return Err(Fault::Root);
    }
    Ok(())
}

// Where an edit is made.
#[derive(Drop)]
struct Target<'a, S> {
    store: &'a S,
    path: &'a Path,
}

impl<'a, S: Store> Target<'a, S> {
    fn check_parent(&self) -> Result<(), Fault>
        ensures { result ≡ answered (parent_fault (S.Store.stored self.now.store.now).rows (names self.now.path.now)) }
    {
        let up = self.path.parent().unwrap_or(*self.path);
        if !self.store.entry(&up).is_some_and(|e| e.is_dir()) {
            return Err(lost(self.store, &up));
        }
        Ok(())
    }

    fn check_present(&self) -> Result<(), Fault>
        ensures { result ≡ answered (absent_fault (S.Store.stored self.now.store.now).rows (names self.now.path.now)) }
    {
        if self.store.entry(self.path).is_none() {
            return Err(lost(self.store, self.path));
        }
        Ok(())
    }

    // First what is missing, then what is in the way.
    fn check(&self, action: Action) -> Result<(), Fault>
        ensures { result ≡ answered (place_fault (S.Store.stored self.now.store.now).rows (names self.now.path.now) action) }
    {
        match action {
            Action::Put(_) => {
                self.check_parent()?;
                if self.store.entry(self.path).is_some_and(|e| e.is_dir()) {
                    return Err(Fault::IsDirectory(present(self.store, self.path)));
                }
            }
            Action::Mkdir(_) => {
                self.check_parent()?;
                if self.store.entry(self.path).is_some() {
                    return Err(Fault::Exists(present(self.store, self.path)));
                }
            }
            Action::Chmod(_) => self.check_present()?,
            Action::Remove => {
                self.check_present()?;
                if self.store.child_after(self.path, &[]).is_some() {
                    return Err(Fault::NotEmpty(present(self.store, self.path)));
                }
            }
        }
        Ok(())
    }
}

fn check_room(room: usize, need: usize) -> Result<(), Fault>
    ensures { result ≡ answered (refuse_if (nat_lt room need) (NoRoom need)) }
{
    if room < need {
        return Err(Fault::NoRoom(need));
    }
    Ok(())
}

// The checks of an edit at a good path, in their order: its values, the root, what is there, the room. Five parameters, and
// no struct of them: each of the two callers has them singly.
pub fn check<S: Store>(
    store: &S,
    path: &Path,
    action: Action,
    room: usize,
    need: usize,
) -> Result<(), Fault>
    ensures { result ≡ answered (refused_at (S.Store.stored store.now).rows room need (names path.now) action) }
{
    check_values(action)?;
    check_root(path, action)?;
    Target { store, path }.check(action)?;
    check_room(room, need)
}

// What stands at the path after an edit, in place of what was found there.
pub fn entry_after(action: Action, found: Option<Entry>) -> Option<Entry>
    ensures { result ≡ new_entry action found }
{
    match action {
        Action::Put(entry) => Some(entry),
        Action::Mkdir(mode) => Some(Entry::Dir(DirMeta { mode })),
        Action::Chmod(mode) => found.map(|entry| entry.with_mode(mode)),
        Action::Remove => None,
    }
}
