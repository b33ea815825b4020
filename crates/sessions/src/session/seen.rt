// What is seen through a session at a good path.
ghost use Rattle.std.specs.Prelude.{◌≡◌, not, ◌||◌, if◌then◌else◌, Some, None};
ghost use Rattle.std.specs.Option.{option_map, option_copied};
ghost use Rattle.paths.specs.Paths.{names};
ghost use Rattle.rows.specs.Maps.{at, child_path};
ghost use Rattle.marks.specs.Marks.{cut, stops};
ghost use Rattle.sessions.specs.Sessions.{marks_in, seen_rows, seen_of};

use crate::session::Session;
use marks::mark::Mark;
use paths::Path;
use trees::asked;
use trees::entry::Entry;
use trees::store::Store;
use trees::tree::Tree;

impl<T: Tree> Session<T> {
    // Whether the children that the tree below has at a path are seen.
    fn shows_below(&self, path: &Path) -> bool
        ensures { result ≡ not (cut (at (marks_in self.now)) (names path.now) || stops (at (marks_in self.now) (names path.now))) }
    {
        !(self.layer.cuts(path) || self.layer.mark(path).is_some_and(Mark::is_cut))
    }

    // The child that is seen with the least name above `after`: a row's, or one of the tree below,
    // which is given where its children are seen. A whiteout is passed over by asking again behind
    // its name.
    fn seen_child(&self, path: &Path, after: &[u8], lower: Option<&T>) -> Option<Path>
        requires { option_copied lower ≡ (if not (cut (at (marks_in self.now)) (names path.now) || stops (at (marks_in self.now) (names path.now))) then Some self.now.lower else None) }
        ensures { option_map names result ≡ child_path (seen_rows T.Tree.entries self.now) (names path.now) after.now }
    {
        let low = lower.and_then(|lower| asked::child_after(lower, path, after));
        let Some(row) = self.layer.child_after(path, after) else {
            return low;
        };
        if low.is_some_and(|low| low < row) {
            return low;
        }
        if self.layer.mark(&row) == Some(Mark::Whiteout) {
            return self.seen_child(path, row.last_name(), lower);
        }
        Some(row)
    }
}

impl<T: Tree> Store for Session<T> {
    ghost stored = { λ s. seen_of T.Tree.entries s };

    // The mark decides; without one the tree below does, unless the layer cuts the path off.
    fn entry(&self, path: &Path) -> Option<Entry> {
        match self.layer.mark(path) {
            Some(mark) => mark.entry(),
            None if self.layer.cuts(path) => None,
            None => asked::entry_at(&self.lower, path),
        }
    }

    fn child_after(&self, path: &Path, after: &[u8]) -> Option<Path> {
        let lower = self.shows_below(path).then_some(&self.lower);
        self.seen_child(path, after, lower)
    }
}
