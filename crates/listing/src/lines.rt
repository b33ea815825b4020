// The lines of a tree, one by one.
ghost use Rattle.std.specs.Prelude.{◌≡◌};
ghost use Rattle.listing.specs.Walks.{texts};

use crate::following::following;
use crate::line::{Line, line_of};
use paths::Path;
use std::marker::Model;
use trees::asked::entry_at;
use trees::tree::Tree;

// Seen as the list of the lines that are left.
#[derive(Drop)]
pub(crate) struct Lines<'a, T: Tree> {
    tree: &'a T,
    // The path whose line comes next.
    at: Option<Path>,
}

impl<'a, T: Tree> Model for Lines<'a, T> {
    ghost use Rattle.std.specs.Prelude.{ℕ, List};
    ghost use Rattle.listing.specs.Walks.{left};

    ghost Value = { List (List ℕ) };

    ghost view = { λ l. left (T.Tree.entries l.tree.now) l.at };
}

impl<'a, T: Tree> Lines<'a, T> {
    // All lines. The first is the root's, unless the tree is empty.
    pub(crate) fn of(tree: &'a T) -> Lines<'a, T>
        ensures { result ≡ texts (T.Tree.entries tree.now).rows }
    {
        let root = Path::root();
        Lines {
            tree,
            at: entry_at(tree, &root).map(|_| root),
        }
    }
}

impl<'a, T: Tree> Iterator for Lines<'a, T> {
    ghost use Rattle.std.specs.Iterator.{YieldsFirstBy, item_count};

    type Item = Line;

    ghost next_gives = { YieldsFirstBy (λ line. line.bytes) (λ rest. rest) };

    ghost remaining = { item_count (λ rest. rest) };

    fn next(&mut self) -> Option<Line> {
        let path = self.at?;
        let entry = entry_at(self.tree, &path)?;
        self.at = following(self.tree, &path);
        Some(line_of(&path, entry))
    }
}
