// A tree, asked by good paths.
ghost use Rattle.std.specs.Prelude.{◌≡◌};
ghost use Rattle.std.specs.Option.{option_map};
ghost use Rattle.paths.specs.Paths.{names};
ghost use Rattle.rows.specs.Maps.{at, child_path};

use crate::entry::Entry;
use crate::tree::Tree;
use paths::Path;

// The entry at a path.
pub fn entry_at<T: Tree>(tree: &T, path: &Path) -> Option<Entry>
    ensures { result ≡ at (T.Tree.entries tree.now).rows (names path.now) }
{
    tree.look(path.as_bytes()).ok()
}

// The child of a path whose name is the least above `after`.
pub fn child_after<T: Tree>(tree: &T, path: &Path, after: &[u8]) -> Option<Path>
    ensures { option_map names result ≡ child_path (T.Tree.entries tree.now).rows (names path.now) after.now }
{
    // `next` writes into its caller's buffer: no heap.
    let mut name = [0; 40];
    let n = tree.next(path.as_bytes(), after, &mut name).ok()??;
    path.child(&name[..n]).ok()
}
