// The path that comes next in a tree.
ghost use Rattle.std.specs.Prelude.{◌≡◌, true, []};
ghost use Rattle.std.specs.Option.{option_map};
ghost use Rattle.paths.specs.Paths.{names};
ghost use Rattle.rows.specs.Maps.{has, path_after};

use paths::Path;
use trees::asked::child_after;
use trees::tree::Tree;

// The first path after a present one.
#[tactic(auto, using(crate::proofs::Steps::onward))]
pub(crate) fn following<T: Tree>(tree: &T, path: &Path) -> Option<Path>
    requires { has (T.Tree.entries tree.now).rows (names path.now) ≡ true }
    ensures { option_map names result ≡ path_after (T.Tree.entries tree.now).rows (names path.now) }
{
    if let Some(child) = child_after(tree, path, &[]) {
        return Some(child);
    }
    // A loop: by its clauses a chain from `iter::successors` has no end, and `find_map` asks for one.
    let mut here = *path;
    while let Some(parent) = here.parent() {
        if let Some(next) = child_after(tree, &parent, here.last_name()) {
            return Some(next);
        }
        here = parent;
    }
    None
}
