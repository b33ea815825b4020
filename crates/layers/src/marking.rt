// What a layer says of a path.
ghost use Rattle.std.specs.Prelude.{◌≡◌, ◌≤◌, [], length};
ghost use Rattle.std.specs.Option.{option_map};
ghost use Rattle.paths.specs.Paths.{names};
ghost use Rattle.rows.specs.Maps.{at, child_path};
ghost use Rattle.marks.specs.Marks.{is_opaque, some_proper, cut};
ghost use Rattle.marks.specs.Edits.{lacks};
ghost use Rattle.layers.specs.Layers.{marks_of};

use crate::layer::Layer;
use marks::mark::Mark;
use paths::Path;
use rows::table::Table;

impl Layer {
    // A layer without rows.
    pub fn new() -> Layer
        ensures { marks_of result ≡ [] }
    {
        Layer {
            rows: Table::new(Mark::Whiteout),
        }
    }

    // How many rows there are.
    pub fn count(&self) -> usize
        ensures value { result ≡ length (marks_of self.now) }
        ensures bound { result ≤ 192 }
    {
        self.rows.as_rows().len()
    }

    // The mark at a path.
    pub fn mark(&self, path: &Path) -> Option<Mark>
        ensures { result ≡ at (marks_of self.now) (names path.now) }
    {
        self.rows.find(path).copied()
    }

    // The row of a child of `path` whose name is the least above `after`.
    pub fn child_after(&self, path: &Path, after: &[u8]) -> Option<Path>
        ensures { option_map names result ≡ child_path (marks_of self.now) (names path.now) after.now }
    {
        self.rows.sorted().child_after(path, after)
    }

    // Whether a proper prefix of the path is a whiteout, a file or opaque. One method for this and the
    // next, with the test as a closure, is no plainer: its inner closure needs clauses of its own.
    pub fn cuts(&self, path: &Path) -> bool
        ensures { result ≡ cut (at (marks_of self.now)) (names path.now) }
    {
        path.prefixes()
            .take(path.depth())
            .any(|up| self.mark(&up).is_some_and(Mark::is_cut))
    }

    // Whether a proper prefix of the path is opaque.
    pub fn hides(&self, path: &Path) -> bool
        ensures { result ≡ some_proper (λ q. is_opaque (at (marks_of self.now) q)) (names path.now) }
    {
        path.prefixes()
            .take(path.depth())
            .any(|up| self.mark(&up).is_some_and(Mark::is_opaque))
    }

    // How many prefixes of the path have no row.
    pub fn lacking(&self, path: &Path) -> usize
        ensures value { result ≡ lacks (marks_of self.now) (names path.now) }
        ensures bound { result ≤ 9 }
    {
        path.prefixes().filter(|up| self.mark(up).is_none()).count()
    }
}
