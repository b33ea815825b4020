// Where looking in path order stops.
ghost use Rattle.std.specs.Prelude.{◌≡◌, [], ◌∷◌, ◌++◌};
ghost use Rattle.paths.specs.Paths.{names};
ghost use Rattle.rows.specs.Maps.{before};
ghost use Rattle.rows.specs.Positions.{behind, place_of};

use paths::Path;

// At `path`; or, where `after` is given, behind every child of `path` whose name is at most `after`.
#[derive(Clone, Copy)]
pub(crate) struct Position<'a, 'b> {
    pub path: &'a Path,
    pub after: Option<&'b [u8]>,
}

impl<'a, 'b> Position<'a, 'b> {
    pub(crate) fn at(path: &'a Path) -> Position<'a, 'b>
        ensures { place_of result ≡ names path.now }
    {
        Position { path, after: None }
    }

    // Behind every child of `path` whose name is at most `after`.
    pub(crate) fn child_after(path: &'a Path, after: &'b [u8]) -> Position<'a, 'b>
        ensures { place_of result ≡ names path.now ++ behind after.now ∷ [] }
    {
        Position {
            path,
            after: Some(after),
        }
    }

    // Whether a path comes before this position. Inlined: each search asks this of every row that it tries.
    #[inline(always)]
    pub(crate) fn follows(self, path: &Path) -> bool
        ensures { result ≡ before (names path.now) (place_of self.entry) }
    {
        match self.after {
            None => path < self.path,
            Some(after) => before_child(path, self.path, after),
        }
    }
}

// Whether a path comes before every child of `parent` whose name is greater than `after`.
fn before_child(path: &Path, parent: &Path, after: &[u8]) -> bool
    ensures { result ≡ before (names path.now) (names parent.now ++ behind after.now ∷ []) }
{
    if !parent.is_prefix_of(path) {
        return path < parent;
    }
    let depth = parent.depth();
    path.depth() == depth || path.prefix(depth + 1).last_name() <= after
}
