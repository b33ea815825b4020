// Whether a row may follow the rows before it.
ghost use Rattle.std.specs.Prelude.{◌≡◌, true, Ok, Err, MatchResult};
ghost use Rattle.paths.specs.Paths.{names};
ghost use Rattle.rows.specs.Maps.{rises};
ghost use Rattle.rows.specs.Rows.{row_of, rows_of};
ghost use Rattle.trees.specs.Entries.{is_tree};
ghost use Rattle.manifests.specs.Lasts.{parent_dir};
ghost use Rattle.manifests.specs.Manifests.{under_dir, placed};
ghost use Rattle.manifests.specs.Readers.{so_far};

use crate::reader::Reader;
use paths::Path;
use rows::order::rises;
use rows::row::Row;
use trees::entry::Entry;
use words::fault::Cause;

// Whether the parent of a path that comes after a row is a directory. Every prefix of the row's
// path is one, but for that path itself, which may be a file; no other path can be the parent.
fn is_parent_dir(row: &Row<Entry>, parent: &Path) -> bool
    ensures { result ≡ parent_dir (row_of row.now) (names parent.now) }
{
    parent.is_prefix_of(&row.path) && (row.value.is_dir() || *parent != row.path)
}

// Whether the root is a directory, or the parent of another path, which comes after the rows, is one.
fn is_under_dir(seen: &[Row<Entry>], path: &Path, entry: Entry) -> bool
    requires built { is_tree (rows_of seen.now) ≡ true }
    requires after { rises (rows_of seen.now) (names path.now) ≡ true }
    ensures { result ≡ under_dir (rows_of seen.now) (names path.now) entry }
{
    let Some(parent) = path.parent() else {
        return entry.is_dir();
    };
    seen.last().is_some_and(|last| is_parent_dir(last, &parent))
}

impl Reader {
    // Whether a row may stand behind the rows so far.
    pub(super) fn admit(&self, row: &Row<Entry>) -> Result<(), Cause>
        ensures { MatchResult result (λ _. placed self.now.limit (so_far self.now) (names row.now.path) row.now.value ≡ Ok (row_of row.now)) (λ e. placed self.now.limit (so_far self.now) (names row.now.path) row.now.value ≡ Err e) }
    {
        let seen = self.rows();
        if !rises(seen, &row.path) {
            return Err(Cause::Order);
        }
        if !is_under_dir(seen, &row.path, row.value) {
            return Err(Cause::Parent);
        }
        if seen.len() >= self.limit {
            return Err(Cause::TooMany);
        }
        Ok(())
    }
}
