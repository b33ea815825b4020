// Whether a row may follow the rows before it.
ghost use Rattle.std.specs.Prelude.{◌≡◌, Ok, Err, MatchResult};
ghost use Rattle.paths.specs.Paths.{names};
ghost use Rattle.paths.specs.Steps.{and_then};
ghost use Rattle.rows.specs.Rows.{row_of};
ghost use Rattle.layers.specs.Layers.{marks_of};
ghost use Rattle.layer_fields.specs.Texts.{row_path};
ghost use Rattle.layer_files.specs.Reads.{fitting, under_dir, placed};

use layer_fields::fault::Cause;
use layer_fields::texts::row_path;
use layers::layer::{Layer, ROWS};
use marks::mark::Mark;
use paths::Path;
use rows::order::rises;
use rows::row::Row;
use trees::entry::Entry;

// Whether the entry is in range, and the root is a directory.
fn is_fitting(path: &Path, mark: Mark) -> bool
    ensures { result ≡ fitting (names path.now) mark }
{
    mark.entry().is_none_or(Entry::is_in_range) && (path.depth() > 0 || mark.is_dir())
}

// Whether a row is the directory that a path lies in; the root needs none.
fn is_under_dir(seen: &Layer, path: &Path) -> bool
    ensures { result ≡ under_dir (marks_of seen.now) (names path.now) }
{
    let Some(parent) = path.parent() else {
        return true;
    };
    seen.mark(&parent).is_some_and(Mark::is_dir)
}

// Whether a row may stand behind the rows seen.
fn admit(seen: &Layer, path: &Path, mark: Mark) -> Result<(), Cause>
    ensures { MatchResult result (λ _. placed (marks_of seen.now) (names path.now) mark ≡ Ok (names path.now, mark)) (λ c. placed (marks_of seen.now) (names path.now) mark ≡ Err c) }
{
    if !is_fitting(path, mark) {
        return Err(Cause::Value);
    }
    if !rises(seen.rows.as_rows(), path) {
        return Err(Cause::Order);
    }
    if !is_under_dir(seen, path) {
        return Err(Cause::Parent);
    }
    if seen.count() >= ROWS {
        return Err(Cause::TooMany);
    }
    Ok(())
}

// The row of a text and a mark, behind the rows seen.
pub(super) fn place(seen: &Layer, text: &[u8], mark: Mark) -> Result<Row<Mark>, Cause>
    ensures { MatchResult result (λ r. and_then (row_path text.now) (λ p. placed (marks_of seen.now) p mark) ≡ Ok (row_of r)) (λ c. and_then (row_path text.now) (λ p. placed (marks_of seen.now) p mark) ≡ Err c) }
{
    let path = row_path(text)?;
    admit(seen, &path, mark)?;
    Ok(Row { path, value: mark })
}
