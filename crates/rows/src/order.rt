// Whether rows stand in path order.
ghost use Rattle.std.specs.Prelude.{◌≡◌};
ghost use Rattle.paths.specs.Paths.{names};
ghost use Rattle.rows.specs.Maps.{ascending, rises};
ghost use Rattle.rows.specs.Rows.{rows_of};

use crate::row::Row;
use paths::Path;

// Whether rows rise strictly.
pub(crate) fn rising<V>(rows: &[Row<V>]) -> bool
    ensures { result ≡ ascending (rows_of rows.now) }
{
    rows.is_sorted_by(|a, b| a.path < b.path)
}

// Whether a path comes after rows that rise.
pub fn rises<V>(rows: &[Row<V>], path: &Path) -> bool
    ensures { result ≡ rises (rows_of rows.now) (names path.now) }
{
    rows.last().is_none_or(|last| last.path < *path)
}
