// Looking among sorted rows: the two questions that are asked of them.
ghost use Rattle.std.specs.Prelude.{◌≡◌, ◌≤◌, true, false, [], length, slice_get, MatchOption};
ghost use Rattle.std.specs.Option.{option_map, option_copied};
ghost use Rattle.paths.specs.Paths.{names};
ghost use Rattle.rows.specs.Maps.{at, ascending, rooted, child_path};
ghost use Rattle.rows.specs.Rows.{rows_of};
ghost use Rattle.rows.specs.Positions.{place_of, lead, child_at, Here};

use crate::order::rising;
use crate::position::Position;
use crate::row::Row;
use crate::sorted::Sorted;
use paths::Path;

impl<'a, V> Sorted<'a, V> {
    // The rows, if they rise strictly.
    pub fn new(rows: &'a [Row<V>]) -> Option<Sorted<'a, V>>
        ensures { MatchOption result (ascending (rows_of rows.now) ≡ false) (λ s. (ascending (rows_of rows.now) ≡ true) × (s.rows.now ≡ rows.now)) }
    {
        rising(rows).then(|| Sorted::of_rising(rows))
    }

    // Rows that are known to rise.
    pub(crate) fn of_rising(rows: &'a [Row<V>]) -> Sorted<'a, V>
        requires { ascending (rows_of rows.now) ≡ true }
        ensures { result.rows.now ≡ rows.now }
    {
        Sorted { rows }
    }

    // No rows at all.
    pub fn empty() -> Sorted<'a, V>
        ensures { result.rows.now ≡ [] }
    {
        Sorted { rows: &[] }
    }

    // How many rows come before a position.
    pub(crate) fn count_before(&self, position: Position) -> usize
        ensures value { result ≡ lead (place_of position.entry) (rows_of self.now.rows.now) }
        ensures within { result ≤ length self.now.rows.now }
    {
        self.rows.partition_point(|row| position.follows(&row.path))
    }

    // The first row that does not come before a position.
    fn first_from(&self, position: Position) -> Option<&'a Row<V>>
        ensures { option_copied result ≡ slice_get self.now.rows.now (lead (place_of position.entry) (rows_of self.now.rows.now)) }
    {
        self.rows.get(self.count_before(position))
    }

    // Where the row at a path stands. `find` by it would take the row out twice.
    pub(crate) fn locate(&self, path: &Path) -> Option<usize>
        ensures { MatchOption result (at (rows_of self.now.rows.now) (names path.now) ≡ None) (λ i. Here self.now.rows.now (names path.now) i) }
    {
        let i = self.count_before(Position::at(path));
        let row = self.rows.get(i)?;
        (row.path == *path).then_some(i)
    }

    // The value at a path.
    pub fn find(&self, path: &Path) -> Option<&'a V>
        ensures { option_map (λ x. x.now) result ≡ at (rows_of self.now.rows.now) (names path.now) }
    {
        let row = self.first_from(Position::at(path))?;
        (row.path == *path).then_some(&row.value)
    }

    // The child of a path with the smallest name greater than `after`: the first row behind that
    // name. Where every row's parent has a row, no child is passed over.
    pub fn child_after(&self, path: &Path, after: &[u8]) -> Option<Path>
        ensures exact { option_map names result ≡ child_at (rows_of self.now.rows.now) (names path.now) after.now }
        ensures least { rooted (rows_of self.now.rows.now) (rows_of self.now.rows.now) ≡ true → option_map names result ≡ child_path (rows_of self.now.rows.now) (names path.now) after.now }
    {
        let row = self.first_from(Position::child_after(path, after))?;
        (row.path.parent() == Some(*path)).then_some(row.path)
    }
}
