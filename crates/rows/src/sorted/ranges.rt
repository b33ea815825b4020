// Where an edit of sorted rows begins and ends.
ghost use Rattle.std.specs.Prelude.{◌≡◌, ◌≤◌, false, ◌++◌, length, take, drop, MatchOption};
ghost use Rattle.paths.specs.Paths.{names};
ghost use Rattle.rows.specs.Maps.{above, ascending, without};
ghost use Rattle.rows.specs.Rows.{rows_of};
ghost use Rattle.rows.specs.Positions.{led_under};
ghost use Rattle.rows.specs.Tables.{spliced, Spliced};

use crate::order::rising;
use crate::position::Position;
use crate::row::Row;
use crate::sorted::Sorted;
use paths::Path;
use std::ops::Range;

// How many rows at the front stand at a path or below it.
fn count_under<V>(rows: &[Row<V>], path: &Path) -> usize
    ensures value { result ≡ led_under (names path.now) (rows_of rows.now) }
    ensures within { result ≤ length rows.now }
{
    rows.iter()
        .position(|row| !path.is_prefix_of(&row.path))
        .unwrap_or(rows.len())
}

impl<'a, V> Sorted<'a, V> {
    // Whether a path comes before the rows from `at` on.
    fn leads(&self, path: &Path, at: usize) -> bool
        ensures { result ≡ above (names path.now) (drop at (rows_of self.now.rows.now)) }
    {
        self.rows.get(at).is_none_or(|row| *path < row.path)
    }

    // Where new rows go among the rows, if all rise then. Only the neighbours of that place are
    // looked at.
    pub(crate) fn splice_place(&self, new: &[Row<V>]) -> Option<usize>
        ensures { MatchOption result (ascending (spliced (rows_of new.now) (rows_of self.now.rows.now)) ≡ false) (λ at. Spliced self.now.rows.now new.now at) }
    {
        let (Some(first), Some(last)) = (new.first(), new.last()) else {
            return Some(self.rows.len());
        };
        let at = self.count_before(Position::at(&first.path));
        (rising(new) && self.leads(&last.path, at)).then_some(at)
    }

    // Where the rows at a path and below it stand: next to each other, from where the path's own would stand.
    pub(crate) fn under(&self, path: &Path) -> Range<usize>
        ensures rows { without (names path.now) (rows_of self.now.rows.now) ≡ rows_of (take result.start self.now.rows.now ++ drop result.end self.now.rows.now) }
        ensures order { result.start ≤ result.end }
        ensures within { result.end ≤ length self.now.rows.now }
    {
        let start = self.count_before(Position::at(path));
        start..start + count_under(&self.rows[start..], path)
    }
}
