// What a table holds.
ghost use Rattle.std.specs.Prelude.{◌≡◌, []};
ghost use Rattle.std.specs.Option.{option_map};
ghost use Rattle.paths.specs.Paths.{names};
ghost use Rattle.rows.specs.Maps.{at};
ghost use Rattle.rows.specs.Rows.{rows_of};
ghost use Rattle.rows.specs.Sorts.{kept};
ghost use Rattle.rows.specs.Tables.{listed};

use crate::row::Row;
use crate::sorted::Sorted;
use crate::table::Table;
use arrayvec::ArrayVec;
use paths::Path;

impl<V, const N: usize> Table<V, N> {
    // No rows; `blank` fills the places.
    pub fn new(blank: V) -> Table<V, N>
    where
        V: Copy,
        ensures { listed result ≡ [] }
    {
        let row = Row {
            path: Path::root(),
            value: blank,
        };
        Table {
            rows: ArrayVec::new_in(row),
        }
    }

    // The rows.
    pub fn as_rows(&self) -> &[Row<V>]
        ensures rows { result.now ≡ self.now.rows.items }
        ensures listed { rows_of result.now ≡ listed self.now }
    {
        self.rows.as_slice()
    }

    // The rows, to be asked.
    pub fn sorted(&self) -> Sorted<'_, V>
        ensures { kept result ≡ listed self.now }
    {
        Sorted::of_rising(self.as_rows())
    }

    // The value at a path.
    pub fn find(&self, path: &Path) -> Option<&V>
        ensures { option_map (λ x. x.now) result ≡ at (listed self.now) (names path.now) }
    {
        self.sorted().find(path)
    }
}
