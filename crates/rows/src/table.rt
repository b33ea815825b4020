// A table: at most `N` rows that rise strictly in path order.
ghost use Rattle.std.specs.Prelude.{◌≡◌, ◌≤◌, true, length};
ghost use Rattle.rows.specs.Maps.{ascending};
ghost use Rattle.rows.specs.Rows.{rows_of};

use crate::row::Row;
use arrayvec::ArrayVec;
use std::default::MadeWith;

mod edits;
mod reads;

// `ArrayVec` keeps a blank row, which fills the places that hold none.
#[derive(Drop)]
pub struct Table<V, const N: usize> {
    rows: ArrayVec<Row<V>, N, Row<V>>,
    ghost fits: { length rows.items ≤ N },
    ghost rises: { ascending (rows_of rows.items) ≡ true },
}

// The blank is given to `Table::new`, since a `V` need not have a `Default`.
impl<V: Copy> MadeWith<Row<V>> for Row<V> {
    fn made_with(blank: Row<V>) -> Row<V>
        ensures { result ≡ blank }
    {
        blank
    }
}
