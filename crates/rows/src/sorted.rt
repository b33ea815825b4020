// A lent slice of rows that rise strictly in path order. No map: rows are lent, and nothing here may fail for memory.
// No Model: the definitions above see it by `kept`, which is the shorter word there too.
ghost use Rattle.std.specs.Prelude.{◌≡◌, true};
ghost use Rattle.rows.specs.Maps.{ascending};
ghost use Rattle.rows.specs.Rows.{rows_of};

use crate::row::Row;

mod lookup;
mod ranges;

#[derive(Drop)]
pub struct Sorted<'a, V> {
    rows: &'a [Row<V>],
    ghost rises: { ascending (rows_of rows.now) ≡ true },
}
