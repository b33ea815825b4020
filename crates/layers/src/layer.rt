// A layer: its rows, in one table.
ghost use Rattle.std.specs.Prelude.{◌≡◌, true};
ghost use Rattle.rows.specs.Tables.{listed};
ghost use Rattle.marks.specs.Marks.{layered};

use marks::mark::Mark;
use rows::table::Table;

// The most rows of a layer.
pub const ROWS: usize = 192;

// Whoever makes or changes the rows owes the rule of parents, which every value keeps.
#[derive(Drop)]
pub struct Layer {
    pub rows: Table<Mark, ROWS>,
    ghost grown: { layered (listed rows) ≡ true },
}
