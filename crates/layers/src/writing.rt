// New rows of a layer.
ghost use Rattle.std.specs.Prelude.{◌≡◌, if◌then◌else◌};
ghost use Rattle.paths.specs.Paths.{names};
ghost use Rattle.rows.specs.Maps.{has, replaced};
ghost use Rattle.rows.specs.Rows.{rows_of};
ghost use Rattle.rows.specs.Tables.{listed, spliced, splices};

use crate::layer::ROWS;
use marks::mark::Mark;
use paths::Path;
use rows::row::Row;
use rows::table::Table;

// Writes a mark over the one at the path, or else puts the new rows among those that are there. Not
// a method of the layer: whoever changes the rows owes its rule of parents.
pub fn put_rows(rows: &mut Table<Mark, ROWS>, path: &Path, mark: Mark, new: &[Row<Mark>])
    ensures { listed rows.new ≡ (if has (listed rows.old) (names path.now) then replaced (listed rows.old) (names path.now) mark else (if splices 192 (rows_of new.now) (listed rows.old) then spliced (rows_of new.now) (listed rows.old) else listed rows.old)) }
{
    if !rows.replace(path, mark) {
        let _ = rows.insert(new);
    }
}
