// The flat tree: at most 256 entries, in one table.

#![tactic(auto)]

ghost use Rattle.std.specs.Prelude.{◌≡◌, true};
ghost use Rattle.rows.specs.Tables.{listed};
ghost use Rattle.trees.specs.Entries.{is_tree};

use rows::table::Table;
use trees::entry::Entry;

pub mod answers;
pub mod changes;

const ROWS: usize = 256;

#[derive(Drop)]
pub struct Flat {
    rows: Table<Entry, ROWS>,
    ghost built: { is_tree (listed rows) ≡ true },
}
