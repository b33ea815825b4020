// The tree that a manifest makes, over lent rows: the bottom of a pile.

#![tactic(auto)]

ghost use Rattle.std.specs.Prelude.{◌≡◌, true};
ghost use Rattle.rows.specs.Sorts.{kept};
ghost use Rattle.trees.specs.Entries.{is_tree};

use rows::sorted::Sorted;
use trees::entry::Entry;

pub mod loading;

#[derive(Drop)]
pub struct Manifest<'a> {
    rows: Sorted<'a, Entry>,
    ghost built: { is_tree (kept rows) ≡ true },
}
