// How a manifest tree is made, and what it answers.
ghost use Rattle.std.specs.Prelude.{◌≡◌, [], length, Ok, MatchResult};
ghost use Rattle.rows.specs.Rows.{rows_of};
ghost use Rattle.rows.specs.Sorts.{kept};
ghost use Rattle.manifests.specs.Manifests.{indexed};
ghost use Rattle.base.specs.Loads.{Refused};

use crate::Manifest;
use manifests::fault::ManifestFault;
use manifests::index::is_index;
use paths::Path;
use rows::row::Row;
use rows::sorted::Sorted;
use trees::entry::Entry;
use trees::fault::Fault;
use trees::store::{self, Store};
use trees::tree::Tree;
use words::fault::Cause;

const OTHER_ROWS: ManifestFault = ManifestFault {
    at: 0,
    cause: Cause::OtherRows,
};

// The rows, if they are exactly those of the text. Rows of a text rise.
fn check_rows<'a>(text: &[u8], rows: &'a [Row<Entry>]) -> Result<Sorted<'a, Entry>, ManifestFault>
    ensures { MatchResult result (λ s. (indexed (length rows.now) text.now ≡ Ok (rows_of rows.now)) × (kept s ≡ rows_of rows.now)) (λ f. Refused (rows_of rows.now) (indexed (length rows.now) text.now) f) }
{
    if !is_index(text, rows)? {
        return Err(OTHER_ROWS);
    }
    Sorted::new(rows).ok_or(OTHER_ROWS)
}

impl<'a> Manifest<'a> {
    // The tree without entries.
    pub fn empty() -> Manifest<'a>
        ensures { kept result.rows ≡ [] }
    {
        Manifest {
            rows: Sorted::empty(),
        }
    }

    // The tree of a text, over its rows. They have to be exactly the text's.
    pub fn read(text: &[u8], rows: &'a [Row<Entry>]) -> Result<Manifest<'a>, ManifestFault>
        ensures { MatchResult result (λ m. (indexed (length rows.now) text.now ≡ Ok (rows_of rows.now)) × (kept m.rows ≡ rows_of rows.now)) (λ f. Refused (rows_of rows.now) (indexed (length rows.now) text.now) f) }
    {
        let mut tree = Manifest::empty();
        tree.load(text, rows)?;
        Ok(tree)
    }

    // Takes the rows of a text in place of those it has. They have to be exactly the text's.
    pub fn load(&mut self, text: &[u8], rows: &'a [Row<Entry>]) -> Result<(), ManifestFault>
        ensures { MatchResult result (λ _. (indexed (length rows.now) text.now ≡ Ok (rows_of rows.now)) × (kept self.new.rows ≡ rows_of rows.now)) (λ f. Refused (rows_of rows.now) (indexed (length rows.now) text.now) f × (self.new ≡ self.old)) }
    {
        self.rows = check_rows(text, rows)?;
        Ok(())
    }
}

impl Store for Manifest<'_> {
    ghost use Rattle.base.specs.Meant.{entries_of};

    ghost stored = { entries_of };

    fn entry(&self, path: &Path) -> Option<Entry> {
        self.rows.find(path).copied()
    }

    fn child_after(&self, path: &Path, after: &[u8]) -> Option<Path> {
        self.rows.child_after(path, after)
    }
}

impl Tree for Manifest<'_> {
    ghost use Rattle.base.specs.Meant.{entries_of};

    ghost entries = { entries_of };

    fn look(&self, path: &[u8]) -> Result<Entry, Fault> {
        store::look(self, path)
    }

    fn next(&self, path: &[u8], after: &[u8], buffer: &mut [u8]) -> Result<Option<usize>, Fault> {
        store::next(self, path, after, buffer)
    }
}
