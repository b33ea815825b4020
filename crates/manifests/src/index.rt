// The index of a manifest: one row an entry.
ghost use Rattle.std.specs.Prelude.{◌≡◌, List, [], length, Ok, Err, Decides, MatchResult};
ghost use Rattle.rows.specs.Rows.{row_of, rows_of};
ghost use Rattle.trees.specs.Entries.{Row as Meant};
ghost use Rattle.manifests.specs.Manifests.{indexed};
ghost use Rattle.trees.specs.declared.entry.Entry.TheVariants.{Dir};
ghost use Rattle.manifests.specs.Indexes.{Indexed};

use crate::fault::ManifestFault;
use crate::reader::Reader;
use paths::Path;
use rows::row::Row;
use trees::entry::{DirMeta, Entry};

// A row to fill a table with. It is no `Default`: a blank entry means nothing, and both types are of other crates.
pub fn blank_row() -> Row<Entry>
    ensures { row_of result ≡ ([], Dir (record { mode = 0 })) }
{
    Row {
        path: Path::root(),
        value: Entry::Dir(DirMeta { mode: 0 }),
    }
}

// Writes the rows of a text to the front of `rows`, and says how many they are.
pub fn index(text: &[u8], rows: &mut [Row<Entry>]) -> Result<usize, ManifestFault>
    ensures { Indexed text.now rows.old rows.new result }
{
    let mut reader = Reader::new(rows.len());
    reader.fill(text)?;
    let read = reader.rows();
    rows[..read.len()].copy_from_slice(read);
    Ok(read.len())
}

// Whether rows are exactly those of a text, which may have as many.
pub fn is_index(text: &[u8], rows: &[Row<Entry>]) -> Result<bool, ManifestFault>
    ensures { MatchResult result (λ same. (read : List Meant) × (indexed (length rows.now) text.now ≡ Ok read) × Decides same (rows_of rows.now ≡ read)) (λ f. indexed (length rows.now) text.now ≡ Err f) }
{
    let mut read = Reader::new(rows.len());
    read.fill(text)?;
    Ok(read.rows() == rows)
}
