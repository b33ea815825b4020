// Reading a layer file: its rows one by one, into a layer.
ghost use Rattle.std.specs.Prelude.{◌≡◌, ◌<◌, true, [], ◌∷◌, ◌++◌, length, Ok, Err, OnOk, MatchResult};
ghost use Rattle.rows.specs.Rows.{row_of};
ghost use Rattle.marks.specs.Marks.{layered};
ghost use Rattle.layers.specs.Layers.{marks_of};
ghost use Rattle.layer_files.specs.Files.{encoded};
ghost use Rattle.layer_files.specs.Reads.{decoded};

use crate::read::reader::Reader;
use layer_fields::fault::LayerFault;
use layers::layer::Layer;
use marks::mark::Mark;
use rows::row::Row;

mod admit;
mod marker;
mod reader;

// Puts a row behind the others, where all of them make a layer then.
fn append(seen: &mut Layer, row: Row<Mark>)
    requires room { length (marks_of seen.old) < 192 }
    requires grows { layered (marks_of seen.old ++ row_of row ∷ []) ≡ true }
    ensures { marks_of seen.new ≡ marks_of seen.old ++ row_of row ∷ [] }
{
    let _ = seen.rows.insert(&[row]);
}

// Takes the rows of a file in place of those that the layer has; a refusal leaves it as it was. The layer would be
// written with the bytes that were read.
pub fn read(bytes: &[u8], layer: &mut Layer) -> Result<(), LayerFault>
    ensures exact { MatchResult result (λ _. decoded bytes.now ≡ Ok (marks_of layer.new)) (λ f. (decoded bytes.now ≡ Err f) × (layer.new ≡ layer.old)) }
    ensures written_again { OnOk result (encoded (marks_of layer.new) ≡ bytes.now) }
{
    let mut reader = Reader::new(bytes);
    reader.version()?;
    let mut seen = Layer::new();
    while let Some(row) = reader.row(&seen)? {
        append(&mut seen, row);
    }
    *layer = seen;
    Ok(())
}
