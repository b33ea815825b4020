// Layer files as they are written.
ghost use Rattle.std.specs.Prelude.{◌≡◌, ◌+◌, ◌≤◌, ◌++◌, length, take, drop, Ok, IfOk};
ghost use Rattle.trees.specs.Buffers.{fitted, put_front};
ghost use Rattle.layers.specs.Layers.{marks_of};
ghost use Rattle.layer_files.specs.Files.{encoded};
ghost use Rattle.layer_files.specs.Reads.{decoded};

use crate::pieces::{count_bytes, row_bytes, version_bytes};
use layers::layer::Layer;
use trees::fault::Fault;

// The length of the file of a layer.
fn measure(layer: &Layer) -> usize
    ensures { result ≡ length (encoded (marks_of layer.now)) }
{
    let rows = layer.rows.as_rows();
    let mut len = version_bytes().len();
    for row in rows {
        len += row_bytes(row).len();
    }
    len + count_bytes(rows.len()).len()
}

// Writes one piece at a position, and answers where it ends.
fn put(buffer: &mut [u8], start: usize, piece: &[u8]) -> usize
    requires { start + length piece.now ≤ length buffer.old }
    ensures end { result ≡ start + length piece.now }
    ensures after { buffer.new ≡ take start buffer.old ++ (piece.now ++ drop (start + length piece.now) buffer.old) }
{
    let end = start + piece.len();
    buffer[start..end].copy_from_slice(piece);
    end
}

// Writes the file, for which there is room.
fn fill(layer: &Layer, buffer: &mut [u8])
    requires { length (encoded (marks_of layer.now)) ≤ length buffer.old }
    ensures { buffer.new ≡ encoded (marks_of layer.now) ++ drop (length (encoded (marks_of layer.now))) buffer.old }
{
    let rows = layer.rows.as_rows();
    // `end` is a sum of lengths, no index that is counted.
    let mut end = put(buffer, 0, &version_bytes());
    for row in rows {
        end = put(buffer, end, &row_bytes(row));
    }
    put(buffer, end, &count_bytes(rows.len()));
}

// Writes the file of a layer, and answers how many bytes that are. A buffer that is too short is left alone. What is
// written would be read as that layer.
pub fn write(layer: &Layer, buffer: &mut [u8]) -> Result<usize, Fault>
    ensures answer { result ≡ fitted (encoded (marks_of layer.now)) (length buffer.old) }
    ensures after { buffer.new ≡ put_front (encoded (marks_of layer.now)) buffer.old }
    ensures reads_back { IfOk result (λ n. decoded (take n buffer.new) ≡ Ok (marks_of layer.now)) }
{
    let len = measure(layer);
    if buffer.len() < len {
        return Err(Fault::ShortBuffer);
    }
    fill(layer, buffer);
    Ok(len)
}
