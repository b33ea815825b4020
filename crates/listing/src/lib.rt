// The listing of a tree: an mtree text, one line a path.

#![tactic(auto)]

ghost use Rattle.std.specs.Prelude.{◌≡◌, ◌<◌, ◌≤◌, ◌++◌, length, drop, MatchOption};
ghost use Rattle.trees.specs.Buffers.{fitted, put_front};
ghost use Rattle.listing.specs.Lines.{listing};

mod following;
mod line;
mod lines;
pub mod pieces;

use crate::lines::Lines;
use trees::fault::Fault;
use trees::tree::Tree;

// The first line of a listing, and of a manifest.
pub const HEADER: &[u8] = b"#mtree\n";

// The length of the listing, where there is room for it.
#[tactic(auto, using(crate::proofs::Rest::all_told))]
fn measure<T: Tree>(tree: &T, room: usize) -> Option<usize>
    ensures { MatchOption result (room < length (listing (T.Tree.entries tree.now).rows)) (λ n. (n ≡ length (listing (T.Tree.entries tree.now).rows)) × (n ≤ room)) }
{
    let mut left = room.checked_sub(HEADER.len())?;
    for line in Lines::of(tree) {
        left = left.checked_sub(line.len())?;
    }
    Some(room - left)
}

// Writes the listing, for which there is room.
#[tactic(auto, using(trees::proofs::Written::room_for))]
fn write<T: Tree>(tree: &T, buffer: &mut [u8])
    requires { length (listing (T.Tree.entries tree.now).rows) ≤ length buffer.old }
    ensures { buffer.new ≡ listing (T.Tree.entries tree.now).rows ++ drop (length (listing (T.Tree.entries tree.now).rows)) buffer.old }
{
    // `end` is a sum of lengths, no index that is counted.
    let mut end = HEADER.len();
    buffer[..end].copy_from_slice(HEADER);
    for line in Lines::of(tree) {
        let start = end;
        end += line.len();
        buffer[start..end].copy_from_slice(line.as_str().as_bytes());
    }
}

// Writes `#mtree` and a line for each entry, in the order of their paths, and answers how many
// bytes that are. A buffer that is too short is left alone.
pub fn list<T: Tree>(tree: &T, buffer: &mut [u8]) -> Result<usize, Fault>
    ensures answer { result ≡ fitted (listing (T.Tree.entries tree.now).rows) (length buffer.old) }
    ensures after { buffer.new ≡ put_front (listing (T.Tree.entries tree.now).rows) buffer.old }
{
    let n = measure(tree, buffer.len()).ok_or(Fault::ShortBuffer)?;
    write(tree, buffer);
    Ok(n)
}
