// The words of a line that stand for values.
ghost use Rattle.std.specs.Prelude.{◌≡◌, vec_items, IfOk};
ghost use Rattle.scripts.specs.Reads.{Reads};
ghost use Rattle.scripts.specs.Values.{path_word, name_word, mode_word, size_word, zeros};

use crate::fault::LineFault;
use mtree::numbers::read_numeral;
use std::alloc::{AllocError, Global};
use words::dotless;
use words::escape::unescape_all;

// The text of a path. Whether the path is good is not asked here.
pub(crate) fn read_path(heap: Global, word: &[u8]) -> Result<Vec<u8>, LineFault>
    ensures { Reads vec_items result (path_word word.now) }
{
    let plain = unescape_all(heap, word)?.ok_or(LineFault::Unreadable)?;
    let text = dotless(&plain).ok_or(LineFault::Unreadable)?;
    Ok(text.to_vec(heap)?)
}

// The name behind which a question goes on.
pub(crate) fn read_name(heap: Global, word: &[u8]) -> Result<Vec<u8>, LineFault>
    ensures { Reads vec_items result (name_word word.now) }
{
    if word.is_empty() {
        return Err(LineFault::Unreadable);
    }
    unescape_all(heap, word)?.ok_or(LineFault::Unreadable)
}

// One to six octal digits that make a number of 16 bits.
pub(crate) fn read_mode(word: &[u8]) -> Option<u16>
    ensures { result ≡ mode_word word.now }
{
    match word.len() {
        1..=6 => read_numeral(8, word).and_then(|mode| u16::try_from(mode).ok()),
        _ => None,
    }
}

// A decimal with no zero before another digit.
pub(crate) fn read_size(word: &[u8]) -> Option<u64>
    ensures { result ≡ size_word word.now }
{
    match word {
        [] | [b'0', _, ..] => None,
        _ => read_numeral(10, word),
    }
}

// A buffer to lend.
#[tactic(auto, unfolding(crate::specs::Values::zeros))]
pub(crate) fn zeros(heap: Global, len: usize) -> Result<Vec<u8>, AllocError>
    ensures { IfOk result (λ v. vec_items v ≡ zeros len) }
{
    vec![in heap; 0; len]
}
