// What a refit prints.
ghost use Rattle.std.specs.Prelude.{◌≡◌, ◌+◌, ◌^◌, ◌<◌, ◌≤◌, ◌++◌, length, map, IfOk, vec_items, string_bytes};
ghost use Rattle.archive.specs.Calls.{response_of};
ghost use Rattle.refits.specs.Steps.{texts, held, held_whole, whole_text, told};

use crate::given::Names;
use crate::making::{LayerFile, Made};
use archive::reply::Reply;
use replies::lines::{filed_line, pile_line, squashed_line};
use replies::text::reply_text;
use reports::refusal::{Reason, refusal};
use std::alloc::{AllocError, Global};
use trees::fault::Fault;

// Adds the texts of the replies to calls of these names.
fn push_replies(
    heap: Global,
    text: &mut Vec<u8>,
    names: &[&'static str],
    replies: &[Reply],
) -> Result<(), AllocError>
    ensures { IfOk result (λ _. vec_items text.new ≡ vec_items text.old ++ texts (map (λ s. s.now) names.now) (map response_of replies.now)) }
{
    for (name, reply) in names.iter().zip(replies) {
        text.extend_from_slice(reply_text(heap, name, reply)?.as_slice())?;
    }
    Ok(())
}

// The line of the squash of so many layers, or its refusal.
fn whole_line(
    heap: Global,
    layers: usize,
    whole: &Result<LayerFile, Fault>,
) -> Result<String, AllocError>
    ensures { IfOk result (λ s. string_bytes s ≡ whole_text layers (held_whole whole.now)) }
{
    match whole {
        Ok(file) => squashed_line(heap, layers, file.rows, file.bytes.len()),
        Err(fault) => refusal(heap, "whole.lay", Reason::Tree(*fault)),
    }
}

// All that is printed of a refit over so many layers.
pub(crate) fn tell(
    heap: Global,
    layers: usize,
    names: &Names,
    made: &Made,
) -> Result<Vec<u8>, AllocError>
    requires few { layers + 1 < 2 ^ 64 }
    requires replied { length names.now.first.items ≤ length made.now.replies.items }
    ensures { IfOk result (λ t. vec_items t ≡ told layers (map (λ s. s.now) names.now.first.items) (map (λ s. s.now) names.now.later.items) made.now) }
{
    let (first, later) = made.replies.split_at(names.first.len());
    let mut text = pile_line(heap, layers, made.rows)?.into_bytes();
    push_replies(heap, &mut text, names.first.as_slice(), first)?;
    let filed = filed_line(heap, made.filed.rows, made.filed.bytes.len())?;
    text.extend_from_slice(filed.as_bytes())?;
    push_replies(heap, &mut text, names.later.as_slice(), later)?;
    let whole = whole_line(heap, layers + 1, &made.whole)?;
    text.extend_from_slice(whole.as_bytes())?;
    Ok(text)
}
