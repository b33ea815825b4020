// The text that is printed for a reply.

#![tactic(auto, using(listing::proofs::Texts::pieces))]

ghost use Rattle.std.specs.Prelude.{◌≡◌, take, IfOk, vec_items};
ghost use Rattle.archive.specs.Calls.{response_of};
ghost use Rattle.replies.specs.Replies.{entry_text, name_text, listed_text, reply_text};

use archive::reply::Reply;
use listing::pieces::{content_digits, escape, mode_digits};
use reports::refusal::{Reason, refusal};
use std::alloc::{AllocError, Global};
use trees::entry::Entry;

fn entry_text(heap: Global, entry: Entry) -> Result<Vec<u8>, AllocError>
    ensures { IfOk result (λ v. vec_items v ≡ entry_text entry) }
{
    let mut text = Vec::new(heap);
    match entry {
        Entry::Dir(dir) => {
            text.extend_from_slice(b"dir ")?;
            text.extend_from_slice(mode_digits(dir.mode).as_str().as_bytes())?;
        }
        Entry::File(file) => {
            text.extend_from_slice(b"file ")?;
            text.extend_from_slice(mode_digits(file.mode).as_str().as_bytes())?;
            let size = format!(in heap; " {} ", file.size)?;
            text.extend_from_slice(size.as_bytes())?;
            text.extend_from_slice(content_digits(file.content).as_str().as_bytes())?;
        }
    }
    text.push(b'\n')?;
    Ok(text)
}

fn name_text(heap: Global, name: &[u8]) -> Result<Vec<u8>, AllocError>
    ensures { IfOk result (λ v. vec_items v ≡ name_text name.now) }
{
    let mut text = b"name ".to_vec(heap)?;
    for b in name {
        text.extend_from_slice(escape(*b).as_str().as_bytes())?;
    }
    text.push(b'\n')?;
    Ok(text)
}

fn listed_text(heap: Global, len: usize, listing: &[u8]) -> Result<Vec<u8>, AllocError>
    ensures { IfOk result (λ v. vec_items v ≡ listed_text len listing.now) }
{
    let mut text = format!(in heap; "listed {len}\n")?.into_bytes();
    text.extend_from_slice(listing)?;
    Ok(text)
}

// The front of a buffer, as far as it goes.
fn front(buffer: &[u8], len: usize) -> &[u8]
    ensures { result.now ≡ take len buffer.now }
{
    buffer.get(..len).unwrap_or(buffer)
}

// What is printed for the reply to a call of that name.
pub fn reply_text(heap: Global, call: &str, reply: &Reply) -> Result<Vec<u8>, AllocError>
    ensures { IfOk result (λ v. vec_items v ≡ reply_text call.now (response_of reply.now)) }
{
    match reply {
        Reply::Looked(Ok(entry)) => entry_text(heap, *entry),
        Reply::Next(Ok(None), _) => Ok(b"none\n".to_vec(heap)?),
        Reply::Next(Ok(Some(len)), buffer) => name_text(heap, front(buffer, *len)),
        Reply::Listed(Ok(len), buffer) => listed_text(heap, *len, front(buffer, *len)),
        Reply::Room(rows) => Ok(format!(in heap; "room {rows}\n")?.into_bytes()),
        Reply::Need(Ok(rows)) => Ok(format!(in heap; "need {rows}\n")?.into_bytes()),
        Reply::Edited(Ok(())) => Ok(b"done\n".to_vec(heap)?),
        Reply::Looked(Err(fault))
        | Reply::Next(Err(fault), _)
        | Reply::Listed(Err(fault), _)
        | Reply::Need(Err(fault))
        | Reply::Edited(Err(fault)) => {
            Ok(refusal(heap, call, Reason::Tree(*fault))?.into_bytes())
        }
    }
}
