// The files of the current folder, as the programs read them.

#![tactic(auto)]

ghost use Rattle.std.specs.Prelude.{◌≡◌, ◌≤◌, take, length, IfOk, IfSome};

use manifests::reader::MOST_BYTES;
use std::alloc::Global;
use std::fs::File;
use std::io::{self, ErrorKind, Read};
use std::rt::Files;

// One byte more than a manifest may have, so that a longer file is seen to be too long. Every layer fits too.
const MOST_READ: usize = MOST_BYTES + 1;

// The first bytes of a reader.
fn read_front<R: Read + Drop>(heap: Global, reader: R) -> io::Result<Vec<u8>>
    ensures bytes { IfOk result (λ v. IfSome (R.remaining reader) (λ bs. v.items ≡ take 65537 bs)) }
    ensures few { IfOk result (λ v. length v.items ≤ 65537) }
{
    let mut bytes = Vec::new(heap);
    let _ = reader.take(MOST_READ as u64).read_to_end(&mut bytes)?;
    // For the proof of the length alone: no clause counts the bytes of a reader that does not say what it gives.
    bytes.truncate(MOST_READ);
    Ok(bytes)
}

// The first bytes of a file; none, where there is no such file. What bytes a file has, no contract can say.
pub fn read_file<R: Files + AllocGlobal>(rt: &R, name: &str) -> io::Result<Option<Vec<u8>>>
    ensures { IfOk result (λ o. IfSome o (λ v. length v.items ≤ 65537)) }
{
    let file = match File::open(rt, name) {
        Err(e) if e.kind() == ErrorKind::NotFound => return Ok(None),
        opened => opened?,
    };
    Ok(Some(read_front(rt.alloc(), file)?))
}
