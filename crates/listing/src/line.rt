// One line of a listing, pushed piece by piece: `write!` is not used, since by its clauses any
// print may fail, and a listing never does.

#![tactic(auto, using(crate::proofs::Texts::pieces))]

ghost use Rattle.std.specs.Prelude.{◌≡◌, ◌+◌, ◌*◌, ◌≤◌, ◌++◌, length};
ghost use Rattle.paths.specs.Paths.{names};
ghost use Rattle.listing.specs.Lines.{dotted, keywords, line};

use crate::pieces::{content_digits, escape, mode_digits};
use arrayvec::ArrayString;
use itoa::Buffer;
use paths::Path;
use trees::entry::Entry;

// There is room for a path of 120 escaped bytes, and the keywords.
pub(crate) type Line = ArrayString<640>;

// A path, after a dot.
fn push_path(line: &mut Line, path: &[u8])
    requires { length line.old.bytes + 4 * length path.now + 2 ≤ 640 }
    ensures { line.new.bytes ≡ line.old.bytes ++ dotted path.now }
{
    line.push('.');
    if !path.is_empty() {
        line.push('/');
    }
    for b in path {
        line.push_str(escape(*b).as_str());
    }
}

fn push_keywords(line: &mut Line, entry: Entry)
    requires { length line.old.bytes + 72 ≤ 640 }
    ensures text { line.new.bytes ≡ line.old.bytes ++ keywords entry }
    ensures long { length line.new.bytes ≤ length line.old.bytes + 71 }
{
    match entry {
        Entry::Dir(dir) => {
            line.push_str(" type=dir mode=");
            line.push_str(mode_digits(dir.mode).as_str());
        }
        Entry::File(file) => {
            line.push_str(" type=file mode=");
            line.push_str(mode_digits(file.mode).as_str());
            line.push_str(" size=");
            line.push_str(Buffer::new().format(file.size));
            line.push_str(" content=");
            line.push_str(content_digits(file.content).as_str());
        }
    }
}

// The line of an entry.
pub(crate) fn line_of(path: &Path, entry: Entry) -> Line
    ensures { result.bytes ≡ line (names path.now) entry }
{
    let mut made = Line::new();
    push_path(&mut made, path.as_bytes());
    push_keywords(&mut made, entry);
    made.push('\n');
    made
}
