// What a field says, by its tag and the length of its value.
ghost use Rattle.std.specs.Prelude.{◌≡◌, length, if◌then◌else◌, Some, None, MatchOption, ◌==◌};
ghost use Rattle.layer_fields.specs.Fields.{field_of};
ghost use Rattle.layer_fields.specs.Said.{version_of, text_of, dir_of, file_of, entry_of, is_whiteout, count_of};

use crate::field::Field;
use trees::entry::{DirMeta, Entry, FileMeta};

// A directory's mode, in two bytes.
fn dir_entry(value: &[u8]) -> Option<Entry>
    ensures { result ≡ (if length value.now == 2 then Some (dir_of value.now) else None) }
{
    let [a, b] = value else {
        return None;
    };
    let mode = u16::from_be_bytes([*a, *b]);
    Some(Entry::Dir(DirMeta { mode }))
}

// A file's mode in two bytes, its size and its content number in eight each.
fn file_entry(value: &[u8]) -> Option<Entry>
    ensures { result ≡ (if length value.now == 18 then Some (file_of value.now) else None) }
{
    let (mode, numbers) = value.split_first_chunk::<2>()?;
    let (size, content) = numbers.split_first_chunk::<8>()?;
    let content = content.first_chunk::<8>().filter(|_| value.len() == 18)?;
    Some(Entry::File(FileMeta {
        mode: u16::from_be_bytes(*mode),
        size: u64::from_be_bytes(*size),
        content: u64::from_be_bytes(*content),
    }))
}

impl<'a> Field<'a> {
    // The version of the file.
    pub fn version(&self) -> Option<u8>
        ensures { result ≡ version_of (field_of self.now) }
    {
        match (self.tag, self.value) {
            (0, [version]) => Some(*version),
            _ => None,
        }
    }

    // The text of a path.
    pub fn text(&self) -> Option<&'a [u8]>
        ensures { MatchOption result (text_of (field_of self.now) ≡ None) (λ s. text_of (field_of self.now) ≡ Some s.now) }
    {
        (self.tag == 1).then_some(self.value)
    }

    // The entry of a directory or a file.
    pub fn entry(&self) -> Option<Entry>
        ensures { result ≡ entry_of (field_of self.now) }
    {
        match self.tag {
            2 => dir_entry(self.value),
            3 => file_entry(self.value),
            _ => None,
        }
    }

    // Whether it is a whiteout, or says that a directory is opaque.
    pub fn is_whiteout(&self) -> bool
        ensures { result ≡ is_whiteout (field_of self.now) }
    {
        self.tag == 5 && self.value.is_empty()
    }

    // The number of rows.
    pub fn count(&self) -> Option<u16>
        ensures { result ≡ count_of (field_of self.now) }
    {
        match (self.tag, self.value) {
            (6, [a, b]) => Some(u16::from_be_bytes([*a, *b])),
            _ => None,
        }
    }
}
