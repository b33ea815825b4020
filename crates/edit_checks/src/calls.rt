// The calls that a script can make, and how a line spells them. Modes are octal, contents hexadecimal, and `''` is the
// empty text.
use trees::entry::{DirMeta, Entry, FileMeta};

// What is asked of any tree.
#[derive(Clone, Copy)]
pub(crate) enum Question<'a> {
    Look(&'a str),
    // A path, the name before, and the bytes of the buffer.
    Next(&'a str, &'a str, usize),
}

// What is asked and done of an editable tree.
#[derive(Clone, Copy)]
pub(crate) enum Call<'a> {
    Ask(Question<'a>),
    Room,
    Need(&'a str),
    Put(&'a str, Entry),
    Mkdir(&'a str, u16),
    Chmod(&'a str, u16),
    Remove(&'a str),
}

// The first word, and the rest of the words.
pub(crate) fn first_word(words: &str) -> (&str, &str) {
    match words.split_once(' ').unwrap_or((words, "")) {
        ("''", rest) => ("", rest),
        (word, rest) => (word, rest),
    }
}

fn mode_of(word: &str) -> Option<u16> {
    u16::from_str_radix(word, 8).ok()
}

// The entry that is spelled `dir 755` or `file 644 12 a1`.
fn entry_of(words: &str) -> Option<Entry> {
    let (kind, words) = first_word(words);
    let (mode, words) = first_word(words);
    let mode = mode_of(mode)?;
    match kind {
        "dir" => Some(Entry::Dir(DirMeta { mode })),
        "file" => {
            let (size, content) = words.split_once(' ')?;
            let size = size.parse::<u64>().ok()?;
            let content = u64::from_str_radix(content, 16).ok()?;
            Some(Entry::File(FileMeta {
                mode,
                size,
                content,
            }))
        }
        _ => None,
    }
}

// `short` is `next` with a buffer that is one byte too short.
pub(crate) fn question_of(line: &str) -> Option<Question<'_>> {
    let (kind, words) = first_word(line);
    let (path, words) = first_word(words);
    let (after, _) = first_word(words);
    match kind {
        "look" => Some(Question::Look(path)),
        "next" => Some(Question::Next(path, after, 40)),
        "short" => Some(Question::Next(path, after, 39)),
        _ => None,
    }
}

pub(crate) fn call_of(line: &str) -> Option<Call<'_>> {
    let (kind, words) = first_word(line);
    let (path, words) = first_word(words);
    match kind {
        "room" => Some(Call::Room),
        "need" => Some(Call::Need(path)),
        "put" => Some(Call::Put(path, entry_of(words)?)),
        "mkdir" => Some(Call::Mkdir(path, mode_of(words)?)),
        "chmod" => Some(Call::Chmod(path, mode_of(words)?)),
        "remove" => Some(Call::Remove(path)),
        _ => Some(Call::Ask(question_of(line)?)),
    }
}
