// Parts of a text between separators.
ghost use Rattle.std.specs.Prelude.{◌≡◌, ◌≤◌, length};
ghost use Rattle.paths.specs.Names.{split, last_name};
ghost use Rattle.paths.specs.Pieces.{front};

// The length of what stands before the first separator; of the whole text, where there is none.
pub fn front_len(text: &[u8], separator: u8) -> usize
    ensures value { result ≡ length (front separator text.now) }
    ensures within { result ≤ length text.now }
{
    text.iter()
        .position(|b| *b == separator)
        .unwrap_or(text.len())
}

// The last name of a text: what follows its last `/`, or all of a text with none.
pub fn last_piece(s: &[u8]) -> &[u8]
    ensures value { result.now ≡ last_name (split s.now) }
    ensures within { length result.now ≤ length s.now }
{
    match s.iter().rposition(|b| *b == b'/') {
        Some(i) => &s[i + 1..],
        None => s,
    }
}
