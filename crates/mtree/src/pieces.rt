// A text cut at each separator, piece by piece: the fields of a line, or the lines of a text. No `Split` of the library: it
// has the type of its closure in its own, which a field of a struct can't name.
ghost use Rattle.std.specs.Prelude.{◌≡◌, [], MatchOption};
ghost use Rattle.std.specs.Iterator.{YieldsFirstRef, item_count};
ghost use Rattle.paths.specs.Pieces.{front, later, pieces};
ghost use Rattle.mtree.specs.Lexed.{unread};

use paths::parts::front_len;

// The pieces that are not read yet: those of the rest of the text.
#[derive(Clone, Copy)]
pub struct Pieces<'a> {
    pub rest: Option<&'a [u8]>,
    pub separator: u8,
}

// A text up to its first separator, and what is behind that.
fn cut(text: &[u8], separator: u8) -> (&[u8], Option<&[u8]>)
    ensures before { result.0.now ≡ front separator text.now }
    ensures behind { MatchOption result.1 (later separator text.now ≡ []) (λ rest. later separator text.now ≡ pieces separator rest.now) }
{
    let end = front_len(text, separator);
    (&text[..end], text.get(end + 1..))
}

impl<'a> Pieces<'a> {
    // All pieces of a text.
    pub fn of(text: &'a [u8], separator: u8) -> Pieces<'a>
        ensures { unread result ≡ pieces separator text.now }
    {
        Pieces {
            rest: Some(text),
            separator,
        }
    }
}

impl<'a> Iterator for Pieces<'a> {
    type Item = &'a [u8];

    ghost next_gives = { YieldsFirstRef unread };

    ghost remaining = { item_count unread };

    fn next(&mut self) -> Option<&'a [u8]> {
        let (piece, rest) = cut(self.rest?, self.separator);
        self.rest = rest;
        Some(piece)
    }
}
