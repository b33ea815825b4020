// Takes a line apart: its path word, its keywords with their values, and its end.
ghost use Rattle.std.specs.Prelude.{◌≡◌, ◌+◌, ◌^◌, ◌<◌, ◌≤◌, length, drop};
ghost use Rattle.mtree.specs.Lexed.{spelled, keyword_or_word, token_at, behind, fields_left, tail, Begun};

use paths::parts::front_len;

// A part of the line, and the position of its first byte there.
#[derive(Clone, Copy)]
pub(crate) struct Part<'a> {
    pub(crate) text: &'a [u8],
    pub(crate) at: usize,
}

#[derive(Clone, Copy)]
pub(crate) enum Token<'a> {
    // The path word, or a later field without a `=`.
    Word(Part<'a>),
    Keyword { name: Part<'a>, value: Part<'a> },
    End { at: usize },
}

// The tokens of a line that are not read yet: those from a position on, where a field begins. Behind the last field that
// is past the line's end.
#[derive(Clone, Copy)]
pub(crate) struct Lexer<'a> {
    line: &'a [u8],
    at: usize,
}

// A field behind the path word, by its first `=`.
fn keyword_or_word(text: &[u8], at: usize) -> Token<'_>
    requires { at + length text.now < 2 ^ 64 }
    ensures { spelled result ≡ keyword_or_word text.now at }
{
    let end = front_len(text, b'=');
    let Some(value) = text.get(end + 1..) else {
        return Token::Word(Part { text, at });
    };
    Token::Keyword {
        name: Part {
            text: &text[..end],
            at,
        },
        value: Part {
            text: value,
            at: at + end + 1,
        },
    }
}

impl<'a> Lexer<'a> {
    pub(crate) fn of(line: &'a [u8]) -> Lexer<'a>
        ensures line { result.line.now ≡ line.now }
        ensures at { result.at ≡ 0 }
    {
        Lexer { line, at: 0 }
    }

    // The next token, and goes past it.
    pub(crate) fn token(&mut self) -> Token<'a>
        ensures token { spelled result ≡ token_at self.old.line.now self.old.at }
        ensures moved { self.new ≡ behind self.old }
        ensures after { fields_left self.new ≡ tail (fields_left self.old) }
        ensures begun { Begun self.new }
    {
        let at = self.at;
        let Some(rest) = self.line.get(at..) else {
            return Token::End {
                at: self.line.len(),
            };
        };
        let text = &rest[..front_len(rest, b' ')];
        self.at = at + text.len() + 1;
        if at == 0 {
            Token::Word(Part { text, at })
        } else {
            keyword_or_word(text, at)
        }
    }
}
