// The path word of a line, and why a manifest is refused.

#![tactic(auto)]

ghost use Rattle.std.specs.Prelude.{◌≡◌, [], Some, None, Ok, Err, MatchOption, MatchResult};
ghost use Rattle.paths.specs.Paths.{names};
ghost use Rattle.words.specs.Words.{undotted, judged_word, path_of};

use crate::escape::unescape;
use crate::fault::Cause;
use paths::Path;

pub mod escape;
pub mod fault;
pub mod printable;

// The text of the path in a word without its escapes.
pub fn dotless(plain: &[u8]) -> Option<&[u8]>
    ensures { MatchOption result (undotted plain.now ≡ None) (λ s. undotted plain.now ≡ Some s.now) }
{
    match plain {
        b"." => Some(&[]),
        [b'.', b'/', text @ ..] if !text.is_empty() => Some(text),
        _ => None,
    }
}

// The path of a word without its escapes.
fn read_plain(plain: &[u8]) -> Result<Path, Cause>
    ensures { MatchResult result (λ p. judged_word (undotted plain.now) ≡ Ok (names p)) (λ c. judged_word (undotted plain.now) ≡ Err c) }
{
    let text = dotless(plain).ok_or(Cause::Word)?;
    Ok(Path::parse(text)?)
}

// The path of a word.
#[tactic(auto, using(crate::proofs::Dotting::of_plain))]
pub fn read_path(word: &[u8]) -> Result<Path, Cause>
    ensures { MatchResult result (λ p. path_of word.now ≡ Ok (names p)) (λ c. path_of word.now ≡ Err c) }
{
    let plain = unescape(word).ok_or(Cause::Word)?;
    read_plain(&plain)
}
