// The texts of path fields: whiteouts and opaque markers have names that no path has.
ghost use Rattle.std.specs.Prelude.{◌≡◌, ◌++◌, [], Ok, Err, MatchOption, MatchResult};
ghost use Rattle.paths.specs.Names.{judge};
ghost use Rattle.paths.specs.Paths.{names};
ghost use Rattle.layer_fields.specs.declared.fault.Cause.TheVariants.{Whiteout};
ghost use Rattle.layer_fields.specs.Texts.{before_last, is_marker, has_whiteout_prefix, row_path, whiteout_path};

use crate::fault::Cause;
use arrayvec::ArrayVec;
use paths::Path;
use paths::parts::last_piece;

// What a whiteout has before its last name.
pub const WHITEOUT: &[u8] = b".wh.";

// The name of the marker in an opaque directory.
pub const OPAQUE: &[u8] = b".wh..wh..opq";

// Whether a text names an opaque marker.
pub fn is_marker(text: &[u8]) -> bool
    ensures { result ≡ is_marker text.now }
{
    last_piece(text) == OPAQUE
}

// Whether a text names a whiteout or a marker: whether `.wh.` begins its last name.
pub fn has_whiteout_prefix(text: &[u8]) -> bool
    ensures { result ≡ has_whiteout_prefix text.now }
{
    last_piece(text).starts_with(WHITEOUT)
}

// What stands before the last name.
pub fn before_last(text: &[u8]) -> &[u8]
    ensures { result.now ≡ before_last text.now }
{
    &text[..text.len() - last_piece(text).len()]
}

// The path of a whiteout, whose text is given in two parts, without `.wh.` between them: a good one, and not the root.
fn whiteout_path(before: &[u8], name: &[u8]) -> Option<Path>
    ensures { MatchOption result (whiteout_path (judge (before.now ++ name.now)) ≡ Err Whiteout) (λ p. whiteout_path (judge (before.now ++ name.now)) ≡ Ok (names p)) }
{
    let mut text = ArrayVec::<u8, 120>::new();
    text.try_extend_from_slice(before).ok()?;
    text.try_extend_from_slice(name).ok()?;
    Path::parse(&text).ok().filter(|path| path.depth() > 0)
}

// The path of a row, by the text of its path field.
pub fn row_path(text: &[u8]) -> Result<Path, Cause>
    ensures { MatchResult result (λ p. row_path text.now ≡ Ok (names p)) (λ c. row_path text.now ≡ Err c) }
{
    let Some(name) = last_piece(text).strip_prefix(WHITEOUT) else {
        return Ok(Path::parse(text)?);
    };
    whiteout_path(before_last(text), name).ok_or(Cause::Whiteout)
}
