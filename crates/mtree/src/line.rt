// What a line says.
ghost use Rattle.std.specs.Prelude.{◌≡◌, Ok, Err, MatchResult};
ghost use Rattle.rows.specs.Rows.{row_of};
ghost use Rattle.mtree.specs.Lines.{line_of};

use crate::lexer::{Lexer, Token};
use rows::row::Row;
use trees::entry::Entry;
use words::fault::Cause;
use words::read_path;

// The path and the entry of a line, which is given without its newline.
pub fn parse_line(line: &[u8]) -> Result<Row<Entry>, Cause>
    ensures { MatchResult result (λ row. line_of line.now ≡ Ok (row_of row)) (λ e. line_of line.now ≡ Err e) }
{
    let mut lexer = Lexer::of(line);
    let Token::Word(word) = lexer.token() else {
        return Err(Cause::Word);
    };
    let path = read_path(word.text)?;
    let value = lexer.entry()?;
    Ok(Row { path, value })
}
