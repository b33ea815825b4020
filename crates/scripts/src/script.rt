// A script, read whole before a call is made.
ghost use Rattle.std.specs.Prelude.{◌≡◌, Ok, Err, IfOk, MatchResult};
ghost use Rattle.paths.specs.Steps.{and_then_some};
ghost use Rattle.mtree.specs.Lexed.{unread};
ghost use Rattle.scripts.specs.Reads.{Reads};
ghost use Rattle.scripts.specs.Lines.{meant, line_of};
ghost use Rattle.scripts.specs.Scripts.{nothing, with_line, lines_of, script_of, requests_of};

use crate::fault::LineFault;
use crate::line::{Line, read_line};
use archive::call::Call;
use mtree::pieces::Pieces;
use std::alloc::{AllocError, Global};

#[derive(Drop)]
pub struct Script {
    // The calls before the line `file`; all of them where there is none.
    pub first: Vec<Call>,
    // Those behind it.
    pub later: Option<Vec<Call>>,
}

impl Script {
    fn new(heap: Global) -> Script
        ensures { requests_of result ≡ nothing }
    {
        Script {
            first: Vec::new(heap),
            later: None,
        }
    }

    // Takes one more line.
    fn add(&mut self, heap: Global, line: Line) -> Result<(), LineFault>
        ensures { Reads (λ _. requests_of self.new) result (with_line (requests_of self.old) (meant line)) }
    {
        match (line, &mut self.later) {
            (Line::Call(call), None) => self.first.push(call).map_err(AllocError::from)?,
            (Line::Call(call), Some(later)) => later.push(call).map_err(AllocError::from)?,
            (Line::File, None) => self.later = Some(Vec::new(heap)),
            (Line::File, Some(_)) => return Err(LineFault::Unreadable),
        }
        Ok(())
    }

    // Reads one more line.
    fn read_line(&mut self, heap: Global, line: &[u8]) -> Result<(), LineFault>
        ensures { Reads (λ _. requests_of self.new) result (and_then_some (line_of line.now) (with_line (requests_of self.old))) }
    {
        let line = read_line(heap, line)?;
        self.add(heap, line)
    }
}

// The lines of a text, each without its newline.
fn lines(text: &[u8]) -> Pieces<'_>
    ensures { unread result ≡ lines_of text.now }
{
    let rest = match text {
        [] => None,
        _ => Some(text.strip_suffix(b"\n").unwrap_or(text)),
    };
    Pieces {
        rest,
        separator: b'\n',
    }
}

// The calls that a text asks for, or the number of its first line that cannot be read, counted from 1.
#[tactic(auto, using(crate::proofs::Turns::script_steps))]
pub fn read_script(heap: Global, text: &[u8]) -> Result<Result<Script, usize>, AllocError>
    ensures { IfOk result (λ read. MatchResult read (λ s. script_of text.now ≡ Ok (requests_of s)) (λ n. script_of text.now ≡ Err n)) }
{
    let mut script = Script::new(heap);
    let mut number = 0;
    for line in lines(text) {
        number += 1;
        match script.read_line(heap, line) {
            Ok(()) => {}
            Err(LineFault::Unreadable) => return Ok(Err(number)),
            Err(LineFault::Memory(error)) => return Err(error),
        }
    }
    Ok(Ok(script))
}
