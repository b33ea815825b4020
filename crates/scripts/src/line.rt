// One line of a script.
ghost use Rattle.std.specs.Prelude.{◌≡◌, vec_items};
ghost use Rattle.scripts.specs.declared.verb.Verb.TheVariants.{Next as NextVerb, List as ListVerb};
ghost use Rattle.scripts.specs.Reads.{Reads};
ghost use Rattle.scripts.specs.Arguments.{left};
ghost use Rattle.scripts.specs.Lines.{meant, asked, line_of};

use crate::arguments::Arguments;
use crate::fault::LineFault;
use crate::values::zeros;
use crate::verb::Verb;
use archive::call::Call;
use edits::action::Action;
use std::alloc::Global;

// The bytes of the longest name, and of the longest listing.
const NAME: usize = 40;

const LISTING: usize = 65536;

#[derive(Drop)]
pub(crate) enum Line {
    Call(Call),
    File,
}

impl<'a> Arguments<'a> {
    fn next_line(&mut self) -> Result<Line, LineFault>
        ensures { Reads meant result (asked NextVerb (left self.old)) }
    {
        let (path, after) = self.path_and_name()?;
        let buffer = zeros(self.heap, NAME)?;
        Ok(Line::Call(Call::Next {
            path,
            after,
            buffer,
        }))
    }

    fn list_line(&self) -> Result<Line, LineFault>
        ensures { Reads meant result (asked ListVerb (left self.now)) }
    {
        self.end()?;
        let buffer = zeros(self.heap, LISTING)?;
        Ok(Line::Call(Call::List { buffer }))
    }

    // What the words that are left ask for.
    fn line(&mut self, verb: Verb) -> Result<Line, LineFault>
        ensures { Reads meant result (asked verb (left self.old)) }
    {
        let call = match verb {
            Verb::Look => Call::Look(self.path_alone()?),
            Verb::Next => return self.next_line(),
            Verb::List => return self.list_line(),
            Verb::Room => {
                self.end()?;
                Call::Room
            }
            Verb::Need => Call::Need(self.path_alone()?),
            Verb::Put => {
                let (path, entry) = self.path_and_file()?;
                Call::Edit(path, Action::Put(entry))
            }
            Verb::Mkdir => {
                let (path, mode) = self.path_and_mode()?;
                Call::Edit(path, Action::Mkdir(mode))
            }
            Verb::Chmod => {
                let (path, mode) = self.path_and_mode()?;
                Call::Edit(path, Action::Chmod(mode))
            }
            Verb::Remove => Call::Edit(self.path_alone()?, Action::Remove),
            Verb::File => {
                self.end()?;
                return Ok(Line::File);
            }
        };
        Ok(Line::Call(call))
    }
}

// What a line asks for, which is given without its newline.
pub(crate) fn read_line(heap: Global, line: &[u8]) -> Result<Line, LineFault>
    ensures { Reads meant result (line_of line.now) }
{
    let mut words = Arguments::of(heap, line);
    let verb = Verb::of(words.word()?).ok_or(LineFault::Unreadable)?;
    words.line(verb)
}
