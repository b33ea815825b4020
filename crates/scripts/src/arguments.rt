// The words of a line, read one by one.
ghost use Rattle.std.specs.Prelude.{◌≡◌, Some, vec_items};
ghost use Rattle.paths.specs.Pieces.{pieces};
ghost use Rattle.mtree.specs.Lexed.{tail};
ghost use Rattle.mtree.specs.Numbers.{content_of};
ghost use Rattle.scripts.specs.Reads.{Reads};
ghost use Rattle.scripts.specs.Values.{path_word, name_word, mode_word, size_word};
ghost use Rattle.scripts.specs.Arguments.{left, next_by, ended, path_alone, name_or_none, path_and_name, path_and_mode, path_and_file};

use crate::fault::LineFault;
use crate::values::{read_mode, read_name, read_path, read_size};
use mtree::numbers::read_content;
use mtree::pieces::Pieces;
use std::alloc::Global;
use trees::entry::{Entry, FileMeta};

#[derive(Clone, Copy)]
pub(crate) struct Arguments<'a> {
    pub heap: Global,
    pub words: Pieces<'a>,
}

impl<'a> Arguments<'a> {
    // The words of a line, with one space between neighbours.
    pub(crate) fn of(heap: Global, line: &'a [u8]) -> Arguments<'a>
        ensures { left result ≡ pieces 32 line.now }
    {
        Arguments {
            heap,
            words: Pieces::of(line, b' '),
        }
    }

    // The next word, which has to be there.
    pub(crate) fn word(&mut self) -> Result<&'a [u8], LineFault>
        ensures value { Reads (λ w. w.now) result (next_by Some (left self.old)) }
        ensures after { left self.new ≡ tail (left self.old) }
    {
        self.words.next().ok_or(LineFault::Unreadable)
    }

    // No word may be left.
    pub(crate) fn end(&self) -> Result<(), LineFault>
        ensures { Reads (λ u. u) result (ended tt (left self.now)) }
    {
        match self.words.rest {
            None => Ok(()),
            Some(_) => Err(LineFault::Unreadable),
        }
    }

    fn path(&mut self) -> Result<Vec<u8>, LineFault>
        ensures value { Reads vec_items result (next_by path_word (left self.old)) }
        ensures after { left self.new ≡ tail (left self.old) }
    {
        let word = self.word()?;
        read_path(self.heap, word)
    }

    fn mode(&mut self) -> Result<u16, LineFault>
        ensures value { Reads (λ m. m) result (next_by mode_word (left self.old)) }
        ensures after { left self.new ≡ tail (left self.old) }
    {
        let word = self.word()?;
        read_mode(word).ok_or(LineFault::Unreadable)
    }

    fn size(&mut self) -> Result<u64, LineFault>
        ensures value { Reads (λ s. s) result (next_by size_word (left self.old)) }
        ensures after { left self.new ≡ tail (left self.old) }
    {
        let word = self.word()?;
        read_size(word).ok_or(LineFault::Unreadable)
    }

    fn content(&mut self) -> Result<u64, LineFault>
        ensures value { Reads (λ c. c) result (next_by content_of (left self.old)) }
        ensures after { left self.new ≡ tail (left self.old) }
    {
        let word = self.word()?;
        read_content(word).ok_or(LineFault::Unreadable)
    }

    pub(crate) fn path_alone(&mut self) -> Result<Vec<u8>, LineFault>
        ensures { Reads vec_items result (path_alone (left self.old)) }
    {
        let path = self.path()?;
        self.end()?;
        Ok(path)
    }

    // The name of the last word; without one, the empty name.
    fn name_or_none(&mut self) -> Result<Vec<u8>, LineFault>
        ensures { Reads vec_items result (name_or_none (left self.old)) }
    {
        let Some(word) = self.words.next() else {
            return Ok(Vec::new(self.heap));
        };
        let name = read_name(self.heap, word)?;
        self.end()?;
        Ok(name)
    }

    pub(crate) fn path_and_name(&mut self) -> Result<(Vec<u8>, Vec<u8>), LineFault>
        ensures { Reads (λ r. (vec_items r.0, vec_items r.1)) result (path_and_name (left self.old)) }
    {
        let path = self.path()?;
        let name = self.name_or_none()?;
        Ok((path, name))
    }

    pub(crate) fn path_and_mode(&mut self) -> Result<(Vec<u8>, u16), LineFault>
        ensures { Reads (λ r. (vec_items r.0, r.1)) result (path_and_mode (left self.old)) }
    {
        let path = self.path()?;
        let mode = self.mode()?;
        self.end()?;
        Ok((path, mode))
    }

    pub(crate) fn path_and_file(&mut self) -> Result<(Vec<u8>, Entry), LineFault>
        ensures { Reads (λ r. (vec_items r.0, r.1)) result (path_and_file (left self.old)) }
    {
        let path = self.path()?;
        let mode = self.mode()?;
        let size = self.size()?;
        let content = self.content()?;
        self.end()?;
        let file = FileMeta {
            mode,
            size,
            content,
        };
        Ok((path, Entry::File(file)))
    }
}
