// The entry that the keywords of a line give, judged from the left.
ghost use Rattle.std.specs.Prelude.{◌≡◌, Option, Ok, Err, MatchResult};
ghost use Rattle.mtree.specs.Lexed.{fields_left, tail, Begun};
ghost use Rattle.mtree.specs.Keywords.{expected, no_more, dir_of, file_of, entry_of};
ghost use Rattle.std.specs.Option.{ok_or};
ghost use Rattle.std.specs.Fn.{FnOnceReturnsAt};

use crate::lexer::{Lexer, Token};
use crate::numbers::{read_content, read_mode, read_size};
use trees::entry::{DirMeta, Entry, FileMeta};
use words::fault::Cause;

impl<'a> Lexer<'a> {
    // The value of the next keyword, which has to have that name.
    fn value(&mut self, wanted: &[u8]) -> Result<&'a [u8], Cause>
        requires { Begun self.old }
        ensures value { MatchResult result (λ v. expected wanted.now (fields_left self.old) ≡ Ok v.now) (λ e. expected wanted.now (fields_left self.old) ≡ Err e) }
        ensures after { fields_left self.new ≡ tail (fields_left self.old) }
        ensures begun { Begun self.new }
    {
        match self.token() {
            Token::Keyword { name, value } if name.text == wanted => Ok(value.text),
            _ => Err(Cause::Keyword),
        }
    }

    // The number that the next keyword gives, which has to have that name.
    fn number<T, F: FnOnce(&[u8]) -> Option<T>>(
        &mut self,
        wanted: &[u8],
        read: F,
    ) -> Result<T, Cause>
        requires begun { Begun self.old }
        requires callable { F.IsAlwaysCallable read }
        ensures value { MatchResult (expected wanted.now (fields_left self.old)) (λ v. (r : Option T) × FnOnceReturnsAt F.FnOnce read v r × (result ≡ ok_or r Cause.Value)) (λ e. result ≡ Err e) }
        ensures after { fields_left self.new ≡ tail (fields_left self.old) }
        ensures begun { Begun self.new }
    {
        let value = self.value(wanted)?;
        read(value).ok_or(Cause::Value)
    }

    // The entry, if no field is left.
    fn finish(&mut self, entry: Entry) -> Result<Entry, Cause>
        ensures { result ≡ no_more (fields_left self.old) entry }
    {
        match self.token() {
            Token::End { .. } => Ok(entry),
            _ => Err(Cause::Keyword),
        }
    }

    fn dir(&mut self) -> Result<Entry, Cause>
        requires { Begun self.old }
        ensures { result ≡ dir_of (fields_left self.old) }
    {
        let mode = self.number(b"mode", read_mode)?;
        self.finish(Entry::Dir(DirMeta { mode }))
    }

    fn file(&mut self) -> Result<Entry, Cause>
        requires { Begun self.old }
        ensures { result ≡ file_of (fields_left self.old) }
    {
        let mode = self.number(b"mode", read_mode)?;
        let size = self.number(b"size", read_size)?;
        let content = self.number(b"content", read_content)?;
        self.finish(Entry::File(FileMeta {
            mode,
            size,
            content,
        }))
    }

    // The entry of the fields that are left.
    pub(crate) fn entry(&mut self) -> Result<Entry, Cause>
        requires { Begun self.old }
        ensures { result ≡ entry_of (fields_left self.old) }
    {
        match self.value(b"type")? {
            b"dir" => self.dir(),
            b"file" => self.file(),
            _ => Err(Cause::Value),
        }
    }
}
