// Sessions and sealed piles as trees.
ghost use Rattle.sessions.specs.Sessions.{seen_of};

use crate::session::{Sealed, Session};
use trees::entry::Entry;
use trees::fault::Fault;
use trees::store;
use trees::tree::Tree;

impl<T: Tree> Tree for Session<T> {
    ghost entries = { λ s. seen_of T.Tree.entries s };

    fn look(&self, path: &[u8]) -> Result<Entry, Fault> {
        store::look(self, path)
    }

    fn next(&self, path: &[u8], after: &[u8], buffer: &mut [u8]) -> Result<Option<usize>, Fault> {
        store::next(self, path, after, buffer)
    }
}

impl<T: Tree> Tree for Sealed<T> {
    ghost entries = { λ s. seen_of T.Tree.entries s.session };

    fn look(&self, path: &[u8]) -> Result<Entry, Fault> {
        self.session.look(path)
    }

    fn next(&self, path: &[u8], after: &[u8], buffer: &mut [u8]) -> Result<Option<usize>, Fault> {
        self.session.next(path, after, buffer)
    }
}
