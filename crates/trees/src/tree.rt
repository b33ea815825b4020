// What a tree answers.
ghost use Rattle.std.specs.Prelude.{◌≡◌, length};
ghost use Rattle.trees.specs.Entries.{Entries};
ghost use Rattle.trees.specs.Answers.{look_of, next_of, counted, put_name};

use crate::entry::Entry;
use crate::fault::Fault;

// Not given to each `Store` at once: that would overlap the impl for `&T` below, and a `Store` asked of each tree
// would ask more of those who have none. The gate refuses an impl that a macro writes.
pub trait Tree {
    ghost entries: { Self → Entries };

    fn look(&self, path: &[u8]) -> Result<Entry, Fault>
        ensures { result ≡ look_of (entries self.now).rows path.now };

    // Writes the least name below `path` that is greater than `after`.
    fn next(&self, path: &[u8], after: &[u8], buffer: &mut [u8]) -> Result<Option<usize>, Fault>
        ensures exact { result ≡ counted (next_of (entries self.now).rows path.now after.now (length buffer.old)) }
        ensures written { buffer.new ≡ put_name (next_of (entries self.now).rows path.now after.now (length buffer.old)) buffer.old };
}

// A tree lent is a tree.
impl<T: Tree> Tree for &T {
    ghost entries = { λ t. T.Tree.entries t.now };

    fn look(&self, path: &[u8]) -> Result<Entry, Fault> {
        (**self).look(path)
    }

    fn next(&self, path: &[u8], after: &[u8], buffer: &mut [u8]) -> Result<Option<usize>, Fault> {
        (**self).next(path, after, buffer)
    }
}
