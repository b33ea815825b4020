// What a path can do.
ghost use Rattle.std.specs.Prelude.{◌≡◌, ◌+◌, ◌<◌, ◌≤◌, true, [], ◌∷◌, ◌++◌, length, take, Decides, MatchOption};
ghost use Rattle.paths.specs.Names.{good, parent, prefixes, last_name, Under, Checked};
ghost use Rattle.paths.specs.Paths.{text, names, Parsed, child_fault, Child};

use crate::parts::last_piece;
use crate::prefixes::Prefixes;
use crate::{Path, PathFault, scan};

impl Path {
    // A path of bytes that are known to be good.
    pub(crate) fn of_good(bytes: &[u8]) -> Path
        requires { good bytes.now ≡ true }
        ensures { text result ≡ bytes.now }
    {
        let len = bytes.len();
        let mut held = [0; 120];
        held[..len].copy_from_slice(bytes);
        Path { bytes: held, len }
    }

    // The path without names.
    pub fn root() -> Path
        ensures { text result ≡ [] }
    {
        Path::of_good(&[])
    }

    // The path of a text, or what is wrong with the text. No `TryFrom`: at a call `parse` says more than `try_from`.
    pub fn parse(bytes: &[u8]) -> Result<Path, PathFault>
        ensures { Parsed bytes.now result }
    {
        scan::check(bytes)?;
        Ok(Path::of_good(bytes))
    }

    // The text of the path.
    pub fn as_bytes(&self) -> &[u8]
        ensures { result.now ≡ text self.now }
    {
        &self.bytes[..self.len]
    }

    // How many names there are.
    pub fn depth(&self) -> usize
        ensures value { result ≡ length (names self.now) }
        ensures bound { result ≤ 8 }
    {
        scan::count_names(self.as_bytes())
    }

    // The prefix of `k` names; the whole path, where there are no more.
    pub fn prefix(&self, k: usize) -> Path
        ensures { names result ≡ take k (names self.now) }
    {
        let bytes = self.as_bytes();
        let end = scan::prefix_end(bytes, k);
        Path::of_good(&bytes[..end])
    }

    // The prefixes, from the root to the whole path.
    pub fn prefixes(&self) -> Prefixes<'_>
        ensures value { result ≡ prefixes (names self.now) }
        ensures bound { length result ≤ 9 }
    {
        Prefixes {
            path: self,
            depth: 0,
            end: 0,
            last: self.depth(),
        }
    }

    // The path without its last name; the root has none.
    pub fn parent(&self) -> Option<Path>
        ensures { MatchOption result (names self.now ≡ []) (λ p. (0 < length (names self.now)) × (names p ≡ parent (names self.now))) }
    {
        let fewer = self.depth().checked_sub(1)?;
        Some(self.prefix(fewer))
    }

    // The last name; of the root, nothing.
    pub fn last_name(&self) -> &[u8]
        ensures { result.now ≡ last_name (names self.now) }
    {
        last_piece(self.as_bytes())
    }

    // Judges `name` as one more name.
    fn check_child(&self, name: &[u8]) -> Result<(), PathFault>
        ensures { Checked (child_fault (names self.now) name.now) result }
    {
        let whole = if self.len == 0 {
            name.len()
        } else {
            self.len + 1 + name.len()
        };
        if whole > 120 {
            return Err(PathFault::TooLong);
        }
        scan::check_name(self.depth(), name)
    }

    // The path with a `/` and `name` behind its text.
    fn extended(&self, name: &[u8]) -> Path
        requires fits { self.now.len + 1 + length name.now ≤ 120 }
        requires sound { good (text self.now ++ 47 ∷ name.now) ≡ true }
        ensures { text result ≡ text self.now ++ 47 ∷ name.now }
    {
        let n = self.len;
        let end = n + 1 + name.len();
        let mut held = self.bytes;
        held[n] = b'/';
        held[n + 1..end].copy_from_slice(name);
        Path::of_good(&held[..end])
    }

    // The path with one more name.
    pub fn child(&self, name: &[u8]) -> Result<Path, PathFault>
        ensures { Child self.now name.now result }
    {
        self.check_child(name)?;
        if self.len == 0 {
            Ok(Path::of_good(name))
        } else {
            Ok(self.extended(name))
        }
    }

    // Whether the other path is this one or lies under it.
    pub fn is_prefix_of(&self, other: &Path) -> bool
        ensures { Decides result (Under (names self.now) (names other.now)) }
    {
        self.len == 0 || scan::goes_on(self.as_bytes(), other.as_bytes())
    }
}
