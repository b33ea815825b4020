// The prefixes of a path, one by one.
ghost use Rattle.std.specs.Prelude.{◌≡◌, ◌≤◌, length, take};
ghost use Rattle.paths.specs.Names.{join};
ghost use Rattle.paths.specs.Paths.{names};

use crate::Path;
use crate::scan::next_end;
use std::marker::Model;

// Seen as the list of the prefixes that are left, each as its names.
#[derive(Drop)]
pub struct Prefixes<'a> {
    pub(crate) path: &'a Path,
    // How many names the prefix has that comes next.
    pub(crate) depth: usize,
    // Where that prefix ends in the text: the next is looked for from here on, and not from the beginning.
    pub(crate) end: usize,
    // How many names the path has: counted once, and not again for each prefix.
    pub(crate) last: usize,
    ghost stands: { end ≡ length (join (take depth (names path.now))) },
    ghost whole: { last ≡ length (names path.now) },
    ghost few: { last ≤ 8 },
}

impl<'a> Model for Prefixes<'a> {
    ghost use Rattle.std.specs.Prelude.{ℕ, List};
    ghost use Rattle.paths.specs.Paths.{prefixes_left};

    ghost Value = { List (List (List ℕ)) };

    ghost view = { λ s. prefixes_left s.path.now s.depth };
}

impl<'a> Iterator for Prefixes<'a> {
    ghost use Rattle.std.specs.Iterator.{YieldsFirstBy, item_count};

    type Item = Path;

    ghost next_gives = { YieldsFirstBy names (λ left. left) };

    ghost remaining = { item_count (λ left. left) };

    fn next(&mut self) -> Option<Path> {
        if self.depth > self.last {
            return None;
        }
        let bytes = self.path.as_bytes();
        let prefix = Path::of_good(&bytes[..self.end]);
        self.end = next_end(bytes, self.depth, self.end);
        self.depth += 1;
        Some(prefix)
    }
}
