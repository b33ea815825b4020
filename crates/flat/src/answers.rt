// How a flat tree begins, and what it answers.
ghost use Rattle.std.specs.Prelude.{◌≡◌, [], ◌∷◌};
ghost use Rattle.rows.specs.Tables.{listed};
ghost use Rattle.trees.specs.declared.entry.Entry.TheVariants.{Dir};

use crate::Flat;
use paths::Path;
use rows::row::Row;
use rows::table::Table;
use trees::entry::{DirMeta, Entry};
use trees::fault::Fault;
use trees::store::{self, Store};
use trees::tree::Tree;

impl Flat {
    // The root alone.
    pub fn new() -> Flat
        ensures { listed result.rows ≡ ([], Dir (record { mode = 493 })) ∷ [] }
    {
        let root = Entry::Dir(DirMeta { mode: 0o755 });
        let mut rows = Table::new(root);
        rows.insert(&[Row {
            path: Path::root(),
            value: root,
        }]);
        Flat { rows }
    }
}

impl Store for Flat {
    ghost use Rattle.flat.specs.Meant.{entries_of};

    ghost stored = { entries_of };

    fn entry(&self, path: &Path) -> Option<Entry> {
        self.rows.find(path).copied()
    }

    #[tactic(auto, using(crate::proofs::Steps::parents))]
    fn child_after(&self, path: &Path, after: &[u8]) -> Option<Path> {
        self.rows.sorted().child_after(path, after)
    }
}

impl Tree for Flat {
    ghost use Rattle.flat.specs.Meant.{entries_of};

    ghost entries = { entries_of };

    fn look(&self, path: &[u8]) -> Result<Entry, Fault> {
        store::look(self, path)
    }

    fn next(&self, path: &[u8], after: &[u8], buffer: &mut [u8]) -> Result<Option<usize>, Fault> {
        store::next(self, path, after, buffer)
    }
}
