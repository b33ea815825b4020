// The rows that an edit writes: a mark at its path, and the directories above that have none yet.
ghost use Rattle.std.specs.Prelude.{◌≡◌, true};
ghost use Rattle.paths.specs.Paths.{names};
ghost use Rattle.rows.specs.Maps.{under};
ghost use Rattle.rows.specs.Tables.{listed};
ghost use Rattle.sessions.specs.Sessions.{marks_in, rows_below};
ghost use Rattle.sessions.specs.Copies.{fresh_mark, fresh_rows};

use crate::session::Session;
use marks::mark::Mark;
use paths::Path;
use rows::row::Row;
use rows::table::Table;
use trees::entry::Entry;
use trees::store::Store;
use trees::tree::Tree;

impl<T: Tree> Session<T> {
    // The mark that a prefix of the path gets, which has none yet: directories are copied up.
    fn fresh_mark(&self, path: &Path, mark: Mark, above: &Path) -> Option<Mark>
        requires { under (names above.now) (names path.now) ≡ true }
        ensures { result ≡ fresh_mark mark (marks_in self.now) (rows_below T.Tree.entries self.now) (names path.now) (names above.now) }
    {
        if self.layer.mark(above).is_some() {
            return None;
        }
        if path == above {
            return Some(mark);
        }
        self.entry(above).filter(Entry::is_dir).map(Mark::from)
    }

    // The prefixes of the path without a row, each with its new mark.
    pub(crate) fn fresh_rows(&self, path: &Path, mark: Mark) -> Table<Mark, 9>
        ensures { listed result ≡ fresh_rows mark (marks_in self.now) (rows_below T.Tree.entries self.now) (names path.now) }
    {
        let mut rows = Table::new(mark);
        for above in path.prefixes() {
            if let Some(value) = self.fresh_mark(path, mark, &above) {
                let _ = rows.insert(&[Row { path: above, value }]);
            }
        }
        rows
    }
}
