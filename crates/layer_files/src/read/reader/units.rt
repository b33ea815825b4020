// What stands next in a file: a row, with the marker that may follow it, or the end.
ghost use Rattle.std.specs.Prelude.{◌≡◌, ◌+◌, ℕ, length, Ok, Err, Some, None, MatchOption, MatchResult};
ghost use Rattle.paths.specs.Paths.{names};
ghost use Rattle.rows.specs.Rows.{row_of};
ghost use Rattle.layers.specs.Layers.{marks_of};
ghost use Rattle.layer_fields.specs.Texts.{has_whiteout_prefix};
ghost use Rattle.layer_files.specs.Reads.{taken, mark_in, marked_row, ended, row_step, unit_at};
ghost use Rattle.layer_files.specs.Readers.{opaque_at};

use crate::read::admit::place;
use crate::read::marker::is_marker_of;
use crate::read::reader::{Reader, misplaced};
use layer_fields::fault::{Cause, LayerFault};
use layer_fields::texts::{has_whiteout_prefix, is_marker};
use layers::layer::Layer;
use marks::mark::Mark;
use paths::Path;
use rows::row::Row;

impl Reader<'_> {
    // The mark of a row, whose path field has that text.
    fn mark(&mut self, text: &[u8]) -> Result<Mark, LayerFault>
        ensures bytes { self.new.bytes.now ≡ self.old.bytes.now }
        ensures mark { MatchResult result (λ m. (n : ℕ) × (taken (mark_in (has_whiteout_prefix text.now)) self.old.bytes.now self.old.at ≡ Ok (m, n)) × (self.new.at ≡ self.old.at + n)) (λ e. taken (mark_in (has_whiteout_prefix text.now)) self.old.bytes.now self.old.at ≡ Err e) }
    {
        if has_whiteout_prefix(text) {
            self.whiteout()?;
            return Ok(Mark::Whiteout);
        }
        let at = self.at;
        let Some(entry) = self.field()?.entry() else {
            return Err(misplaced(at));
        };
        Ok(Mark::from(entry))
    }

    // Goes past the marker of a directory, if it stands here; says whether it did.
    fn marker(&mut self, dir: &Path) -> Result<bool, LayerFault>
        ensures bytes { self.new.bytes.now ≡ self.old.bytes.now }
        ensures marker { MatchResult result (λ o. opaque_at (names dir.now) self.old.bytes.now self.old.at ≡ Ok (o, self.new.at)) (λ e. opaque_at (names dir.now) self.old.bytes.now self.old.at ≡ Err e) }
    {
        let Some(field) = self.peek() else {
            return Ok(false);
        };
        if !field.text().is_some_and(|text| is_marker_of(dir, text)) {
            return Ok(false);
        }
        self.skip(field);
        self.whiteout()?;
        Ok(true)
    }

    // A row, with the marker that may follow it.
    fn marked(&mut self, row: Row<Mark>) -> Result<Row<Mark>, LayerFault>
        ensures bytes { self.new.bytes.now ≡ self.old.bytes.now }
        ensures row { MatchResult result (λ r. marked_row self.old.bytes.now (row_of row, self.old.at) ≡ Ok (row_of r, self.new.at)) (λ e. marked_row self.old.bytes.now (row_of row, self.old.at) ≡ Err e) }
    {
        let Mark::Dir(dir) = row.value else {
            return Ok(row);
        };
        if !self.marker(&row.path)? {
            return Ok(row);
        }
        Ok(Row {
            path: row.path,
            value: Mark::Opaque(dir),
        })
    }

    // At the count: as many rows as it says, and no byte behind it.
    fn end(&self, at: usize, count: u16, seen: &Layer) -> Result<(), LayerFault>
        requires { self.now.at ≡ at + 5 }
        ensures { MatchResult result (λ _. ended (marks_of seen.now) self.now.bytes.now at count ≡ Ok None) (λ e. ended (marks_of seen.now) self.now.bytes.now at count ≡ Err e) }
    {
        if usize::from(count) != seen.count() {
            return Err(LayerFault {
                at,
                cause: Cause::Count,
            });
        }
        if self.at != self.bytes.len() {
            return Err(LayerFault {
                at: self.at,
                cause: Cause::Count,
            });
        }
        Ok(())
    }

    // The row whose path field, with that text, began at `at`, and the marker that may follow it.
    fn placed_row(&mut self, at: usize, text: &[u8], seen: &Layer) -> Result<Row<Mark>, LayerFault>
        requires { self.old.at ≡ at + (3 + length text.now) }
        ensures bytes { self.new.bytes.now ≡ self.old.bytes.now }
        ensures row { MatchResult result (λ r. row_step (marks_of seen.now) self.old.bytes.now at text.now ≡ Ok (Some (row_of r, self.new.at))) (λ e. row_step (marks_of seen.now) self.old.bytes.now at text.now ≡ Err e) }
    {
        if is_marker(text) {
            return Err(misplaced(at));
        }
        let mark = self.mark(text)?;
        let row = place(seen, text, mark).map_err(|cause| LayerFault { at, cause })?;
        self.marked(row)
    }

    // What stands next, behind the rows seen: a row, or the end.
    pub(in crate::read) fn row(&mut self, seen: &Layer) -> Result<Option<Row<Mark>>, LayerFault>
        ensures bytes { self.new.bytes.now ≡ self.old.bytes.now }
        ensures row { MatchResult result (λ o. MatchOption o (unit_at (marks_of seen.now) self.old.bytes.now self.old.at ≡ Ok None) (λ r. unit_at (marks_of seen.now) self.old.bytes.now self.old.at ≡ Ok (Some (row_of r, self.new.at)))) (λ e. unit_at (marks_of seen.now) self.old.bytes.now self.old.at ≡ Err e) }
    {
        let at = self.at;
        let field = self.field()?;
        if let Some(text) = field.text() {
            let row = self.placed_row(at, text, seen)?;
            return Ok(Some(row));
        }
        let Some(count) = field.count() else {
            return Err(misplaced(at));
        };
        self.end(at, count, seen)?;
        Ok(None)
    }
}
