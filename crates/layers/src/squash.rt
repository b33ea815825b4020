// Two layers made one.
ghost use Rattle.std.specs.Prelude.{◌≡◌, ◌<◌, length, Some, MatchOption, OnOk, OnErr, nat_lt};
ghost use Rattle.paths.specs.Paths.{names};
ghost use Rattle.rows.specs.Maps.{at};
ghost use Rattle.rows.specs.Tables.{listed};
ghost use Rattle.trees.specs.declared.fault.Fault.TheVariants.{NoRoom};
ghost use Rattle.edits.specs.Edits.{refuse_if, answered};
ghost use Rattle.marks.specs.Marks.{cut, unless};
ghost use Rattle.marks.specs.Squash.{over, squashed};
ghost use Rattle.layers.specs.Layers.{marks_of};

use crate::layer::{Layer, ROWS};
use marks::mark::Mark;
use paths::Path;
use rows::table::Table;
use trees::fault::Fault;

impl Layer {
    // The mark of a squash at a path, with this layer as the upper one and `lower` as the lower mark.
    fn squashed_mark(&self, path: &Path, lower: Mark) -> Option<Mark>
        ensures { result ≡ over (at (marks_of self.now) (names path.now)) (unless (cut (at (marks_of self.now)) (names path.now)) (Some lower)) }
    {
        let lower = (!self.cuts(path)).then_some(lower);
        self.mark(path).map(|mark| mark.over(lower)).or(lower)
    }

    // The rows of a squash with this layer as the upper one, if there is room for them: its own rows, and then at each path of
    // the lower layer the mark of the squash.
    fn squashed_rows(&self, lower: &Layer) -> Option<Table<Mark, ROWS>>
        ensures { MatchOption result (192 < length (squashed (marks_of self.now) (marks_of lower.now))) (λ rows. listed rows ≡ squashed (marks_of self.now) (marks_of lower.now)) }
    {
        let mut rows = Table::new(Mark::Whiteout);
        rows.insert(self.rows.as_rows());
        for row in lower.rows.as_rows() {
            if let Some(mark) = self.squashed_mark(&row.path, row.value) {
                if !rows.set(&row.path, mark) {
                    return None;
                }
            }
        }
        Some(rows)
    }
}

// Squashes two layers into a third. It is refused where that would have more than 192 rows, and `into` then stays as it was.
#[tactic(auto, using(crate::proofs::Squashing::squash_grows))]
pub fn squash(upper: &Layer, lower: &Layer, into: &mut Layer) -> Result<(), Fault>
    ensures answer { result ≡ answered (refuse_if (nat_lt 192 (length (squashed (marks_of upper.now) (marks_of lower.now)))) (NoRoom 0)) }
    ensures marks { OnOk result (marks_of into.new ≡ squashed (marks_of upper.now) (marks_of lower.now)) }
    ensures refused { OnErr result (into.new ≡ into.old) }
{
    into.rows = upper.squashed_rows(lower).ok_or(Fault::NoRoom(0))?;
    Ok(())
}
