// The rows of a manifest's text, line by line.
ghost use Rattle.std.specs.Prelude.{◌≡◌, ◌≤◌, ◌&&◌, [], ◌∷◌, ◌++◌, min, length, Ok, Err, IfOk, MatchResult, nat_le, true};
ghost use Rattle.paths.specs.Names.{begins};
ghost use Rattle.rows.specs.Rows.{row_of, rows_of};
ghost use Rattle.trees.specs.Entries.{Row as Meant, is_tree};
ghost use Rattle.listing.specs.Lines.{header};
ghost use Rattle.manifests.specs.Manifests.{indexed, rows_in};

use crate::fault::ManifestFault;
use crate::index::blank_row;
use arrayvec::ArrayVec;
use listing::HEADER;
use mtree::line::parse_line;
use rows::row::Row;
use trees::entry::Entry;
use words::fault::Cause;

mod admit;

// The most bytes of a text, and the most entries.
pub const MOST_BYTES: usize = 65536;

pub const MOST_ROWS: usize = 1024;

// Whether a text is short enough and begins with the line `#mtree`.
fn is_header(text: &[u8]) -> bool
    ensures { result ≡ (nat_le (length text.now) 65536 && begins header text.now) }
{
    text.len() <= MOST_BYTES && text.starts_with(HEADER)
}

// The rows of a text, as far as it is read, which make a tree: at most `limit`.
// The vector keeps a blank row, which fills the places that hold none.
#[derive(Drop)]
pub struct Reader {
    rows: ArrayVec<Row<Entry>, MOST_ROWS, Row<Entry>>,
    limit: usize,
    ghost room: { limit ≤ 1024 },
    ghost fits: { length rows.items ≤ limit },
    ghost built: { is_tree (rows_of rows.items) ≡ true },
}

impl Reader {
    ghost use Rattle.manifests.specs.Readers.{so_far, row_of_ended};

    // A reader without rows, which takes at most `given`. Inlined, so that it is made where it is filled.
    #[inline(always)]
    pub(crate) fn new(given: usize) -> Reader
        ensures rows { so_far result ≡ [] }
        ensures limit { result.limit ≡ min given 1024 }
    {
        Reader {
            rows: ArrayVec::new_in(blank_row()),
            limit: given.min(MOST_ROWS),
        }
    }

    // The rows read.
    pub fn rows(&self) -> &[Row<Entry>]
        ensures rows { rows_of result.now ≡ so_far self.now }
        ensures fits { length result.now ≤ self.now.limit }
    {
        self.rows.as_slice()
    }

    // Takes the row of one more line, which has to end with a newline.
    fn read_line(&mut self, line: &[u8]) -> Result<(), Cause>
        ensures rows { MatchResult result (λ _. (r : Meant) × (row_of_ended self.old.limit (so_far self.old) line.now ≡ Ok r) × (so_far self.new ≡ so_far self.old ++ r ∷ [])) (λ e. row_of_ended self.old.limit (so_far self.old) line.now ≡ Err e) }
        ensures limit { self.new.limit ≡ self.old.limit }
    {
        let line = line.strip_suffix(b"\n").ok_or(Cause::Word)?;
        let row = parse_line(line)?;
        self.admit(&row)?;
        self.rows.push(row);
        Ok(())
    }

    // Takes the rows of a text, where it has none yet; a refusal leaves those of the lines in front. Apart from `read`, since a
    // reader is large, and one that is handed on is copied with all its places: who needs it only for a while fills it where it is.
    pub(crate) fn fill(&mut self, text: &[u8]) -> Result<(), ManifestFault>
        requires { so_far self.old ≡ [] }
        ensures rows { MatchResult result (λ _. rows_in self.old.limit text.now ≡ Ok (so_far self.new)) (λ f. rows_in self.old.limit text.now ≡ Err f) }
        ensures limit { self.new.limit ≡ self.old.limit }
    {
        if !is_header(text) {
            return Err(ManifestFault {
                at: 0,
                cause: Cause::Header,
            });
        }
        // `at` is a sum of lengths, no index that is counted.
        let mut at = HEADER.len();
        for line in text[at..].split_inclusive(|byte| *byte == b'\n') {
            self.read_line(line)
                .map_err(|cause| ManifestFault { at, cause })?;
            at += line.len();
        }
        Ok(())
    }

    // The rows of a text; no more than `given`, and never more than 1,024.
    pub fn read(text: &[u8], given: usize) -> Result<Reader, ManifestFault>
        ensures rows { MatchResult result (λ r. indexed given text.now ≡ Ok (so_far r)) (λ f. indexed given text.now ≡ Err f) }
        ensures limit { IfOk result (λ r. r.limit ≡ min given 1024) }
    {
        let mut reader = Reader::new(given);
        reader.fill(text)?;
        Ok(reader)
    }
}
