// The pieces of a layer file, field by field. No index is counted: a piece is pushed into a vector of its own.

#![tactic(auto, using(crate::proofs::Pushes::pushes))]

ghost use Rattle.std.specs.Prelude.{◌≡◌, ◌+◌, ◌≤◌, ◌++◌, length};
ghost use Rattle.std.specs.Int.{w16, w64, to_be_bytes};
ghost use Rattle.paths.specs.Paths.{names, text};
ghost use Rattle.rows.specs.Rows.{row_of};
ghost use Rattle.layer_fields.specs.Fields.{field_bytes};
ghost use Rattle.layer_fields.specs.Said.{version_field, text_field, entry_field, whiteout_field, count_field};
ghost use Rattle.layer_fields.specs.Texts.{whiteout_text, marker_text};
ghost use Rattle.layer_files.specs.Files.{row_bytes};

use arrayvec::ArrayVec;
use layer_fields::texts::{OPAQUE, WHITEOUT, before_last};
use marks::mark::Mark;
use paths::Path;
use paths::parts::last_piece;
use rows::row::Row;
use trees::entry::{Entry, FileMeta};

// There is room for the fields of an opaque directory with the longest path, and of its marker.
pub(crate) type Piece = ArrayVec<u8, 288>;

// The text of a path field: the longest path, and the longest name that is put to it.
type Text = ArrayVec<u8, 136>;

// Bytes, for which there is room.
fn push_bytes<const N: usize>(bytes: &mut ArrayVec<u8, N>, more: &[u8])
    requires { length bytes.old.items + length more.now ≤ N }
    ensures { bytes.new.items ≡ bytes.old.items ++ more.now }
{
    bytes.try_extend_from_slice(more).unwrap();
}

// A tag, the length of the value, and the value.
fn push_field(piece: &mut Piece, tag: u8, value: &[u8])
    requires { length piece.old.items + 3 + length value.now ≤ 288 }
    ensures { piece.new.items ≡ piece.old.items ++ field_bytes (tag, value.now) }
{
    let len = value.len() as u16;
    piece.push(tag);
    push_bytes(piece, &len.to_be_bytes());
    push_bytes(piece, value);
}

// The path of a whiteout, with `.wh.` before its last name.
fn whiteout_text(path: &Path) -> Text
    ensures { result.items ≡ whiteout_text (names path.now) }
{
    let path = path.as_bytes();
    let mut text = Text::new();
    push_bytes(&mut text, before_last(path));
    push_bytes(&mut text, WHITEOUT);
    push_bytes(&mut text, last_piece(path));
    text
}

// The path of the marker in an opaque directory.
fn marker_text(path: &Path) -> Text
    ensures { result.items ≡ marker_text (names path.now) }
{
    let path = path.as_bytes();
    let mut text = Text::new();
    push_bytes(&mut text, path);
    if !path.is_empty() {
        text.push(b'/');
    }
    push_bytes(&mut text, OPAQUE);
    text
}

fn push_text_field(piece: &mut Piece, text: &[u8])
    requires { length piece.old.items + 3 + length text.now ≤ 288 }
    ensures { piece.new.items ≡ piece.old.items ++ field_bytes (text_field text.now) }
{
    push_field(piece, 1, text);
}

// A file's mode in two bytes, its size and its content number in eight each.
fn file_value(file: FileMeta) -> ArrayVec<u8, 18>
    ensures { result.items ≡ to_be_bytes w16 file.mode ++ (to_be_bytes w64 file.size ++ to_be_bytes w64 file.content) }
{
    let mut value = ArrayVec::new();
    push_bytes(&mut value, &file.mode.to_be_bytes());
    push_bytes(&mut value, &file.size.to_be_bytes());
    push_bytes(&mut value, &file.content.to_be_bytes());
    value
}

fn push_entry_field(piece: &mut Piece, entry: Entry)
    requires { length piece.old.items + 21 ≤ 288 }
    ensures { piece.new.items ≡ piece.old.items ++ field_bytes (entry_field entry) }
{
    match entry {
        Entry::Dir(dir) => push_field(piece, 2, &dir.mode.to_be_bytes()),
        Entry::File(file) => push_field(piece, 3, &file_value(file)),
    }
}

// A path and its entry.
fn push_entry(piece: &mut Piece, path: &Path, entry: Entry)
    requires { length piece.old.items + 144 ≤ 288 }
    ensures { piece.new.items ≡ piece.old.items ++ (field_bytes (text_field (text path.now)) ++ field_bytes (entry_field entry)) }
{
    push_text_field(piece, path.as_bytes());
    push_entry_field(piece, entry);
}

// The path of a whiteout or of a marker, and nothing else.
fn push_whiteout(piece: &mut Piece, text: &[u8])
    requires { length piece.old.items + 6 + length text.now ≤ 288 }
    ensures { piece.new.items ≡ piece.old.items ++ (field_bytes (text_field text.now) ++ field_bytes whiteout_field) }
{
    push_text_field(piece, text);
    push_field(piece, 5, &[]);
}

// The fields of a row.
pub(crate) fn row_bytes(row: &Row<Mark>) -> Piece
    ensures { result.items ≡ row_bytes (row_of row.now) }
{
    let path = &row.path;
    let mut piece = Piece::new();
    match row.value {
        Mark::Whiteout => push_whiteout(&mut piece, &whiteout_text(path)),
        Mark::File(file) => push_entry(&mut piece, path, Entry::File(file)),
        Mark::Dir(dir) => push_entry(&mut piece, path, Entry::Dir(dir)),
        Mark::Opaque(dir) => {
            push_entry(&mut piece, path, Entry::Dir(dir));
            push_whiteout(&mut piece, &marker_text(path));
        }
    }
    piece
}

// The version, which stands before the rows.
pub(crate) fn version_bytes() -> Piece
    ensures { result.items ≡ field_bytes version_field }
{
    let mut piece = Piece::new();
    push_field(&mut piece, 0, &[1]);
    piece
}

// The number of rows, which stands behind them.
pub(crate) fn count_bytes(count: usize) -> Piece
    requires { count ≤ 192 }
    ensures { result.items ≡ field_bytes (count_field count) }
{
    let mut piece = Piece::new();
    push_field(&mut piece, 6, &(count as u16).to_be_bytes());
    piece
}
