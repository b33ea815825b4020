// What an index writes, and what a load says of rows.
use crate::outcomes::{print_answer, print_listing};
use base::Manifest;
use manifests::fault::ManifestFault;
use manifests::index::{blank_row, index};
use rows::row::Row;
use std::alloc::{AllocError, Global};
use std::io;
use std::io::Write;
use trees::entry::Entry;

// Printed here: no product prints an entry so.
pub(crate) fn print_entry(rt: &HostRuntime, entry: Entry) -> io::Result<()> {
    match entry {
        Entry::Dir(dir) => println!(rt; "dir {:o}", dir.mode),
        Entry::File(file) => println!(rt; "file {:o} {} {:x}", file.mode, file.size, file.content),
    }
}

// The tree of a manifest's text, over its rows.
pub(crate) fn tree_of<'a>(
    text: &[u8],
    rows: &'a mut [Row<Entry>],
) -> Result<Manifest<'a>, ManifestFault> {
    let count = index(text, rows)?;
    Manifest::read(text, &rows[..count])
}

// Prints what an index says where so many rows are lent, each the file `mark`, and the rows after it.
pub(crate) fn print_index(rt: &HostRuntime, text: &[u8], given: usize) -> io::Result<()> {
    let given = given.min(8);
    let mut rows = [blank_row(); 8];
    let marks =
        b"#mtree\n. type=dir mode=0755\n./mark type=file mode=0001 size=2 content=0000000000000003\n";
    if index(marks, &mut rows).is_ok() {
        rows = [rows[1]; 8];
    }
    print_answer(rt, index(text, &mut rows[..given]))?;
    for row in &rows[..given] {
        rt.stdout().write_all(row.path.as_bytes())?;
        rt.print(" ")?;
        print_entry(rt, row.value)?;
    }
    Ok(())
}

// The rows that digits name, and blank ones for other bytes.
fn picked(heap: Global, rows: &[Row<Entry>], digits: &[u8]) -> Result<Vec<Row<Entry>>, AllocError> {
    digits
        .iter()
        .map(|digit| {
            let at = usize::from(digit.wrapping_sub(b'0'));
            rows.get(at).copied().unwrap_or_else(blank_row)
        })
        .collect(heap)
}

// Loads a text, with picked rows of the base, into a tree that holds the base; then lists the tree.
pub(crate) fn print_load(
    rt: &HostRuntime,
    base: &[u8],
    digits: &[u8],
    text: &[u8],
) -> io::Result<()> {
    let mut rows = [blank_row(); 8];
    let Ok(count) = index(base, &mut rows) else {
        return rt.println("the base is refused");
    };
    let some = picked(rt.alloc(), &rows[..count], digits)?;
    let Ok(mut tree) = tree_of(base, &mut rows) else {
        return rt.println("the base is refused");
    };
    print_answer(rt, tree.load(text, some.as_slice()).map(|()| "loaded"))?;
    print_listing(rt, &tree, base)
}
