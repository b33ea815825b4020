// What becomes of a manifest's text.
use crate::indexing::tree_of;
use manifests::index::blank_row;
use reports::report::{Report, report_tree};
use std::fmt::Display;
use std::io;
use std::io::Write;
use trees::tree::Tree;

// Prints an answer, or the fault in place of one.
pub(crate) fn print_answer<T: Display + Drop, E: Display + Drop>(
    rt: &HostRuntime,
    answer: Result<T, E>,
) -> io::Result<()> {
    match answer {
        Ok(value) => rt.println(value),
        Err(fault) => rt.println(fault),
    }
}

pub(crate) fn print_report(rt: &HostRuntime, report: Report) -> io::Result<()> {
    match report {
        Ok(listing) => rt.stdout().write_all(listing.as_slice()),
        Err(line) => rt.print(line.as_str()),
    }
}

// Prints a tree's listing, or `same` where it is the text.
pub(crate) fn print_listing<T: Tree>(rt: &HostRuntime, tree: &T, text: &[u8]) -> io::Result<()> {
    let report = report_tree(rt.alloc(), tree)?;
    if report
        .as_ref()
        .is_ok_and(|listing| listing.as_slice() == text)
    {
        rt.println("same")
    } else {
        print_report(rt, report)
    }
}

// Prints the listing of a manifest's tree, or why the manifest is refused, where so many rows are lent.
pub(crate) fn print_outcome(rt: &HostRuntime, text: &[u8], given: usize) -> io::Result<()> {
    let mut rows = vec![in rt.alloc(); blank_row(); given]?;
    match tree_of(text, rows.as_mut_slice()) {
        Ok(tree) => print_listing(rt, &tree, text),
        Err(fault) => rt.println(fault),
    }
}
