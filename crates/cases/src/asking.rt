// What the tree of the base answers, and the same tree lent.
use crate::indexing::{print_entry, tree_of};
use crate::outcomes::print_answer;
use listing::list;
use manifests::index::blank_row;
use std::io;
use std::io::Write;
use trees::tree::Tree;

// What a line asks.
#[derive(Clone, Copy)]
pub(crate) enum Question<'a> {
    Look(&'a [u8]),
    // The next child of a path behind a name.
    Next(&'a [u8], &'a [u8]),
    List,
}

fn print_look<T: Tree>(rt: &HostRuntime, tree: &T, path: &[u8]) -> io::Result<()> {
    match tree.look(path) {
        Ok(entry) => print_entry(rt, entry),
        Err(fault) => rt.println(fault),
    }
}

fn print_next<T: Tree>(
    rt: &HostRuntime,
    tree: &T,
    path: &[u8],
    after: &[u8],
    buffer: &mut [u8],
) -> io::Result<()> {
    match tree.next(path, after, buffer) {
        Ok(Some(n)) => rt.println(n),
        Ok(None) => rt.println("none"),
        Err(fault) => rt.println(fault),
    }
}

// Prints an answer, and the whole buffer after it, of so many bytes and 300 at most.
fn ask<T: Tree>(rt: &HostRuntime, tree: &T, room: usize, question: Question<'_>) -> io::Result<()> {
    let mut buffer = [b'@'; 300];
    let buffer = &mut buffer[..room.min(300)];
    match question {
        Question::Look(path) => return print_look(rt, tree, path),
        Question::Next(path, after) => print_next(rt, tree, path, after, buffer)?,
        Question::List => print_answer(rt, list(tree, buffer))?,
    }
    rt.stdout().write_all(buffer)?;
    rt.print("\n")
}

pub(crate) fn ask_base(
    rt: &HostRuntime,
    base: &[u8],
    room: usize,
    question: Question<'_>,
) -> io::Result<()> {
    let mut rows = [blank_row(); 8];
    let Ok(tree) = tree_of(base, &mut rows) else {
        return rt.println("the base is refused");
    };
    ask(rt, &tree, room, question)?;
    ask(rt, &&tree, room, question)
}
