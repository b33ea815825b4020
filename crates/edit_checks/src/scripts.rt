// Runs scripts. Each line has a call, ` = ` and its answer.
use crate::calls::{Call, Question, call_of, first_word, question_of};
use edits::editable::Editable;
use layers::layer::Layer;
use marks::mark::Mark;
use paths::Path;
use std::alloc::{AllocError, Global};
use std::fmt::Display;
use std::process::Abort;
use std::test::Fail;
use trees::entry::Entry;
use trees::fault::Fault;
use trees::tree::Tree;

// An answer, or the fault in place of one.
pub(crate) fn told<A: Display + Drop>(
    heap: Global,
    answer: Result<A, Fault>,
) -> Result<String, AllocError> {
    match answer {
        Ok(value) => value.to_string(heap),
        Err(fault) => fault.to_string(heap),
    }
}

pub(crate) fn shown(heap: Global, entry: Entry) -> Result<String, AllocError> {
    match entry {
        Entry::Dir(dir) => format!(in heap; "dir {:o}", dir.mode),
        Entry::File(file) => {
            format!(in heap; "file {:o} {} {:x}", file.mode, file.size, file.content)
        }
    }
}

fn looked<T: Tree>(heap: Global, tree: &T, path: &str) -> Result<String, AllocError> {
    match tree.look(path.as_bytes()) {
        Ok(entry) => shown(heap, entry),
        Err(fault) => fault.to_string(heap),
    }
}

fn stepped<T: Tree>(
    heap: Global,
    tree: &T,
    path: &str,
    after: &str,
    buffer: &mut [u8],
) -> Result<String, AllocError> {
    match tree.next(path.as_bytes(), after.as_bytes(), buffer) {
        Ok(Some(n)) => String::from_utf8_lossy(heap, &buffer[..n.min(buffer.len())]),
        Ok(None) => String::from_str(heap, "none"),
        Err(fault) => fault.to_string(heap),
    }
}

fn answered<T: Tree>(heap: Global, tree: &T, question: Question<'_>) -> Result<String, AllocError> {
    match question {
        Question::Look(path) => looked(heap, tree, path),
        Question::Next(path, after, room) => {
            stepped(heap, tree, path, after, &mut [0; 40][..room.min(40)])
        }
    }
}

// What a call answers. An edit that is granted says `done`.
fn called<T: Editable>(heap: Global, tree: &mut T, call: Call<'_>) -> Result<String, AllocError> {
    let edited = match call {
        Call::Ask(question) => return answered(heap, tree, question),
        Call::Room => return tree.room().to_string(heap),
        Call::Need(path) => return told(heap, tree.need(path.as_bytes())),
        Call::Put(path, entry) => tree.put(path.as_bytes(), entry),
        Call::Mkdir(path, mode) => tree.mkdir(path.as_bytes(), mode),
        Call::Chmod(path, mode) => tree.chmod(path.as_bytes(), mode),
        Call::Remove(path) => tree.remove(path.as_bytes()),
    };
    told(heap, edited.map(|()| "done"))
}

fn run_line<T: Editable>(
    rt: &(impl Abort + AllocGlobal),
    tree: &mut T,
    line: &str,
) -> Result<(), Fail> {
    let (call, wanted) = line.split_once(" = ").ok_or("no answer")?;
    let call = call_of(call).ok_or("no call")?;
    let said = called(rt.alloc(), tree, call)?;
    assert_eq!(rt; said.as_str(), wanted, "{}", line);
    Ok(())
}

// Makes the calls of a script on an editable tree, and compares the answers.
pub(crate) fn run<T: Editable>(
    rt: &(impl Abort + AllocGlobal),
    tree: &mut T,
    script: &str,
) -> Result<(), Fail> {
    for line in script.lines() {
        run_line(rt, tree, line)?;
    }
    Ok(())
}

fn ask_line<T: Tree>(rt: &(impl Abort + AllocGlobal), tree: &T, line: &str) -> Result<(), Fail> {
    let (question, wanted) = line.split_once(" = ").ok_or("no answer")?;
    let question = question_of(question).ok_or("no question")?;
    let said = answered(rt.alloc(), tree, question)?;
    assert_eq!(rt; said.as_str(), wanted, "{}", line);
    Ok(())
}

// The same of questions alone, which any tree answers.
pub(crate) fn ask<T: Tree>(
    rt: &(impl Abort + AllocGlobal),
    tree: &T,
    script: &str,
) -> Result<(), Fail> {
    for line in script.lines() {
        ask_line(rt, tree, line)?;
    }
    Ok(())
}

fn marked(heap: Global, mark: Option<Mark>) -> Result<String, AllocError> {
    match mark {
        None => String::from_str(heap, "N"),
        Some(Mark::Whiteout) => String::from_str(heap, "W"),
        Some(Mark::Dir(dir)) => format!(in heap; "D {:o}", dir.mode),
        Some(Mark::Opaque(dir)) => format!(in heap; "O {:o}", dir.mode),
        Some(Mark::File(file)) => {
            format!(in heap; "F {:o} {} {:x}", file.mode, file.size, file.content)
        }
    }
}

fn mark_line(rt: &(impl Abort + AllocGlobal), layer: &Layer, line: &str) -> Result<(), Fail> {
    let (path, wanted) = line.split_once(" = ").ok_or("no mark")?;
    let (path, _) = first_word(path);
    let path = Path::parse(path.as_bytes())?;
    let said = marked(rt.alloc(), layer.mark(&path))?;
    assert_eq!(rt; said.as_str(), wanted, "{}", line);
    Ok(())
}

// Compares the marks of a layer, and the number of its rows. A line has a path, ` = ` and the mark there.
pub(crate) fn see_marks(
    rt: &(impl Abort + AllocGlobal),
    layer: &Layer,
    rows: usize,
    script: &str,
) -> Result<(), Fail> {
    assert_eq!(rt; layer.count(), rows);
    for line in script.lines() {
        mark_line(rt, layer, line)?;
    }
    Ok(())
}
