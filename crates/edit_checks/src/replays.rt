// Lists of calls made by the archive: on a session over each kind of tree, in two parts, and with a filing between them.
use crate::calls;
use crate::calls::{Question, call_of, first_word};
use crate::kit::{ASKED, KIT, flat_kit};
use crate::scripts::{ask, see_marks, shown, told};
use archive::call::Call;
use archive::filing::refile;
use archive::replay::{replay, replay_on};
use archive::reply::Reply;
use base::Manifest;
use edits::action::Action;
use layer_files::read::read;
use layers::layer::Layer;
use manifests::index::{blank_row, index};
use std::alloc::{AllocError, Global};
use std::process::Abort;
use std::test::Fail;
use trees::fault::Fault;
use trees::tree::Tree;

// A call, what is answered, and the buffer afterwards. Each buffer is full of `@` before.
type Line = (&'static str, &'static str, &'static str);

// A call of each kind that is granted, and one that is refused.
const FIRST: [Line; 27] = [
    ("look etc/coin", "file 644 12 a1", ""),
    ("look etc/coin/x", "t 11 3", ""),
    (
        "next etc coin",
        "5",
        "trays@@@@@@@@@@@@@@@@@@@@@@@@@@@@@@@@@@@",
    ),
    (
        "next etc trays",
        "none",
        "@@@@@@@@@@@@@@@@@@@@@@@@@@@@@@@@@@@@@@@@",
    ),
    (
        "next etc/coin ''",
        "t 11 3",
        "@@@@@@@@@@@@@@@@@@@@@@@@@@@@@@@@@@@@@@@@",
    ),
    (
        "short etc ''",
        "t 21 0",
        "@@@@@@@@@@@@@@@@@@@@@@@@@@@@@@@@@@@@@@@",
    ),
    (
        "list 220",
        "215",
        "#mtree\n. type=dir mode=0755\n./etc type=dir mode=0755\n./etc/coin type=file mode=0644 size=12 content=00000000000000a1\n./etc/trays type=dir mode=0755\n./etc/trays/t1 type=file mode=0644 size=5 content=00000000000000b2\n@@@@@",
    ),
    ("list 7", "t 21 0", "@@@@@@@"),
    ("room", "192", ""),
    ("need etc/coin", "3", ""),
    ("need etc/", "p 2 1", ""),
    ("put etc/coin file 644 14 a2", "done", ""),
    ("put etc file 644 0 0", "t 12 2", ""),
    ("look etc/coin", "file 644 14 a2", ""),
    ("room", "189", ""),
    ("need etc/coin", "0", ""),
    ("remove etc/coin", "done", ""),
    ("remove etc/trays", "t 15 3", ""),
    ("remove etc/trays/t1", "done", ""),
    ("room", "187", ""),
    ("remove etc/trays", "done", ""),
    ("mkdir etc/trays 755", "done", ""),
    ("mkdir etc/trays 755", "t 13 3", ""),
    ("chmod etc/trays 750", "done", ""),
    ("chmod etc/coin 600", "t 10 2", ""),
    ("room", "188", ""),
    (
        "list 90",
        "84",
        "#mtree\n. type=dir mode=0755\n./etc type=dir mode=0755\n./etc/trays type=dir mode=0750\n@@@@@@",
    ),
];

// Calls behind those: what was made by them still is.
const SECOND: [Line; 14] = [
    ("look etc/trays", "dir 750", ""),
    ("look etc/trays/t1", "t 10 3", ""),
    (
        "next etc ''",
        "5",
        "trays@@@@@@@@@@@@@@@@@@@@@@@@@@@@@@@@@@@",
    ),
    ("room", "188", ""),
    ("need etc/trays/t1", "1", ""),
    ("mkdir etc/coin 700", "done", ""),
    ("room", "188", ""),
    ("remove etc/trays", "done", ""),
    ("put etc/trays file 600 7 c3", "done", ""),
    ("put etc/trays/t1 file 600 7 c3", "t 11 3", ""),
    ("chmod etc 10000", "t 17 0", ""),
    ("room", "188", ""),
    (
        "list 147",
        "147",
        "#mtree\n. type=dir mode=0755\n./etc type=dir mode=0755\n./etc/coin type=dir mode=0700\n./etc/trays type=file mode=0600 size=7 content=00000000000000c3\n",
    ),
    (
        "list 146",
        "t 21 0",
        "@@@@@@@@@@@@@@@@@@@@@@@@@@@@@@@@@@@@@@@@@@@@@@@@@@@@@@@@@@@@@@@@@@@@@@@@@@@@@@@@@@@@@@@@@@@@@@@@@@@@@@@@@@@@@@@@@@@@@@@@@@@@@@@@@@@@@@@@@@@@@@@@@@",
    ),
];

fn lent(heap: Global, bytes: usize) -> Result<Vec<u8>, AllocError> {
    vec![in heap; b'@'; bytes]
}

fn owned(heap: Global, text: &str) -> Result<Vec<u8>, AllocError> {
    Vec::from_slice(heap, text.as_bytes())
}

// The call with all that it is handed.
fn packed(heap: Global, call: calls::Call<'_>) -> Result<Call, AllocError> {
    let (path, action) = match call {
        calls::Call::Ask(Question::Look(path)) => return Ok(Call::Look(owned(heap, path)?)),
        calls::Call::Ask(Question::Next(path, after, bytes)) => {
            return Ok(Call::Next {
                path: owned(heap, path)?,
                after: owned(heap, after)?,
                buffer: lent(heap, bytes)?,
            });
        }
        calls::Call::Room => return Ok(Call::Room),
        calls::Call::Need(path) => return Ok(Call::Need(owned(heap, path)?)),
        calls::Call::Put(path, entry) => (path, Action::Put(entry)),
        calls::Call::Mkdir(path, mode) => (path, Action::Mkdir(mode)),
        calls::Call::Chmod(path, mode) => (path, Action::Chmod(mode)),
        calls::Call::Remove(path) => (path, Action::Remove),
    };
    Ok(Call::Edit(owned(heap, path)?, action))
}

// The call that a line spells; `list` with the bytes of its buffer.
fn packed_line(heap: Global, line: &str) -> Result<Call, Fail> {
    if let ("list", bytes) = first_word(line) {
        let buffer = lent(heap, bytes.parse::<usize>()?)?;
        return Ok(Call::List { buffer });
    }
    Ok(packed(heap, call_of(line).ok_or("no call")?)?)
}

fn packed_all(heap: Global, lines: &[Line]) -> Result<Vec<Call>, Fail> {
    let mut calls = Vec::with_capacity(heap, lines.len())?;
    for (call, _, _) in lines {
        calls
            .push(packed_line(heap, call)?)
            .map_err(AllocError::from)?;
    }
    Ok(calls)
}

fn answer_of(heap: Global, reply: &Reply) -> Result<String, AllocError> {
    match reply {
        Reply::Looked(Ok(entry)) => shown(heap, *entry),
        Reply::Looked(Err(fault)) | Reply::Next(Err(fault), _) => fault.to_string(heap),
        Reply::Next(Ok(None), _) => String::from_str(heap, "none"),
        Reply::Next(Ok(Some(len)), _) | Reply::Room(len) => len.to_string(heap),
        Reply::Listed(answer, _) | Reply::Need(answer) => told(heap, *answer),
        Reply::Edited(answer) => told(heap, answer.map(|()| "done")),
    }
}

fn buffer_of(reply: &Reply) -> &[u8] {
    match reply {
        Reply::Next(_, buffer) | Reply::Listed(_, buffer) => buffer.as_slice(),
        _ => b"",
    }
}

fn see_reply(rt: &(impl Abort + AllocGlobal), reply: &Reply, line: &Line) -> Result<(), Fail> {
    let (call, answer, buffer) = line;
    let said = answer_of(rt.alloc(), reply)?;
    assert_eq!(rt; said.as_str(), *answer, "{}", call);
    assert_eq!(rt; buffer_of(reply), buffer.as_bytes(), "{}", call);
    Ok(())
}

// As many replies as lines, and each as its line has it.
fn see_replies(
    rt: &(impl Abort + AllocGlobal),
    replies: &[Reply],
    lines: &[Line],
) -> Result<(), Fail> {
    assert_eq!(rt; replies.len(), lines.len());
    for (reply, line) in replies.iter().zip(lines) {
        see_reply(rt, reply, line)?;
    }
    Ok(())
}

// What the first calls leave, and what the second.
const FIRST_MARKS: &str = "\
'' = D 755
etc = D 755
etc/coin = W
etc/trays = O 750
etc/trays/t1 = N";

const SECOND_MARKS: &str = "\
'' = D 755
etc = D 755
etc/coin = O 700
etc/trays = F 600 7 c3
etc/trays/t1 = N";

// Both lists on one session over a tree, which stays as it was.
fn replay_both<T: Tree + Drop>(rt: &(impl Abort + AllocGlobal), tree: T) -> Result<(), Fail> {
    let mut replies = Vec::with_capacity(rt.alloc(), FIRST.len())?;
    let mut session = replay_on(tree, packed_all(rt.alloc(), &FIRST)?, &mut replies)?;
    see_replies(rt, &replies, &FIRST)?;
    let mut replies = Vec::with_capacity(rt.alloc(), SECOND.len())?;
    replay(&mut session, packed_all(rt.alloc(), &SECOND)?, &mut replies)?;
    see_replies(rt, &replies, &SECOND)?;
    let (layer, tree) = session.seal().part();
    see_marks(rt, &layer, 4, SECOND_MARKS)?;
    ask(rt, &tree, ASKED)
}

#[test]
fn replays(rt: HostRuntime) -> Result<(), Fail> {
    let mut rows = [blank_row(); 8];
    let count = index(KIT.as_bytes(), &mut rows)?;
    replay_both(&rt, Manifest::read(KIT.as_bytes(), &rows[..count])?)?;
    replay_both(&rt, flat_kit(&rt)?)
}

// The length of the layer's file between the two lists.
const FILED: usize = 91;

#[test]
fn refiled(rt: HostRuntime) -> Result<(), Fail> {
    let mut rows = [blank_row(); 8];
    let count = index(KIT.as_bytes(), &mut rows)?;
    let tree = Manifest::read(KIT.as_bytes(), &rows[..count])?;
    let first = packed_all(rt.alloc(), &FIRST)?;
    let second = packed_all(rt.alloc(), &SECOND)?;
    let mut buffer = [b'@'; 100];
    let mut replies = Vec::with_capacity(rt.alloc(), FIRST.len() + SECOND.len())?;
    let other = flat_kit(&rt)?;
    let (len, session) = refile(tree, first, &mut buffer, other, second, &mut replies)??;
    let (first, second) = replies.split_at_checked(FIRST.len()).ok_or("few replies")?;
    see_replies(&rt, first, &FIRST)?;
    see_replies(&rt, second, &SECOND)?;
    assert_eq!(rt; len, FILED);
    let (layer, tree) = session.seal().part();
    see_marks(&rt, &layer, 4, SECOND_MARKS)?;
    ask(&rt, &tree, ASKED)?;
    see_filed(&rt, &buffer)
}

// The file that the first calls leave, and behind it nothing is changed.
fn see_filed(rt: &(impl Abort + AllocGlobal), buffer: &[u8]) -> Result<(), Fail> {
    let (file, rest) = buffer.split_at_checked(FILED).ok_or("a short buffer")?;
    let mut layer = Layer::new();
    read(file, &mut layer)?;
    see_marks(rt, &layer, 4, FIRST_MARKS)?;
    assert!(rt; rest.iter().all(|byte| *byte == b'@'));
    Ok(())
}

// A buffer that is one byte too short: the second calls are not made.
#[test]
fn not_filed(rt: HostRuntime) -> Result<(), Fail> {
    let mut rows = [blank_row(); 8];
    let count = index(KIT.as_bytes(), &mut rows)?;
    let tree = Manifest::read(KIT.as_bytes(), &rows[..count])?;
    let first = packed_all(rt.alloc(), &FIRST)?;
    let second = packed_all(rt.alloc(), &SECOND)?;
    let mut buffer = [b'@'; FILED - 1];
    let mut replies = Vec::with_capacity(rt.alloc(), FIRST.len() + SECOND.len())?;
    let filed = refile(
        tree,
        first,
        &mut buffer,
        flat_kit(&rt)?,
        second,
        &mut replies,
    )?;
    see_replies(&rt, &replies, &FIRST)?;
    assert!(rt; matches!(filed, Err(Fault::ShortBuffer)));
    assert!(rt; buffer.iter().all(|byte| *byte == b'@'));
    Ok(())
}

// A vector with room for one reply too few: no call is made.
#[test]
fn no_room_for_replies(rt: HostRuntime) -> Result<(), Fail> {
    let first = packed_all(rt.alloc(), &FIRST)?;
    let mut replies = Vec::with_capacity(rt.alloc(), FIRST.len())?;
    replies.push(Reply::Room(0))?;
    let refused = replay_on(flat_kit(&rt)?, first, &mut replies);
    assert!(rt; matches!(refused, Err(Fault::ShortBuffer)));
    assert_eq!(rt; replies.len(), 1);
    Ok(())
}
