// What the tree of the kit answers, and the same tree lent.
use crate::outcomes::KIT;
use base::Manifest;
use manifests::index::{blank_row, index};
use paths::PathFault;
use std::process::Abort;
use std::test::Fail;
use trees::entry::{DirMeta, Entry, FileMeta};
use trees::fault::Fault;
use trees::tree::Tree;

// A path of 121 bytes.
const LONG: &str =
    "aaaaaaaaaaaaaaaaaaaaaaaaaaaaaaaaaaaaaaaaaaaaaaaaaaaaaaaaaaaaaaaaaaaaaaaaaaaaaaaaaaaaaaaaaaaaaaaaaaaaaaaaaaaaaaaaaaaaaaaaa";

const DIR: Entry = Entry::Dir(DirMeta { mode: 0o755 });

const COIN: Entry = Entry::File(FileMeta {
    mode: 0o644,
    size: 12,
    content: 0xa1,
});

// A path, and what is found there.
const LOOKS: [(&str, Result<Entry, Fault>); 12] = [
    ("", Ok(DIR)),
    ("etc/coin", Ok(COIN)),
    ("etc/trays", Ok(DIR)),
    ("etc/coin/x", Err(Fault::NotDirectory(3))),
    ("etc/trays/t1/x", Err(Fault::NotDirectory(4))),
    ("etc/note", Err(Fault::Missing(2))),
    ("etc/trays/t2/x/y", Err(Fault::Missing(3))),
    ("var/etc/coin", Err(Fault::Missing(1))),
    (LONG, Err(Fault::Path(PathFault::TooLong))),
    ("/etc", Err(Fault::Path(PathFault::BadName(0)))),
    ("etc/..", Err(Fault::Path(PathFault::BadName(1)))),
    ("a/a/a/a/a/a/a/a/a", Err(Fault::Path(PathFault::TooDeep))),
];

fn check_looks<T: Tree>(rt: &impl Abort, tree: &T) {
    for (path, said) in &LOOKS {
        assert!(rt; tree.look(path.as_bytes()) == *said, "{}", path);
    }
}

// A path, the name before, the room, what is said, and what is written.
type Next = (
    &'static str,
    &'static str,
    usize,
    Result<Option<usize>, Fault>,
    &'static str,
);

const NEXTS: [Next; 16] = [
    ("", "", 40, Ok(Some(3)), "etc"),
    ("", "etc", 40, Ok(None), ""),
    ("etc", "", 41, Ok(Some(4)), "coin"),
    ("etc", "coi", 40, Ok(Some(4)), "coin"),
    ("etc", "coin", 40, Ok(Some(5)), "trays"),
    ("etc", "coin/x", 40, Ok(Some(5)), "trays"),
    ("etc", "trays", 40, Ok(None), ""),
    ("etc/trays", "t0", 40, Ok(Some(2)), "t1"),
    ("etc", "", 39, Err(Fault::ShortBuffer), ""),
    ("etc", "trays", 39, Err(Fault::ShortBuffer), ""),
    ("etc/coin", "", 40, Err(Fault::NotDirectory(3)), ""),
    ("etc/coin/x", "", 40, Err(Fault::NotDirectory(3)), ""),
    ("etc/note", "", 39, Err(Fault::Missing(2)), ""),
    (LONG, "", 40, Err(Fault::Path(PathFault::TooLong)), ""),
    ("etc/..", "", 0, Err(Fault::Path(PathFault::BadName(1))), ""),
    (
        "a/a/a/a/a/a/a/a/a",
        "",
        40,
        Err(Fault::Path(PathFault::TooDeep)),
        "",
    ),
];

// Checks what `next` answers, and the whole buffer after it, of 41 bytes at most.
fn check_nexts<T: Tree>(rt: &impl Abort, tree: &T) {
    for (path, after, room, said, written) in &NEXTS {
        let mut buffer = [b'@'; 41];
        let buffer = &mut buffer[..(*room).min(41)];
        let answer = tree.next(path.as_bytes(), after.as_bytes(), buffer);
        assert_eq!(rt; answer, *said, "{}", path);
        let rest = [b'@'; 41];
        assert_eq!(rt;
            buffer.strip_prefix(written.as_bytes()),
            rest.get(written.len()..*room),
            "{}",
            path
        );
    }
}

#[test]
fn looks(rt: HostRuntime) -> Result<(), Fail> {
    let mut rows = [blank_row(); 5];
    let count = index(KIT.as_bytes(), &mut rows)?;
    let tree = Manifest::read(KIT.as_bytes(), &rows[..count])?;
    check_looks(&rt, &tree);
    check_looks(&rt, &&tree);
    Ok(())
}

#[test]
fn nexts(rt: HostRuntime) -> Result<(), Fail> {
    let mut rows = [blank_row(); 5];
    let count = index(KIT.as_bytes(), &mut rows)?;
    let tree = Manifest::read(KIT.as_bytes(), &rows[..count])?;
    check_nexts(&rt, &tree);
    check_nexts(&rt, &&tree);
    Ok(())
}
