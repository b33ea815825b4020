// Rows that are not the text's: what a load says of them, and the tree afterwards.
use crate::outcomes::{HEAD, KIT};
use base::Manifest;
use manifests::fault::ManifestFault;
use manifests::index::{blank_row, index};
use paths::Path;
use std::process::Abort;
use std::test::Fail;
use trees::entry::{DirMeta, Entry, FileMeta};
use trees::fault::Fault;
use trees::tree::Tree;
use words::fault::Cause;

const COIN: FileMeta = FileMeta {
    mode: 0o644,
    size: 12,
    content: 0xa1,
};

const OTHER: Result<(), ManifestFault> = Err(ManifestFault {
    at: 0,
    cause: Cause::OtherRows,
});

// A row put in by hand among the kit's five and a blank one, how many rows are loaded, and what is said.
struct Case {
    at: usize,
    path: &'static str,
    value: Entry,
    rows: usize,
    said: Result<(), ManifestFault>,
}

const CASES: [Case; 11] = [
    Case {
        at: 2,
        path: "etc/coin",
        value: Entry::File(COIN),
        rows: 5,
        said: Ok(()),
    },
    Case {
        at: 1,
        path: "etc",
        value: Entry::Dir(DirMeta { mode: 0o755 }),
        rows: 5,
        said: Ok(()),
    },
    Case {
        at: 2,
        path: "etc/coin",
        value: Entry::File(COIN),
        rows: 6,
        said: OTHER,
    },
    Case {
        at: 2,
        path: "etc/coin",
        value: Entry::File(COIN),
        rows: 4,
        said: Err(ManifestFault {
            at: 148,
            cause: Cause::TooMany,
        }),
    },
    Case {
        at: 2,
        path: "etc/coin",
        value: Entry::File(COIN),
        rows: 0,
        said: Err(ManifestFault {
            at: 7,
            cause: Cause::TooMany,
        }),
    },
    Case {
        at: 2,
        path: "etc/coim",
        value: Entry::File(COIN),
        rows: 5,
        said: OTHER,
    },
    Case {
        at: 2,
        path: "etc/coin",
        value: Entry::File(FileMeta {
            mode: 0o645,
            ..COIN
        }),
        rows: 5,
        said: OTHER,
    },
    Case {
        at: 2,
        path: "etc/coin",
        value: Entry::File(FileMeta { size: 13, ..COIN }),
        rows: 5,
        said: OTHER,
    },
    Case {
        at: 2,
        path: "etc/coin",
        value: Entry::File(FileMeta {
            content: 0xa2,
            ..COIN
        }),
        rows: 5,
        said: OTHER,
    },
    Case {
        at: 2,
        path: "etc/coin",
        value: Entry::Dir(DirMeta { mode: 0o644 }),
        rows: 5,
        said: OTHER,
    },
    Case {
        at: 0,
        path: "",
        value: Entry::Dir(DirMeta { mode: 0o700 }),
        rows: 5,
        said: OTHER,
    },
];

// Checks what is said when a case is loaded into a tree that holds a root alone, and the tree afterwards.
fn check_load(rt: &impl Abort, case: &Case) -> Result<(), Fail> {
    let mut rows = [blank_row(); 6];
    index(KIT.as_bytes(), &mut rows)?;
    let root = [rows[0]];
    if let Some(row) = rows.get_mut(case.at) {
        row.path = Path::parse(case.path.as_bytes())?;
        row.value = case.value;
    }
    let mut tree = Manifest::empty();
    tree.load(HEAD.as_bytes(), &root)?;
    let rows = &rows[..case.rows.min(6)];
    assert_eq!(rt; tree.load(KIT.as_bytes(), rows), case.said);
    let coin = if case.said.is_ok() {
        Ok(Entry::File(COIN))
    } else {
        Err(Fault::Missing(1))
    };
    assert!(rt; tree.look(b"etc/coin") == coin);
    Ok(())
}

#[test]
fn loads(rt: HostRuntime) -> Result<(), Fail> {
    for case in &CASES {
        check_load(&rt, case)?;
    }
    Ok(())
}
