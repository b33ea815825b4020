// Many lines: texts at the limits of bytes, of entries and of the rows lent.
use crate::outcomes::{DIR, HEAD, KIT, SAME, judge};
use manifests::fault::ManifestFault;
use manifests::index::{blank_row, index};
use std::alloc::{AllocError, Global};
use std::test::Fail;
use words::fault::Cause;

// A file's line of 103 bytes behind a number of four digits.
const FILE: &str =
    "xxxxxxxxxxxxxxxxxxxxxxxxxxxxxxxxxxxx type=file mode=0644 size=123456789 content=0123456789abcdef\n";

// How many lines stand behind the root's, how each ends, one more line, the text's length, and what becomes of it.
const TEXTS: [(usize, &str, &str, usize, &str); 6] = [
    (
        635,
        FILE,
        "./1635xxxxxxxxxxxxxxxxxxxxxxxxxxxxxxxxxxxx type=file mode=0644 size=123456789 content=0123456789abcdef\n",
        65536,
        SAME,
    ),
    (
        635,
        FILE,
        "./1635xxxxxxxxxxxxxxxxxxxxxxxxxxxxxxxxxxxx type=file mode=0644 size=1234567890 content=0123456789abcdef\n",
        65537,
        "m 0 30",
    ),
    (
        635,
        FILE,
        "./1635xxxxxxxxxxxxxxxxxxxxxxxxxxxxxxxxxxxx type=file mode=0644 size=1234567890 content=0123456789abcdef",
        65536,
        "m 65433 31",
    ),
    (1023, DIR, "", 26626, SAME),
    (1024, DIR, "", 26652, "m 26626 36"),
    (1023, DIR, "./9/9 type=dir mode=0755\n", 26651, "m 26626 35"),
];

// The root, lines that begin with the numbers from 1000 on, and one more.
fn numbered(heap: Global, lines: usize, rest: &str, last: &str) -> Result<String, AllocError> {
    let mut text = String::from_str(heap, HEAD)?;
    for number in 1000..lines.saturating_add(1000) {
        write!(text, "./{number}{rest}")?;
    }
    text.push_str(last)?;
    Ok(text)
}

#[test]
fn limits(rt: HostRuntime) -> Result<(), Fail> {
    for (lines, rest, last, bytes, said) in &TEXTS {
        let text = numbered(rt.alloc(), *lines, rest, last)?;
        assert_eq!(&rt; text.len(), *bytes);
        judge(&rt, &[text.as_str()], said)?;
    }
    Ok(())
}

// How many rows are lent for the five entries of the kit, and what an index says.
const LENT: [(usize, Result<usize, ManifestFault>); 4] = [
    (6, Ok(5)),
    (5, Ok(5)),
    (
        4,
        Err(ManifestFault {
            at: 148,
            cause: Cause::TooMany,
        }),
    ),
    (
        0,
        Err(ManifestFault {
            at: 7,
            cause: Cause::TooMany,
        }),
    ),
];

#[test]
fn lent(rt: HostRuntime) -> Result<(), Fail> {
    for (lent, said) in &LENT {
        let mut rows = [blank_row(); 6];
        let rows = &mut rows[..(*lent).min(6)];
        assert_eq!(&rt; index(KIT.as_bytes(), rows), *said);
    }
    Ok(())
}
