// The lines that refusals print, and the report on a manifest.
use crate::outcomes::KIT;
use manifests::fault::ManifestFault;
use paths::PathFault;
use reports::refusal::{Reason, refusal};
use reports::report::report_pile;
use std::test::Fail;
use trees::fault::Fault;
use words::fault::Cause;

const TREES: [(Fault, &str); 12] = [
    (Fault::Path(PathFault::TooLong), "refused list p 1 0\n"),
    (Fault::Path(PathFault::BadName(7)), "refused list p 2 7\n"),
    (Fault::Path(PathFault::TooDeep), "refused list p 3 8\n"),
    (Fault::Missing(2), "refused list t 10 2\n"),
    (Fault::NotDirectory(3), "refused list t 11 3\n"),
    (Fault::IsDirectory(4), "refused list t 12 4\n"),
    (Fault::Exists(9), "refused list t 13 9\n"),
    (Fault::NotEmpty(1), "refused list t 15 1\n"),
    (Fault::Root, "refused list t 16 0\n"),
    (Fault::OutOfRange, "refused list t 17 0\n"),
    (Fault::NoRoom(8), "refused list t 20 8\n"),
    (Fault::ShortBuffer, "refused list t 21 0\n"),
];

const MANIFESTS: [(usize, Cause, &str); 9] = [
    (0, Cause::Header, "refused base.mtree m 0 30\n"),
    (7, Cause::Word, "refused base.mtree m 7 31\n"),
    (
        29,
        Cause::Path(PathFault::BadName(1)),
        "refused base.mtree m 29 p 2 1\n",
    ),
    (7, Cause::Keyword, "refused base.mtree m 7 32\n"),
    (100, Cause::Value, "refused base.mtree m 100 33\n"),
    (7, Cause::Order, "refused base.mtree m 7 34\n"),
    (7, Cause::Parent, "refused base.mtree m 7 35\n"),
    (65000, Cause::TooMany, "refused base.mtree m 65000 36\n"),
    (0, Cause::OtherRows, "refused base.mtree m 0 37\n"),
];

#[test]
fn lines_printed(rt: HostRuntime) -> Result<(), Fail> {
    let heap = rt.alloc();
    for (fault, line) in &TREES {
        let printed = refusal(heap, "list", Reason::Tree(*fault))?;
        assert_eq!(&rt; printed.as_str(), *line);
    }
    for (at, cause, line) in &MANIFESTS {
        let fault = ManifestFault {
            at: *at,
            cause: *cause,
        };
        let printed = refusal(heap, "base.mtree", Reason::Manifest(fault))?;
        assert_eq!(&rt; printed.as_str(), *line);
    }
    Ok(())
}

// A text, and what is reported of it.
const TEXTS: [(&str, &str); 3] = [
    ("", "refused base.mtree m 0 30\n"),
    (
        "#mtree\n./a//b type=dir mode=0755\n",
        "refused base.mtree m 7 p 2 1\n",
    ),
    (KIT, KIT),
];

#[test]
fn reports(rt: HostRuntime) -> Result<(), Fail> {
    let heap = rt.alloc();
    for (text, said) in &TEXTS {
        match report_pile(heap, text.as_bytes(), None)? {
            Ok(listing) => assert_eq!(&rt; listing.as_slice(), said.as_bytes()),
            Err(line) => assert_eq!(&rt; line.as_str(), *said),
        }
    }
    Ok(())
}
