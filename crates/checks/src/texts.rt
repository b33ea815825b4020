// Texts, path words and keywords: for every fault of a line, texts that meet it and texts that pass.
use crate::outcomes::{DIR, HEAD, KIT, SAME, judge};
use std::test::Fail;

// A whole text, and what becomes of it.
const TEXTS: [(&str, &str); 12] = [
    ("#mtree\n", SAME),
    (HEAD, SAME),
    (KIT, SAME),
    ("", "m 0 30"),
    ("#mtree", "m 0 30"),
    ("#mtree \n", "m 0 30"),
    ("\n#mtree\n", "m 0 30"),
    ("#mtree\n. type=dir mode=0755", "m 7 31"),
    ("#mtree\n. type=dir mode=755\n", "m 7 33"),
    ("#mtree\n./a type=dir mode=0755\n", "m 7 35"),
    ("#mtree\n./../a type=dir mode=0755\n", "m 7 p 2 0"),
    (
        "#mtree\n. type=file mode=0644 size=0 content=0000000000000000\n",
        "m 7 35",
    ),
];

#[test]
fn texts(rt: HostRuntime) -> Result<(), Fail> {
    for (text, said) in &TEXTS {
        judge(&rt, &[text], said)?;
    }
    Ok(())
}

// The path words of directories behind the root, and what becomes of their lines.
const WORDS: [(&str, &str); 53] = [
    ("./a=b", SAME),
    ("./!~", SAME),
    ("./...", SAME),
    ("./.wh", SAME),
    ("./a ./a/b ./a-b", SAME),
    ("./a ./a-b ./a/b", "m 76 34"),
    ("./B ./a ./\\200 ./\\377", SAME),
    ("./\\200 ./a", "m 54 34"),
    ("./b ./a", "m 51 34"),
    ("./a ./a", "m 51 34"),
    (".", "m 28 34"),
    ("\\056", "m 28 34"),
    ("./a ./a/x ./b ./b/y", SAME),
    ("./a/b", "m 28 35"),
    ("./a\\057b", "m 28 35"),
    ("./a ./a/b/c", "m 51 35"),
    ("./a ./ab/c", "m 51 35"),
    ("./a ./a/b ./b/b", "m 76 35"),
    // Two faults in one line: the first check counts.
    ("./../#", "m 28 31"),
    ("./b ./..", "m 51 p 2 0"),
    ("./b ./a/c", "m 51 34"),
    // No path words.
    ("", "m 28 31"),
    ("./", "m 28 31"),
    ("..", "m 28 31"),
    ("/a", "m 28 31"),
    ("a", "m 28 31"),
    ("./#", "m 28 31"),
    ("./a\tb", "m 28 31"),
    ("./é", "m 28 31"),
    // Bad escapes.
    ("./\\400", "m 28 31"),
    ("./\\378", "m 28 31"),
    ("./\\8", "m 28 31"),
    ("./\\14", "m 28 31"),
    ("./\\", "m 28 31"),
    ("./\\\\", "m 28 31"),
    ("./\\x61", "m 28 31"),
    // Bad names.
    ("./.", "m 28 p 2 0"),
    ("./..", "m 28 p 2 0"),
    ("./.wh.x", "m 28 p 2 0"),
    ("./\\000", "m 28 p 2 0"),
    ("./\\056\\056", "m 28 p 2 0"),
    ("./a/", "m 28 p 2 1"),
    ("./a//b", "m 28 p 2 1"),
    // 40 and 41 bytes of a name.
    ("./aaaaaaaaaabbbbbbbbbbccccccccccdddddddddd", SAME),
    ("./aaaaaaaaaabbbbbbbbbbccccccccccdddddddddde", "m 28 p 2 0"),
    // 8 and 9 names.
    (
        "./a ./a/a ./a/a/a ./a/a/a/a ./a/a/a/a/a ./a/a/a/a/a/a ./a/a/a/a/a/a/a ./a/a/a/a/a/a/a/a",
        SAME,
    ),
    ("./a/a/a/a/a/a/a/a/a", "m 28 p 3 8"),
    ("./a/a/a/a/a/a/a/a/.", "m 28 p 3 8"),
    ("./a/./a/a/a/a/a/a/a", "m 28 p 2 1"),
    // 120 and 121 bytes of a path.
    (
        "./aaaaaaaaaaaaaaaaaaaaaaaaaaaaaaaaaaaaaaaa ./aaaaaaaaaaaaaaaaaaaaaaaaaaaaaaaaaaaaaaaa/aaaaaaaaaaaaaaaaaaaaaaaaaaaaaaaaaaaaaaa ./aaaaaaaaaaaaaaaaaaaaaaaaaaaaaaaaaaaaaaaa/aaaaaaaaaaaaaaaaaaaaaaaaaaaaaaaaaaaaaaa/aaaaaaaaaaaaaaaaaaaaaaaaaaaaaaaaaaaaaaa",
        SAME,
    ),
    (
        "./aaaaaaaaaaaaaaaaaaaaaaaaaaaaaaaaaaaaaaaa ./aaaaaaaaaaaaaaaaaaaaaaaaaaaaaaaaaaaaaaaa/aaaaaaaaaaaaaaaaaaaaaaaaaaaaaaaaaaaaaaaa ./aaaaaaaaaaaaaaaaaaaaaaaaaaaaaaaaaaaaaaaa/aaaaaaaaaaaaaaaaaaaaaaaaaaaaaaaaaaaaaaaa/aaaaaaaaaaaaaaaaaaaaaaaaaaaaaaaaaaaaaaa",
        "m 193 p 1 0",
    ),
    (
        "./aaaaaaaaaaaaaaaaaaaaaaaaaaaaaaaaaaaaaaaaaaaaaaaaaaaaaaaaaaaaaaaaaaaaaaaaaaaaaaaaaaaaaaaaaaaaaaaaaaaaaaaaaaaaaaaaaaaaaaaa",
        "m 28 p 2 0",
    ),
    (
        "./aaaaaaaaaaaaaaaaaaaaaaaaaaaaaaaaaaaaaaaaaaaaaaaaaaaaaaaaaaaaaaaaaaaaaaaaaaaaaaaaaaaaaaaaaaaaaaaaaaaaaaaaaaaaaaaaaaaaaaaaa",
        "m 28 p 1 0",
    ),
];

#[test]
fn words(rt: HostRuntime) -> Result<(), Fail> {
    for (words, said) in &WORDS {
        let lines = words.replace(rt.alloc(), " ", DIR)?;
        judge(&rt, &[HEAD, lines.as_str(), DIR], said)?;
    }
    Ok(())
}

// An escaped path word of a directory, and how it is listed.
const ESCAPES: [(&str, &str); 11] = [
    ("./\\141", "./a"),
    ("./\\041\\176", "./!~"),
    ("./\\1411", "./a1"),
    ("./a\\040b", "./a\\040b"),
    ("./\\012", "./\\012"),
    ("./\\043", "./\\043"),
    ("./\\134141", "./\\134141"),
    ("./\\177", "./\\177"),
    ("./\\200\\377", "./\\200\\377"),
    ("\\056/a", "./a"),
    (".\\057a", "./a"),
];

#[test]
fn escapes(rt: HostRuntime) -> Result<(), Fail> {
    for (word, listed) in &ESCAPES {
        let listing = [HEAD, listed, DIR].concat(rt.alloc())?;
        judge(&rt, &[HEAD, word, DIR], listing.as_str())?;
    }
    Ok(())
}

// What stands behind the path word `./a`, and what becomes of it.
const KEYWORDS: [(&str, &str); 28] = [
    (" type=dir mode=0000", SAME),
    (" type=dir mode=7777", SAME),
    (" type=file mode=0644 size=0 content=0123456789abcdef", SAME),
    (
        " type=file mode=0644 size=10 content=ffffffffffffffff",
        SAME,
    ),
    ("", "m 28 32"),
    (" typ=dir mode=0755", "m 28 32"),
    (" mode=0755 type=dir", "m 28 32"),
    (" type=dir", "m 28 32"),
    (" type=dir  mode=0755", "m 28 32"),
    (" type=dir mode=0755 ", "m 28 32"),
    (" type=dir mode=0755 size=0", "m 28 32"),
    (" type=file mode=0644 size=0", "m 28 32"),
    (" type=link mode=0755", "m 28 33"),
    (" type=dir mode=755", "m 28 33"),
    (" type=dir mode=00755", "m 28 33"),
    (" type=dir mode=0758", "m 28 33"),
    (
        " type=file mode=0644 size= content=0123456789abcdef",
        "m 28 33",
    ),
    (
        " type=file mode=0644 size=01 content=0123456789abcdef",
        "m 28 33",
    ),
    (
        " type=file mode=0644 size=1a content=0123456789abcdef",
        "m 28 33",
    ),
    // 2^40, and one more.
    (
        " type=file mode=0644 size=1099511627776 content=0123456789abcdef",
        SAME,
    ),
    (
        " type=file mode=0644 size=1099511627777 content=0123456789abcdef",
        "m 28 33",
    ),
    (
        " type=file mode=0644 size=0 content=123456789abcdef",
        "m 28 33",
    ),
    (
        " type=file mode=0644 size=0 content=0123456789abcdeF",
        "m 28 33",
    ),
    (
        " type=file mode=0644 size=0 content=0123456789abcdeg",
        "m 28 33",
    ),
    // Two faults: the left one counts.
    (" typ=dir mode=9", "m 28 32"),
    (" type=link mod=0755", "m 28 33"),
    (" type=dir mode=9 size=0", "m 28 33"),
    (" type=file mode=0644 size=x", "m 28 33"),
];

#[test]
fn keywords(rt: HostRuntime) -> Result<(), Fail> {
    for (keywords, said) in &KEYWORDS {
        judge(&rt, &[HEAD, "./a", keywords, "\n"], said)?;
    }
    Ok(())
}
