// Files with as many rows as a layer may have, and more; and the largest file.
use crate::bytes::bytes_of;
use crate::outcomes::{judge, judge_behind};
use std::alloc::Global;
use std::test::Fail;

pub(crate) const HEAD: &str = "00000101 010000 02000201ED";

// The root and a directory for each name of one byte from the first to the last. They take 12 bytes and 9 for each name.
pub(crate) fn wide_file(heap: Global, first: u8, last: u8) -> Result<Vec<u8>, Fail> {
    let mut bytes = bytes_of(heap, HEAD)?;
    for name in first..=last {
        bytes.extend_from_slice(&[1, 0, 1, name, 2, 0, 2, 0x01, 0xED])?;
    }
    Ok(bytes)
}

const BEHIND_191: &str = "\
06000200BF = ok 191
06000200C0 = l 1722 47
010001 EE 02000201ED 06000200C0 = ok 192
010005 '.wh.' EE 050000 06000200C0 = ok 192
010003 ED '/a' 030012 01A4 000000000000000C 00000000000000A1 06000200C0 = ok 192
010001 EE 02000201ED 010001 EF 02000201ED 06000200C1 = l 1731 46
010005 '.wh.' EE 050000 010001 EF 02000201ED 06000200C1 = l 1733 46";

const BEHIND_192: &str = "\
06000200C0 = ok 192
06000200BF = l 1731 47
06000200C1 = l 1731 47
06000200C0 00 = l 1736 47
01000E EE '/.wh..wh..opq' 050000 06000200C0 = ok 192
010001 EF 02000201ED 06000200C1 = l 1731 46
010001 EF 030012 01A4 000000000000000C 00000000000000A1 06000200C1 = l 1731 46
010005 '.wh.' EF 050000 06000200C1 = l 1731 46
010003 EE '/a' 02000201ED 06000200C1 = l 1731 46
010001 EF 02000201ED 06000200C0 = l 1731 46
010001 EF 02000201ED = l 1731 46
010001 EF 02000201ED 040000 = l 1731 46
010001 EF 02000201ED 01000E EF '/.wh..wh..opq' 050000 06000200C1 = l 1731 46
010001 EF 02000201ED 010001 F0 02000201ED 06000200C2 = l 1731 46
01 = l 1731 40
01000C '.wh..wh..opq' 050000 06000200C0 = l 1731 40
010001 EF 040000 = l 1735 40
010004 '.wh.' 050000 = l 1731 42
010001 '.' 02000201ED = l 1731 p 2 0
010001 EF 0200021000 = l 1731 45
010001 EE 02000201ED = l 1731 43
010003 EF '/a' 02000201ED = l 1731 44";

#[test]
fn rows(rt: HostRuntime) -> Result<(), Fail> {
    judge_behind(
        &rt,
        wide_file(rt.alloc(), b'0', 0xED)?.as_slice(),
        BEHIND_191,
    )?;
    judge_behind(
        &rt,
        wide_file(rt.alloc(), b'0', 0xEE)?.as_slice(),
        BEHIND_192,
    )
}

// The root, and seven directories one in another, all opaque: 4 bytes, 26, and 27 beside twice the length of each path.
const CHAIN: &str = "\
00000101
010000 0200020FFF 01000C '.wh..wh..opq' 050000
010028 61*40 0200020FFF 010035 61*40 '/.wh..wh..opq' 050000
010051 61*40 2F 62*40 0200020FFF 01005E 61*40 2F 62*40 '/.wh..wh..opq' 050000
010053 61*40 2F 62*40 '/c' 0200020FFF 010060 61*40 2F 62*40 '/c/.wh..wh..opq' 050000
010055 61*40 2F 62*40 '/c/d' 0200020FFF 010062 61*40 2F 62*40 '/c/d/.wh..wh..opq' 050000
010057 61*40 2F 62*40 '/c/d/e' 0200020FFF 010064 61*40 2F 62*40 '/c/d/e/.wh..wh..opq' 050000
010059 61*40 2F 62*40 '/c/d/e/f' 0200020FFF 010066 61*40 2F 62*40 '/c/d/e/f/.wh..wh..opq' 050000
01005B 61*40 2F 62*40 '/c/d/e/f/g' 0200020FFF 010068 61*40 2F 62*40 '/c/d/e/f/g/.wh..wh..opq' 050000";

// Below them, an opaque directory of 120 bytes and eight names: a row of 267 bytes, the largest.
fn push_largest(heap: Global, bytes: &mut Vec<u8>, name: u8) -> Result<(), Fail> {
    let path = format!(in heap; "61*40 2F 62*40 '/c/d/e/f/g/' {name:02x} 78*27")?;
    let row = format!(in heap; "010078 {path} 0200020FFF 010085 {path} '/.wh..wh..opq' 050000")?;
    bytes.extend_from_slice(bytes_of(heap, row.as_str())?.as_slice())?;
    Ok(())
}

#[test]
fn largest(rt: HostRuntime) -> Result<(), Fail> {
    let mut bytes = bytes_of(rt.alloc(), CHAIN)?;
    assert_eq!(rt; bytes.len(), 1331);
    push_largest(rt.alloc(), &mut bytes, b'0')?;
    assert_eq!(rt; bytes.len(), 1598);
    judge_behind(&rt, bytes.as_slice(), "0600020009 = ok 9")?;
    for name in b'1'..=0xE7 {
        push_largest(rt.alloc(), &mut bytes, name)?;
    }
    bytes.extend_from_slice(&[6, 0, 2, 0, 192])?;
    assert_eq!(rt; bytes.len(), 50_464);
    judge(&rt, bytes.as_slice(), "ok 192")
}
