// A file that is cut short at each of its bytes.
use crate::bytes::bytes_of;
use crate::outcomes::judge;
use std::process::Abort;
use std::test::Fail;

const FILE: &str =
    "00000101 010000 02000201ED 01000C '.wh..wh..opq' 050000 010001 'a' 02000201ED 010003 'a/f' 030012 01A4 000000000000000C 00000000000000A1 010005 '.wh.b' 050000 0600020004";

// Where its fields start, and where it ends.
const STARTS: [usize; 13] = [0, 4, 7, 12, 27, 30, 34, 39, 45, 66, 74, 77, 82];

// Each front that ends within a field, or just before it.
fn cut_within(
    rt: &(impl Abort + AllocGlobal),
    file: &[u8],
    start: usize,
    end: usize,
) -> Result<(), Fail> {
    let wanted = format!(in rt.alloc(); "l {start} 40")?;
    for len in start..end {
        let front = file.get(..len).ok_or("no such front")?;
        judge(rt, front, wanted.as_str())?;
    }
    Ok(())
}

#[test]
fn cut_short(rt: HostRuntime) -> Result<(), Fail> {
    let file = bytes_of(rt.alloc(), FILE)?;
    assert_eq!(rt; file.len(), 82);
    judge(&rt, file.as_slice(), "ok 4")?;
    for (start, end) in STARTS.iter().zip(&STARTS[1..]) {
        cut_within(&rt, file.as_slice(), *start, *end)?;
    }
    Ok(())
}
