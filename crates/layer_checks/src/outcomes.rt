// What becomes of a file. Each line of a script has the bytes of one, ` = `, and what is said of it: `ok` and the number of
// rows, or the fault.
use crate::bytes::bytes_behind;
use layer_files::read::read;
use layer_files::write::write;
use layers::layer::Layer;
use std::alloc::{AllocError, Global};
use std::process::Abort;
use std::test::Fail;

// The file of a layer with a directory 0755 at the root and a whiteout at `a`.
pub(crate) const SAMPLE: &[u8; 28] =
    b"\x00\x00\x01\x01\x01\x00\x00\x02\x00\x02\x01\xED\x01\x00\x05.wh.a\x05\x00\x00\x06\x00\x02\x00\x02";

// The layer has just that file.
pub(crate) fn see_file(
    rt: &(impl Abort + AllocGlobal),
    layer: &Layer,
    file: &[u8],
) -> Result<(), Fail> {
    let mut buffer = vec![in rt.alloc(); b'@'; 65_536]?;
    let len = write(layer, buffer.as_mut_slice())?;
    assert_eq!(rt; buffer.get(..len), Some(file));
    Ok(())
}

// What is said of a file, which is read in place of what a layer has.
fn told(heap: Global, bytes: &[u8], layer: &mut Layer) -> Result<String, AllocError> {
    match read(bytes, layer) {
        Ok(()) => format!(in heap; "ok {}", layer.count()),
        Err(fault) => fault.to_string(heap),
    }
}

// The layer that reads the file has the sample before, and still has it after a refusal. What is accepted is written again
// with the same bytes.
pub(crate) fn judge(
    rt: &(impl Abort + AllocGlobal),
    bytes: &[u8],
    wanted: &str,
) -> Result<(), Fail> {
    let mut layer = Layer::new();
    read(SAMPLE, &mut layer)?;
    let said = told(rt.alloc(), bytes, &mut layer)?;
    assert_eq!(rt; said.as_str(), wanted, "{:?}", bytes);
    let kept = if wanted.starts_with("ok") {
        bytes
    } else {
        SAMPLE
    };
    see_file(rt, &layer, kept)
}

fn judge_line(rt: &(impl Abort + AllocGlobal), front: &[u8], line: &str) -> Result<(), Fail> {
    let (words, wanted) = line.split_once("= ").ok_or("no outcome")?;
    judge(
        rt,
        bytes_behind(rt.alloc(), front, words)?.as_slice(),
        wanted,
    )
}

// The lines have the bytes behind that front.
pub(crate) fn judge_behind(
    rt: &(impl Abort + AllocGlobal),
    front: &[u8],
    script: &str,
) -> Result<(), Fail> {
    for line in script.lines() {
        judge_line(rt, front, line)?;
    }
    Ok(())
}

pub(crate) fn judge_all(rt: &(impl Abort + AllocGlobal), script: &str) -> Result<(), Fail> {
    judge_behind(rt, b"", script)
}
