// What is written of a layer that a session made, and in which buffer.
use crate::bytes::bytes_of;
use crate::outcomes::{SAMPLE, see_file};
use edits::editable::Editable;
use flat::Flat;
use layer_files::read::read;
use layer_files::write::write;
use layers::layer::Layer;
use sessions::session::Session;
use std::alloc::{AllocError, Global};
use std::process::Abort;
use std::test::Fail;
use trees::entry::{Entry, FileMeta};

fn file(mode: u16, size: u64, content: u64) -> Entry {
    Entry::File(FileMeta {
        mode,
        size,
        content,
    })
}

// The layer of a session that takes `a` away.
fn sample_layer() -> Result<Layer, Fail> {
    let mut tree = Flat::new();
    tree.put(b"a", file(0o644, 5, 0xB2))?;
    let mut session = Session::open(tree);
    session.remove(b"a")?;
    let (layer, _) = session.seal().part();
    Ok(layer)
}

// The layer of a session that leaves a mark of each kind.
fn marked_layer() -> Result<Layer, Fail> {
    let mut tree = Flat::new();
    tree.mkdir(b"a", 0o755)?;
    tree.put(b"c", file(0o644, 5, 0xB2))?;
    let mut session = Session::open(tree);
    session.remove(b"a")?;
    session.mkdir(b"a", 0o750)?;
    session.put(b"a/f", file(0o644, 14, 0xA2))?;
    session.remove(b"c")?;
    session.mkdir(b"d", 0o1777)?;
    let (layer, _) = session.seal().part();
    Ok(layer)
}

const MARKED: &str =
    "00000101 010000 02000201ED 010001 'a' 02000201E8 01000E 'a/.wh..wh..opq' 050000 010003 'a/f' 030012 01A4 000000000000000E 00000000000000A2 010005 '.wh.c' 050000 010001 'd' 02000203FF 0600020005";

// A layer is written as that file, which reads as that layer.
fn see_both(rt: &(impl Abort + AllocGlobal), layer: &Layer, file: &[u8]) -> Result<(), Fail> {
    see_file(rt, layer, file)?;
    let mut back = Layer::new();
    read(file, &mut back)?;
    assert!(rt; back.rows.as_rows() == layer.rows.as_rows());
    Ok(())
}

#[test]
fn both_ways(rt: HostRuntime) -> Result<(), Fail> {
    see_both(&rt, &Layer::new(), b"\x00\x00\x01\x01\x06\x00\x02\x00\x00")?;
    see_both(&rt, &sample_layer()?, SAMPLE)?;
    let marked = bytes_of(rt.alloc(), MARKED)?;
    see_both(&rt, &marked_layer()?, marked.as_slice())
}

// What `write` answers.
fn told(heap: Global, layer: &Layer, buffer: &mut [u8]) -> Result<String, AllocError> {
    match write(layer, buffer) {
        Ok(len) => len.to_string(heap),
        Err(fault) => fault.to_string(heap),
    }
}

// What `write` answers of the sample in so many bytes, and which of them are the file then; those behind it stay.
fn see_room(
    rt: &(impl Abort + AllocGlobal),
    room: usize,
    wanted: &str,
    file: &[u8],
) -> Result<(), Fail> {
    let mut buffer = [b'@'; 40];
    let lent = buffer.get_mut(..room).ok_or("no such room")?;
    let said = told(rt.alloc(), &sample_layer()?, lent)?;
    assert_eq!(rt; said.as_str(), wanted);
    let rest = buffer.strip_prefix(file).ok_or("no file")?;
    assert!(rt; rest.iter().all(|byte| *byte == b'@'));
    Ok(())
}

#[test]
fn buffers(rt: HostRuntime) -> Result<(), Fail> {
    for room in &[0, 1, 4, 27] {
        see_room(&rt, *room, "t 21 0", b"")?;
    }
    for room in &[28, 29, 40] {
        see_room(&rt, *room, "28", SAMPLE)?;
    }
    Ok(())
}
