// Three layers squashed to one in any order, the lowest first.
use crate::bytes::bytes_of;
use crate::outcomes::see_file;
use crate::squashes::{layer_behind, wide_layer};
use archive::regroup;
use layers::layer::Layer;
use std::alloc::{AllocError, Global};
use std::process::Abort;
use std::test::Fail;
use trees::fault::Fault;

const THREE: [&str; 3] = [
    "00000101 010000 02000201ED 010001 'a' 02000201ED 010003 'a/b' 030012 01A4 000000000000000C 00000000000000A1 010001 'c' 030012 01A4 0000000000000005 00000000000000B2 010001 'd' 02000201ED 010003 'd/e' 030012 01A4 000000000000000C 00000000000000A1 0600020006",
    "00000101 010000 02000201ED 010005 '.wh.a' 050000 010001 'd' 02000201C9 010001 'e' 02000201E8 01000E 'e/.wh..wh..opq' 050000 0600020004",
    "00000101 010000 02000201C0 010001 'a' 02000201C0 010003 'a/c' 030012 0180 0000000000000001 00000000000000C3 010001 'd' 02000201ED 010007 'd/.wh.e' 050000 010005 '.wh.e' 050000 010001 'f' 030012 0180 0000000000000007 00000000000000C3 0600020007",
];

// The middle layer's whiteout makes the directory over it opaque, and its own opaque directory goes.
const SQUASHED: &str =
    "00000101 010000 02000201C0 010001 'a' 02000201C0 01000E 'a/.wh..wh..opq' 050000 010003 'a/c' 030012 0180 0000000000000001 00000000000000C3 010001 'c' 030012 01A4 0000000000000005 00000000000000B2 010001 'd' 02000201ED 010007 'd/.wh.e' 050000 010005 '.wh.e' 050000 010001 'f' 030012 0180 0000000000000007 00000000000000C3 0600020008";

// Places of neighbours; at 2 and above there is none.
const ORDERS: [&[usize]; 7] = [&[], &[0], &[1], &[0, 0], &[1, 0], &[2], &[7, 1]];

fn three_layers(heap: Global) -> Result<Vec<Layer>, Fail> {
    let mut layers = Vec::new(heap);
    for words in &THREE {
        layers
            .push(layer_behind(heap, b"", words)?)
            .map_err(AllocError::from)?;
    }
    Ok(layers)
}

// The layers squashed to one have that file.
fn see_group(
    rt: &(impl Abort + AllocGlobal),
    layers: Vec<Layer>,
    order: &[usize],
    file: &[u8],
) -> Result<(), Fail> {
    let layer = regroup::regroup(layers, order)?;
    see_file(rt, &layer, file)
}

#[test]
fn regroup(rt: HostRuntime) -> Result<(), Fail> {
    let file = bytes_of(rt.alloc(), SQUASHED)?;
    for order in &ORDERS {
        see_group(&rt, three_layers(rt.alloc())?, order, file.as_slice())?;
    }
    see_group(
        &rt,
        Vec::new(rt.alloc()),
        &[1],
        b"\x00\x00\x01\x01\x06\x00\x02\x00\x00",
    )
}

// An opaque root.
const OPAQUE: &str = "00000101 010000 02000201ED 01000C '.wh..wh..opq' 050000 0600020001";

// The lower two have 193 rows in one, and the upper one cuts all of them off.
fn wide_layers(heap: Global) -> Result<Vec<Layer>, Fail> {
    let mut layers = Vec::new(heap);
    let lowest = wide_layer(heap, b'0', 0x8F, "0600020061")?;
    layers.push(lowest).map_err(AllocError::from)?;
    let middle = wide_layer(heap, 0x90, 0xEF, "0600020061")?;
    layers.push(middle).map_err(AllocError::from)?;
    layers
        .push(layer_behind(heap, b"", OPAQUE)?)
        .map_err(AllocError::from)?;
    Ok(layers)
}

#[test]
fn regroup_rows(rt: HostRuntime) -> Result<(), Fail> {
    let file = bytes_of(rt.alloc(), OPAQUE)?;
    see_group(&rt, wide_layers(rt.alloc())?, &[1], file.as_slice())?;
    let orders: [&[usize]; 3] = [&[], &[0], &[0, 0]];
    for order in &orders {
        let refused = regroup::regroup(wide_layers(rt.alloc())?, order);
        assert!(rt; matches!(refused, Err(Fault::NoRoom(0))));
    }
    Ok(())
}
