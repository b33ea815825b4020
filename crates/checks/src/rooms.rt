// Buffers for a listing: one too short is left alone, and of one too long the rest is.
use crate::outcomes::KIT;
use base::Manifest;
use listing::list;
use manifests::index::{blank_row, index};
use std::process::Abort;
use std::test::Fail;
use trees::fault::Fault;
use trees::tree::Tree;

// The room for the kit's listing, what is said, and what is written.
const ROOMS: [(usize, Result<usize, Fault>, &str); 4] = [
    (0, Err(Fault::ShortBuffer), ""),
    (214, Err(Fault::ShortBuffer), ""),
    (215, Ok(215), KIT),
    (216, Ok(215), KIT),
];

// Checks what `list` answers, and the whole buffer after it, of 216 bytes at most.
fn check_rooms<T: Tree>(rt: &impl Abort, tree: &T) {
    for (room, said, written) in &ROOMS {
        let mut buffer = [b'@'; 216];
        let buffer = &mut buffer[..(*room).min(216)];
        assert_eq!(rt; list(tree, buffer), *said, "{}", room);
        let rest = [b'@'; 216];
        assert_eq!(rt;
            buffer.strip_prefix(written.as_bytes()),
            rest.get(written.len()..*room),
            "{}",
            room
        );
    }
}

#[test]
fn rooms(rt: HostRuntime) -> Result<(), Fail> {
    let mut rows = [blank_row(); 5];
    let count = index(KIT.as_bytes(), &mut rows)?;
    let tree = Manifest::read(KIT.as_bytes(), &rows[..count])?;
    check_rooms(&rt, &tree);
    check_rooms(&rt, &&tree);
    Ok(())
}
