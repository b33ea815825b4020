// The words of a line. Between two `~` stands `n`, for the byte n, or `n*s`, for the text s, n times.
use std::alloc::{AllocError, Global};
use std::io;
use std::io::Write;

fn add_mark(bytes: &mut Vec<u8>, mark: &str) -> Result<(), AllocError> {
    match mark.split_once('*') {
        Some((number, piece)) => {
            for _ in 0..number.parse::<u16>().unwrap_or(0) {
                bytes.extend_from_slice(piece.as_bytes())?;
            }
        }
        None => bytes.push((mark.parse::<u16>().unwrap_or(0) & 0xff) as u8)?,
    }
    Ok(())
}

// The bytes of a word, of which every second piece is a mark.
pub(crate) fn spelled(heap: Global, word: &str) -> Result<Vec<u8>, AllocError> {
    let mut bytes = Vec::new(heap);
    for (i, piece) in word.split('~').enumerate() {
        if i % 2 == 0 {
            bytes.extend_from_slice(piece.as_bytes())?;
        } else {
            add_mark(&mut bytes, piece)?;
        }
    }
    Ok(bytes)
}

// Adds so many lines, with the numbers from 1000 on between two texts.
pub(crate) fn add_rows(
    bytes: &mut Vec<u8>,
    count: usize,
    front: &[u8],
    back: &[u8],
) -> io::Result<()> {
    for n in 1000..count.saturating_add(1000) {
        bytes.extend_from_slice(front)?;
        write!(bytes, "{:04}", n % 10000)?;
        bytes.extend_from_slice(back)?;
    }
    Ok(())
}
