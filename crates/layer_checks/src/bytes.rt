// The bytes of a file as a script spells them.
use std::alloc::Global;
use std::test::Fail;

// A word: a text in quotes, a byte and how many of it as in `61*40`, or bytes.
fn push_word(heap: Global, bytes: &mut Vec<u8>, word: &str) -> Result<(), Fail> {
    if let Some(text) = word.strip_prefix("'") {
        let text = text.strip_suffix("'").ok_or("no end of a text")?;
        bytes.extend_from_slice(text.as_bytes())?;
        return Ok(());
    }
    let (digits, times) = word.split_once('*').unwrap_or((word, "1"));
    let piece = hex::decode(heap, digits)?;
    for _ in 0..times.parse::<usize>()? {
        bytes.extend_from_slice(piece.as_slice())?;
    }
    Ok(())
}

// The bytes of words with spaces between them.
pub(crate) fn bytes_of(heap: Global, words: &str) -> Result<Vec<u8>, Fail> {
    let mut bytes = Vec::new(heap);
    for word in words.split_ascii_whitespace() {
        push_word(heap, &mut bytes, word)?;
    }
    Ok(bytes)
}

// The same behind a front.
pub(crate) fn bytes_behind(heap: Global, front: &[u8], words: &str) -> Result<Vec<u8>, Fail> {
    let mut bytes = Vec::from_slice(heap, front)?;
    bytes.extend_from_slice(bytes_of(heap, words)?.as_slice())?;
    Ok(bytes)
}
