//! Bytes as words.
use std::alloc::Global;
use std::test::Fail;

/// Appends what a word stands for: its letters for `'foo`, and otherwise the bytes of hexadecimal
/// digits. A number after a star says how often.
pub fn push_word(alloc: Global, to: &mut Vec<u8>, word: &str) -> Result<(), Fail> {
    let (word, count) = word.split_once('*').unwrap_or((word, "1"));
    let count: u32 = count.parse()?;
    let part = match word.strip_prefix('\'') {
        Some(letters) => Vec::from_slice(alloc, letters.as_bytes())?,
        None => hex::decode(alloc, word)?,
    };
    for _ in 0..count {
        to.extend_from_slice(&part)?;
    }
    Ok(())
}

/// The bytes that words stand for.
pub fn bytes_of(alloc: Global, words: &str) -> Result<Vec<u8>, Fail> {
    let mut bytes = Vec::new(alloc);
    for word in words.split_whitespace() {
        push_word(alloc, &mut bytes, word)?;
    }
    Ok(bytes)
}
