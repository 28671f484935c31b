//! Bytes that are spelt in digits.

use newt_base::hex_read;
use std::alloc::Global;
use std::test::Fail;

/// Appends the bytes of a piece: two digits a byte, and after a `*` how often they stand there.
fn push_piece(alloc: Global, to: &mut Vec<u8>, piece: &str) -> Result<(), Fail> {
    let (digits, count) = piece.split_once('*').unwrap_or((piece, "1"));
    let bytes = hex_read(alloc, digits.as_bytes())?;
    let count: u32 = count.parse()?;
    for _ in 0..count {
        to.extend_from_slice(&bytes)?;
    }
    Ok(())
}

/// The bytes of a text of pieces with blanks between them, as `0206 00*3` for `0206000000`.
pub(crate) fn spelt(alloc: Global, text: &str) -> Result<Vec<u8>, Fail> {
    let mut bytes = Vec::new(alloc);
    for piece in text.split_whitespace() {
        push_piece(alloc, &mut bytes, piece)?;
    }
    Ok(bytes)
}

/// How many bytes come before the last blank ones.
pub(crate) fn used(bytes: &[u8], blank: u8) -> usize {
    let mut used: usize = 0;
    let mut count: usize = 0;
    for byte in bytes {
        count = count.saturating_add(1);
        if *byte != blank {
            used = count;
        }
    }
    used
}
