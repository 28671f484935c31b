//! What the words of a row say.
use crate::records::Records;
use crate::row_fault::RowFault;
use std::alloc::{AllocError, Global};

/// So many times the same byte.
pub(crate) fn filled(alloc: Global, byte: u8, count: usize) -> Result<Vec<u8>, AllocError> {
    let mut bytes = Vec::new(alloc);
    bytes.resize(count, byte)?;
    Ok(bytes)
}

/// The words before and after a mark. Where there is no mark, nothing is after it.
pub(crate) fn around<'a>(row: &'a str, mark: &str) -> (&'a str, &'a str) {
    row.split_once(mark).unwrap_or((row, ""))
}

/// A payload: the text itself, or a byte and how often it stands there, as in `1*4096`.
pub(crate) fn payload_of(alloc: Global, word: &str) -> Result<Vec<u8>, RowFault> {
    match word.split_once('*') {
        Some((byte, count)) => Ok(filled(alloc, byte.parse()?, count.parse()?)?),
        None => Ok(word.as_bytes().to_vec(alloc)?),
    }
}

/// The records of a text, one for each word: an empty list for `no record`, and none for
/// `no journal`.
pub(crate) fn records_of(alloc: Global, text: &str) -> Result<Option<Records>, RowFault> {
    let mut records = Vec::new(alloc);
    match text {
        "no journal" => return Ok(None),
        "no record" => return Ok(Some(records)),
        _ => {}
    }
    for word in text.split_whitespace() {
        records.push(payload_of(alloc, word)?)?;
    }
    Ok(Some(records))
}

/// The same bytes with some others: each word is a place and the byte there, as in `4096=1`.
pub(crate) fn poked(alloc: Global, bytes: &[u8], pokes: &str) -> Result<Vec<u8>, RowFault> {
    let mut poked = bytes.to_vec(alloc)?;
    for poke in pokes.split_whitespace() {
        let (place, byte) = around(poke, "=");
        let place: usize = place.parse()?;
        let Some(there) = poked.get_mut(place) else {
            return Err(RowFault::Row);
        };
        *there = byte.parse()?;
    }
    Ok(poked)
}
