//! Tables of streams and their answers.
use newt_graph::Graph;
use newt_nsof_read::{NsofFault, decode};
use newt_nsof_write::{encode, encode_flat, encoded_len, skeleton_len};
use newt_test_tables::push_word;
use std::alloc::{AllocError, Global};
use std::test::Fail;

/// Appends names of five letters, each with its length before it, no two of them the same.
fn push_names(to: &mut Vec<u8>, count: u32) -> Result<(), Fail> {
    for number in 0..count {
        to.extend_from_slice(b"\x07\x05")?;
        for power in [1, 16, 256, 4_096, 65_536] {
            to.push(b'a' + (number / power % 16) as u8)?;
        }
    }
    Ok(())
}

/// The tags of a small rectangle in full, each with its length before it.
const SIDES: &[u8] = b"\x07\x03top\x07\x04left\x07\x06bottom\x07\x05right";

/// The bytes that words stand for. `names*12` are twelve names, and `sides` the tags of a small
/// rectangle.
fn bytes_of(alloc: Global, words: &str) -> Result<Vec<u8>, Fail> {
    let mut bytes = Vec::new(alloc);
    for word in words.split_whitespace() {
        match word.strip_prefix("names*") {
            Some(count) => push_names(&mut bytes, count.parse()?)?,
            None if word == "sides" => bytes.extend_from_slice(SIDES)?,
            None => push_word(alloc, &mut bytes, word)?,
        }
    }
    Ok(bytes)
}

/// A text of a row: `kept` is the stream as it stands.
fn text_of(alloc: Global, given: &[u8], words: &str) -> Result<Vec<u8>, Fail> {
    if words == "kept" {
        return Ok(given.to_vec(alloc)?);
    }
    bytes_of(alloc, words)
}

fn is_text(written: &Result<Vec<u8>, AllocError>, text: &[u8]) -> bool {
    match written {
        Ok(written) => written.as_slice() == text,
        Err(_) => false,
    }
}

fn is_length(told: &Result<u64, AllocError>, text: &[u8]) -> bool {
    match told {
        Ok(length) => *length == text.len() as u64,
        Err(_) => false,
    }
}

/// Whether this is the written text of a graph, and has the length that is known in advance.
fn is_written(alloc: Global, graph: &Graph, text: &[u8]) -> bool {
    is_text(&encode(alloc, graph), text) && is_length(&encoded_len(alloc, graph), text)
}

/// Whether this is the flat text of a graph. Its length is known in advance, from that of its
/// skeleton and the number of bytes of its large binaries.
fn is_flat(alloc: Global, graph: &Graph, text: &[u8], large: u64) -> bool {
    is_text(&encode_flat(alloc, graph), text)
        && skeleton_len(graph) == (text.len() as u64).saturating_sub(large)
}

/// The two texts of a graph, and how many bytes of large binaries it has.
#[derive(Drop)]
struct Texts<'a> {
    written: &'a [u8],
    flat: &'a [u8],
    large: u64,
}

/// Whether the bytes spell a graph of these texts.
fn gives(alloc: Global, given: &[u8], texts: &Texts) -> bool {
    let Ok(graph) = decode(alloc, given) else {
        return false;
    };
    is_written(alloc, &graph, texts.written) && is_flat(alloc, &graph, texts.flat, texts.large)
}

/// The same for a text that is not the stream itself.
fn gives_too(alloc: Global, text: &[u8], given: &[u8], texts: &Texts) -> bool {
    text == given || gives(alloc, text, texts)
}

/// Whether the bytes spell a graph of these texts, each text does so too, and what is cut off is
/// malformed.
fn spells(alloc: Global, given: &[u8], texts: &Texts) -> bool {
    gives(alloc, given, texts)
        && gives_too(alloc, texts.written, given, texts)
        && gives_too(alloc, texts.flat, given, texts)
        && is_whole(alloc, given)
}

/// How bytes are refused.
fn refusal(alloc: Global, given: &[u8]) -> &'static str {
    match decode(alloc, given) {
        Ok(_) => "read",
        Err(NsofFault::Malformed) => "malformed",
        Err(NsofFault::Compressed) => "compressed",
        Err(NsofFault::Memory) => "memory",
    }
}

/// Whether each text that a stream begins with is malformed. A long stream is not tried.
fn is_whole(alloc: Global, given: &[u8]) -> bool {
    if given.len() > 100 {
        return true;
    }
    for n in 0..given.len() {
        if refusal(alloc, &given[..n]) != "malformed" {
            return false;
        }
    }
    true
}

/// Whether a stream has the answer of its row, and is malformed where it is cut off.
fn has_answer(alloc: Global, given: &[u8], answer: &str, large: u64) -> Result<bool, Fail> {
    Ok(match answer {
        "malformed" => refusal(alloc, given) == answer,
        "compressed" => refusal(alloc, given) == answer && is_whole(alloc, given),
        texts => {
            let (written, flat) = texts.split_once(" / ").unwrap_or((texts, texts));
            let written = text_of(alloc, given, written)?;
            let flat = text_of(alloc, given, flat)?;
            spells(
                alloc,
                given,
                &Texts {
                    written: &written,
                    flat: &flat,
                    large,
                },
            )
        }
    })
}

/// Looks for the answer of each row. A row is a stream and, after ` => `, how it is refused, or its
/// written text and, after ` / `, its flat text where that is another one. `kept` is a text that is
/// the stream as it stands. After another ` => ` stands how many bytes of large binaries it has, if
/// any. Rows that begin with `#` are comments.
pub(crate) fn expect_answers(alloc: Global, table: &str) -> Result<(), Fail> {
    for row in table.lines() {
        if row.is_empty() || row.starts_with('#') {
            continue;
        }
        let (given, answer) = row.split_once(" => ").ok_or("a row without an answer")?;
        let (answer, large) = answer.split_once(" => ").unwrap_or((answer, "0"));
        let given = bytes_of(alloc, given)?;
        if !has_answer(alloc, &given, answer, large.parse()?)? {
            return Err(Fail::new(format_args!("another answer: {row}")));
        }
    }
    Ok(())
}
