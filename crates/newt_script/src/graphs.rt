//! The graphs and bytes in a line: object streams, bytes in hexadecimal digits, and literals.
ghost use Rattle.std.specs.Prelude.{◌≡◌, ◌≢◌, Some, None, IfOk, IfErr};
ghost use Rattle.newt_base.specs.Text.{hex_bytes};
ghost use Rattle.newt_base.specs.declared.Refusal.TheVariants.{Malformed};
ghost use Rattle.newt_script_words.specs.Readers.{rest_of};
ghost use Rattle.newt_script.specs.Graphs as spec;

use crate::fault::LineFault;
use newt_base::{HexFault, Refusal, hex_read};
use newt_graph::{Bytes, Graph};
use newt_lit_read::{LitFault, read_literal};
use newt_nsof_read::{NsofFault, decode};
use newt_script_words::Words;
use std::alloc::Global;
use std::str;

/// The graph of an object stream.
#[tactic(auto, unfolding(crate::specs::Graphs::stream_of))]
fn stream(alloc: Global, bytes: &[u8]) -> Result<Graph, LineFault>
    ensures { result ≢ Err LineFault.Memory → result ≡ spec.digits_answer (Some bytes.now) }
{
    match decode(alloc, bytes) {
        Ok(graph) => Ok(graph),
        Err(NsofFault::Malformed) => Err(LineFault::Refused(Refusal::Malformed)),
        Err(NsofFault::Compressed) => Err(LineFault::Refused(Refusal::Compressed)),
        Err(NsofFault::Memory) => Err(LineFault::Memory),
    }
}

/// The graph of a literal in bytes. `Literal` comes exactly where they are not UTF-8, or the text
/// is no literal.
pub fn literal(alloc: Global, bytes: &[u8]) -> Result<Graph, LitFault>
    ensures reading { result ≢ Err LitFault.Memory → result ≡ spec.literal_of bytes.now }
{
    match str::from_utf8(bytes) {
        Ok(text) => read_literal(alloc, text),
        Err(_) => Err(LitFault::Literal),
    }
}

/// HEX: the bytes of the hexadecimal digits that are left of a line.
fn last_digits(alloc: Global, words: &Words) -> Result<Vec<u8>, LineFault>
    ensures read { IfOk result (λ bytes. hex_bytes (rest_of words.now) ≡ Some bytes.items) }
    ensures refused { result ≢ Err LineFault.Memory
        → IfErr result (λ fault.
        (fault ≡ LineFault.Refused Malformed) × (hex_bytes (rest_of words.now) ≡ None)) }
{
    match hex_read(alloc, words.rest()) {
        Ok(bytes) => Ok(bytes),
        Err(HexFault::NotHex) => Err(LineFault::Refused(Refusal::Malformed)),
        Err(HexFault::Memory) => Err(LineFault::Memory),
    }
}

/// HEX: the graph of the object stream that is left of a line.
#[tactic(auto, unfolding(crate::specs::Graphs::stream_word))]
pub(crate) fn last_stream(alloc: Global, words: &Words) -> Result<Graph, LineFault>
    ensures { result ≢ Err LineFault.Memory → result ≡ spec.stream_word (rest_of words.now) }
{
    let bytes = last_digits(alloc, words)?;
    stream(alloc, &bytes)
}

/// HEX: the bytes that are left of a line.
#[tactic(auto, unfolding(crate::specs::Graphs::bytes_word))]
pub(crate) fn last_bytes(alloc: Global, words: &Words) -> Result<Bytes, LineFault>
    ensures { result ≢ Err LineFault.Memory → result ≡ spec.bytes_word (rest_of words.now) }
{
    Ok(Bytes::of(last_digits(alloc, words)?))
}

/// LIT: the graph of the literal that is left of a line, which is not empty.
#[tactic(auto, unfolding(crate::specs::Graphs::literal_word, crate::specs::Graphs::literal_in))]
pub(crate) fn last_literal(alloc: Global, words: &Words) -> Result<Graph, LineFault>
    ensures { result ≢ Err LineFault.Memory → result ≡ spec.literal_word (rest_of words.now) }
{
    let text = words.rest();
    if text.is_empty() {
        return Err(LineFault::FORM);
    }
    match literal(alloc, text) {
        Ok(graph) => Ok(graph),
        Err(LitFault::Literal) => Err(LineFault::Refused(Refusal::Literal)),
        Err(LitFault::Memory) => Err(LineFault::Memory),
    }
}
