//! The parts of a key that values give.
ghost use Rattle.std.specs.Prelude.{◌≡◌, take, IfOk, encode_utf8_all, None, Some};
ghost use Rattle.std.specs.Str.{str_to_ascii_lowercase};
ghost use Rattle.newt_spec_store.specs.Keys as spec;
ghost use Rattle.newt_spec_store.specs.declared.Kind.TheVariants as kind;
ghost use Rattle.newt_keys.specs.KeyForm.{IsPartOf};
ghost use Rattle.newt_keys.specs.Seen.{said};

use crate::types::Part;
use newt_fold::{folded, units_to_text};
use newt_graph::{Bytes, Node, Ref};
use newt_spec_store::Kind;
use std::alloc::{AllocError, Global};

/// The most units of a string that count for a key.
const MOST_UNITS: usize = 39;

/// The part of this type that a value is; missing where there is no value or it is of another type.
pub(crate) fn part_of(
    alloc: Global,
    nodes: &[Node],
    kind: Kind,
    value: Option<Ref>,
) -> Result<Part, AllocError>
    ensures value { IfOk result (λ part. said part ≡ spec.part_of nodes.now kind value) }
    ensures of_kind { IfOk result (λ part. IsPartOf kind (said part)) }
{
    match value {
        Some(Ref::Imm(word)) => Ok(word_part(kind, word)),
        Some(Ref::Node(n)) => match nodes.get(n as usize) {
            Some(node) => object_part(alloc, kind, node),
            None => Ok(Part::Missing),
        },
        None => Ok(Part::Missing),
    }
}

/// The part that an object is: a string or a symbol.
fn object_part(alloc: Global, kind: Kind, node: &Node) -> Result<Part, AllocError>
    ensures value { IfOk result (λ part. said part ≡ spec.object_part kind (Some node.now)) }
    ensures of_kind { IfOk result (λ part. IsPartOf kind (said part)) }
{
    match kind {
        Kind::Text => string_part(alloc, node),
        Kind::Symbol => symbol_part(alloc, node),
        Kind::Int | Kind::Char => Ok(Part::Missing),
    }
}

fn string_part(alloc: Global, node: &Node) -> Result<Part, AllocError>
    ensures value { IfOk result (λ part. said part ≡ spec.object_part kind.Text (Some node.now)) }
    ensures of_kind { IfOk result (λ part. IsPartOf kind.Text (said part)) }
{
    match node {
        Node::Str(units) => text_part(alloc, units.list()),
        _ => Ok(Part::Missing),
    }
}

fn symbol_part(alloc: Global, node: &Node) -> Result<Part, AllocError>
    ensures value { IfOk result (λ part. said part ≡ spec.object_part kind.Symbol (Some node.now)) }
    ensures of_kind { IfOk result (λ part. IsPartOf kind.Symbol (said part)) }
{
    match node {
        Node::Symbol(name) => name_part(alloc, name.list()),
        _ => Ok(Part::Missing),
    }
}

/// The first units of a string, folded.
fn text_part(alloc: Global, units: &[u16]) -> Result<Part, AllocError>
    ensures value { IfOk result (λ part. said part ≡ spec.words
        (encode_utf8_all (spec.folded (take 39 units.now)))) }
    ensures of_kind { IfOk result (λ part. IsPartOf kind.Text (said part)) }
{
    folded_part(alloc, first_units(units))
}

/// A string, folded.
fn folded_part(alloc: Global, units: &[u16]) -> Result<Part, AllocError>
    ensures value { IfOk result (λ part. said part ≡ spec.words
        (encode_utf8_all (spec.folded units.now))) }
    ensures of_kind { IfOk result (λ part. IsPartOf kind.Text (said part)) }
{
    let text = units_to_text(alloc, units)?;
    let folded = folded(alloc, text.as_str())?;
    Ok(text_of(folded.into_bytes()))
}

/// The units of a string that count for a key.
fn first_units(units: &[u16]) -> &[u16]
    ensures { result.now ≡ take 39 units.now }
{
    if units.len() > MOST_UNITS {
        &units[..MOST_UNITS]
    } else {
        units
    }
}

fn text_of(bytes: Vec<u8>) -> Part
    ensures value { said result ≡ spec.words bytes.items }
    ensures of_kind { IsPartOf kind.Text (said result) }
{
    Part::Text(Bytes::of(bytes))
}

/// The name of a symbol, in ASCII lower case.
fn name_part(alloc: Global, name: &[u8]) -> Result<Part, AllocError>
    ensures value { IfOk result (λ part. said part ≡ spec.name (str_to_ascii_lowercase name.now)) }
    ensures of_kind { IfOk result (λ part. IsPartOf kind.Symbol (said part)) }
{
    let mut lower = Vec::from_slice(alloc, name)?;
    lower.as_mut_slice().make_ascii_lowercase();
    Ok(name_of(lower))
}

fn name_of(bytes: Vec<u8>) -> Part
    ensures value { said result ≡ spec.name bytes.items }
    ensures of_kind { IsPartOf kind.Symbol (said result) }
{
    Part::Symbol(Bytes::of(bytes))
}

/// The part that an immediate word is: an integer ends in the bits 00, and the character c is 16 *
/// c + 6.
fn word_part(kind: Kind, word: i32) -> Part
    ensures value { said result ≡ spec.word_part kind word }
    ensures of_kind { IsPartOf kind (said result) }
{
    let bits = word.cast_unsigned();
    match kind {
        Kind::Int if bits % 4 == 0 => Part::Int(word.div_euclid(4)),
        Kind::Char if bits % 16 == 6 && bits < 1 << 20 => Part::Char((bits / 16) as u16),
        _ => Part::Missing,
    }
}
