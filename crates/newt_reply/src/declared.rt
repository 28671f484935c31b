//! Declarations of indexes and tags in replies: paths and symbols as they were spelt when they were
//! declared.
ghost use Rattle.std.specs.Prelude.{◌≡◌, ◌∷◌, ◌++◌, IfOk, OnOk, flat_map};
ghost use Rattle.newt_keys.specs.Seen.{declared, declared_all};
ghost use Rattle.newt_spec_world.specs.Reply as spec;
ghost use Rattle.newt_reply.specs.Fields.{ok_text, part_item, spec_item};

use crate::line::push_field;
use newt_graph::Bytes;
use newt_keys::{IndexPart, IndexSpec, Kind, Order};
use newt_path::Path;
use std::alloc::{AllocError, Global};

/// The word of a type.
fn kind_word(kind: Kind) -> &'static [u8]
    ensures { result.now ≡ spec.kind_word kind }
{
    match kind {
        Kind::Text => b"string",
        Kind::Int => b"int",
        Kind::Char => b"char",
        Kind::Symbol => b"symbol",
    }
}

/// The word of a direction.
fn direction_word(order: Order) -> &'static [u8]
    ensures { result.now ≡ spec.direction_word order }
{
    match order {
        Order::Ascend => b"ascend",
        Order::Descend => b"descend",
    }
}

/// Names that follow a first one, each after a point.
fn push_names(text: &mut Vec<u8>, names: &[Bytes]) -> Result<(), AllocError>
    ensures { OnOk result (text.new.items ≡ text.old.items ++ flat_map (λ name. 46 ∷ name)
        names.now) }
{
    for name in names {
        text.push(b'.')?;
        text.extend_from_slice(name.list())?;
    }
    Ok(())
}

/// A path with points between its names.
#[tactic(auto, using(crate::proofs::Pieces::path_is, crate::proofs::Pieces::no_path))]
pub(crate) fn path_text(alloc: Global, path: &Path) -> Result<Vec<u8>, AllocError>
    ensures { IfOk result (λ text. text.items ≡ spec.path_field path.now) }
{
    let [first, rest @ ..] = path.list() else {
        return Ok(Vec::new(alloc));
    };
    let mut text = Vec::from_slice(alloc, first.list())?;
    push_names(&mut text, rest)?;
    Ok(text)
}

/// A part of an index: its path, its type and its direction with colons between them.
fn part_text(alloc: Global, part: &IndexPart) -> Result<Vec<u8>, AllocError>
    ensures { IfOk result (λ text. text.items ≡ part_item (declared part.now)) }
{
    let mut text = path_text(alloc, &part.path)?;
    text.push(b':')?;
    text.extend_from_slice(kind_word(part.kind))?;
    text.push(b':')?;
    text.extend_from_slice(direction_word(part.order))?;
    Ok(text)
}

/// Parts that follow a first one, each after a space.
fn push_parts(alloc: Global, text: &mut Vec<u8>, parts: &[IndexPart]) -> Result<(), AllocError>
    ensures { OnOk result (text.new.items ≡ text.old.items ++ flat_map
        (λ part. 32 ∷ part_item (declared part)) parts.now) }
{
    for part in parts {
        text.push(b' ')?;
        text.extend_from_slice(&part_text(alloc, part)?)?;
    }
    Ok(())
}

/// Parts with a space between each two.
fn parts_text(alloc: Global, parts: &[IndexPart]) -> Result<Vec<u8>, AllocError>
    ensures { IfOk result (λ text. text.items ≡ spec_item (declared_all parts.now)) }
{
    let [first, rest @ ..] = parts else {
        return Ok(Vec::new(alloc));
    };
    let mut text = part_text(alloc, first)?;
    push_parts(alloc, &mut text, rest)?;
    Ok(text)
}

/// An index: its parts with a space between each two.
pub(crate) fn spec_text(alloc: Global, spec: &IndexSpec) -> Result<Vec<u8>, AllocError>
    ensures { IfOk result (λ text. text.items ≡ spec_item spec.now) }
{
    parts_text(alloc, spec.list())
}

/// Fields, each after a space.
fn push_fields(line: &mut Vec<u8>, fields: &[Bytes]) -> Result<(), AllocError>
    ensures { OnOk result (line.new.items ≡ line.old.items ++ flat_map spec.field fields.now) }
{
    for field in fields {
        push_field(line, field.list())?;
    }
    Ok(())
}

/// `ok`, a field and then names as fields, with the end of the line.
#[tactic(auto, using(crate::proofs::Pieces::line_is))]
pub(crate) fn names_line(
    alloc: Global,
    first: &[u8],
    names: &[Bytes],
) -> Result<Vec<u8>, AllocError>
    ensures { IfOk result (λ line. line.items ≡ ok_text (first.now ∷ names.now)) }
{
    let mut line = Vec::from_slice(alloc, b"ok")?;
    push_field(&mut line, first)?;
    push_fields(&mut line, names)?;
    line.push(b'\n')?;
    Ok(line)
}
