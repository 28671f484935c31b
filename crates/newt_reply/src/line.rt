//! The line of a reply that is no refusal.
ghost use Rattle.std.specs.Prelude.{◌≡◌, ◌++◌, ◌∷◌, [], IfOk, OnOk, map};
ghost use Rattle.newt_spec_literal.specs.Printed.{literal};
ghost use Rattle.newt_spec_world.specs.Reply as spec;
ghost use Rattle.newt_reply.specs.Fields.{ok_text};

use newt_graph::Graph;
use newt_lit_print::print_after;
use std::alloc::{AllocError, Global};

/// A field after a space. One that is empty is left out with its space.
pub(crate) fn push_field(line: &mut Vec<u8>, field: &[u8]) -> Result<(), AllocError>
    ensures { OnOk result (line.new.items ≡ line.old.items ++ spec.field field.now) }
{
    if !field.is_empty() {
        line.push(b' ')?;
        line.extend_from_slice(field)?;
    }
    Ok(())
}

/// How many bytes have room at once. Most replies of numbers and names are shorter.
const ROOM: usize = 48;

/// `ok` and the fields.
fn ok_front(alloc: Global, fields: &[&[u8]]) -> Result<Vec<u8>, AllocError>
    ensures { IfOk result (λ line. line.items ≡ spec.ok (map (λ part. part.now) fields.now)) }
{
    let mut line = Vec::with_capacity(alloc, ROOM)?;
    line.extend_from_slice(b"ok")?;
    for field in fields {
        push_field(&mut line, field)?;
    }
    Ok(line)
}

/// `ok` and the fields, with the end of the line.
pub(crate) fn ok_line(alloc: Global, fields: &[&[u8]]) -> Result<Vec<u8>, AllocError>
    ensures { IfOk result (λ line. line.items ≡ ok_text (map (λ part. part.now) fields.now)) }
{
    let mut line = ok_front(alloc, fields)?;
    line.push(b'\n')?;
    Ok(line)
}

/// `ok`, the fields and the literal of a graph, which is written where it stands, with the end of
/// the line.
pub(crate) fn literal_line(
    alloc: Global,
    fields: &[&[u8]],
    graph: &Graph,
) -> Result<Vec<u8>, AllocError>
    ensures { IfOk result (λ line. line.items ≡ ok_text
        (map (λ part. part.now) fields.now ++ literal graph.now ∷ [])) }
{
    let mut front = ok_front(alloc, fields)?;
    front.push(b' ')?;
    let mut line = print_after(alloc, front, graph)?;
    line.push(b'\n')?;
    Ok(line)
}
