//! The fields of replies.
ghost use Rattle.std.specs.Prelude.{◌≡◌, ◌++◌, IfOk, OnOk, codes, decimal};
ghost use Rattle.std.specs.List.{list_any};
ghost use Rattle.newt_base.specs.Names.{needs_quotes};
ghost use Rattle.newt_base.specs.Text.{hex_text as hex_of};
ghost use Rattle.newt_spec_literal.specs.Printed.{escaped};
ghost use Rattle.newt_spec_nsof.specs.Written.{nsof};
ghost use Rattle.newt_spec_world.specs.Reply.{name_field};
ghost use Rattle.newt_reply.specs.Fields.{quoted, alias_item};

use newt_base::{Name, hex_text, needs_quotes};
use newt_entries_alias::Alias;
use newt_graph::Graph;
use newt_nsof_write::encode;
use std::alloc::{AllocError, Global};

/// A number in decimal.
pub(crate) fn number_text(alloc: Global, number: u32) -> Result<Vec<u8>, AllocError>
    ensures { IfOk result (λ text. text.items ≡ decimal number) }
{
    Ok(format!(in alloc; "{number}")?.into_bytes())
}

/// The hexadecimal digits of a graph's object stream.
pub(crate) fn stream_text(alloc: Global, graph: &Graph) -> Result<Vec<u8>, AllocError>
    ensures { IfOk result (λ digits. digits.items ≡ hex_of (nsof graph.now)) }
{
    let stream = encode(alloc, graph)?;
    hex_text(alloc, &stream)
}

/// A byte in quotes, after a backslash where it is a quote or a backslash.
fn push_escaped(text: &mut Vec<u8>, byte: u8) -> Result<(), AllocError>
    ensures { OnOk result (text.new.items ≡ text.old.items ++ escaped (codes "\"\\") byte) }
{
    if byte == b'"' || byte == b'\\' {
        text.push(b'\\')?;
    }
    text.push(byte)?;
    Ok(())
}

/// Bytes in quotes.
fn quoted_text(alloc: Global, bytes: &[u8]) -> Result<Vec<u8>, AllocError>
    ensures { IfOk result (λ text. text.items ≡ quoted bytes.now) }
{
    let mut text = Vec::from_slice(alloc, b"\"")?;
    for byte in bytes {
        push_escaped(&mut text, *byte)?;
    }
    text.push(b'"')?;
    Ok(text)
}

/// A name, in quotes where it holds a space, a quote or a backslash.
pub(crate) fn name_text(alloc: Global, name: &Name) -> Result<Vec<u8>, AllocError>
    ensures { IfOk result (λ text. text.items ≡ name_field name.now) }
{
    let bytes = name.list();
    if must_be_quoted(bytes) {
        quoted_text(alloc, bytes)
    } else {
        Vec::from_slice(alloc, bytes)
    }
}

/// Whether a name stands in quotes.
fn must_be_quoted(bytes: &[u8]) -> bool
    ensures { result ≡ list_any needs_quotes bytes.now }
{
    bytes.iter().any(|byte| needs_quotes(*byte))
}

/// An alias of these numbers as a literal.
fn alias_text(alloc: Global, store: u32, soup: u32, uid: u32) -> Result<Vec<u8>, AllocError>
    ensures { IfOk result (λ text. text.items ≡ alias_item store soup uid) }
{
    Ok(format!(in alloc; "[alias: {store}, {soup}, {uid}]")?.into_bytes())
}

/// An alias as a literal.
pub(crate) fn alias_literal(alloc: Global, alias: Alias) -> Result<Vec<u8>, AllocError>
    ensures { IfOk result (λ text. text.items ≡ alias_item alias.store alias.soup alias.uid) }
{
    alias_text(alloc, alias.store.0, alias.soup.0, alias.uid.0)
}
