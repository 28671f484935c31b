//! Symbols in a graph.
ghost use Rattle.std.specs.Prelude.{◌≡◌, IfOk, Some, map, is_some, option_map};
ghost use Rattle.std.specs.List.{list_any, list_all};
ghost use Rattle.newt_spec_graph.specs.Graph.{object, every};
ghost use Rattle.newt_spec_graph.specs.Slots.{is_named};
ghost use Rattle.newt_spec_query.specs.Tags.{symbol_name, symbols_in, is_among};
ghost use Rattle.newt_spec_query.specs.Spec.{one_or_more, values_of};
ghost use Rattle.newt_tags.specs.Masks.{symbols_of};

use crate::names::Names;
use newt_graph::{Bytes, Node, Ref};
use newt_path::has_name;
use std::alloc::{AllocError, Global};

/// Whether a value is a symbol of this name but for ASCII case, or an array that has one.
pub(crate) fn has_symbol(nodes: &[Node], value: Ref, name: &[u8]) -> bool
    ensures { result ≡ is_among (symbols_in nodes.now value) name.now }
{
    let Ref::Node(n) = value else {
        return false;
    };
    match nodes.get(n as usize) {
        Some(node) => has_symbol_in(nodes, node, name),
        None => false,
    }
}

#[tactic(auto, using(crate::proofs::Looked::any_is_among))]
fn has_symbol_in(nodes: &[Node], node: &Node, name: &[u8]) -> bool
    ensures { result ≡ is_among (symbols_of nodes.now (Some node.now)) name.now }
{
    match node {
        Node::Symbol(_) => has_name(node, name),
        Node::Array(_, values) => any_named(nodes, values.list(), name),
        _ => false,
    }
}

fn any_named(nodes: &[Node], values: &[Ref], name: &[u8]) -> bool
    ensures { result ≡ list_any (λ value. is_named name.now (object nodes.now value)) values.now }
{
    values.iter().any(|value| is_named(nodes, *value, name))
}

/// Whether a value is a symbol of this name but for ASCII case.
fn is_named(nodes: &[Node], value: Ref, name: &[u8]) -> bool
    ensures { result ≡ is_named name.now (object nodes.now value) }
{
    let Ref::Node(n) = value else {
        return false;
    };
    match nodes.get(n as usize) {
        Some(node) => has_name(node, name),
        None => false,
    }
}

fn is_symbol(nodes: &[Node], value: Ref) -> bool
    ensures { result ≡ is_some (symbol_name nodes.now value) }
{
    let Ref::Node(n) = value else {
        return false;
    };
    let Some(node) = nodes.get(n as usize) else {
        return false;
    };
    match node {
        Node::Symbol(_) => true,
        _ => false,
    }
}

fn all_symbols(nodes: &[Node], values: &[Ref]) -> bool
    ensures { result ≡ list_all (λ value. is_some (symbol_name nodes.now value)) values.now }
{
    values.iter().all(|value| is_symbol(nodes, *value))
}

/// Whether a value is a symbol or an array of symbols.
pub(crate) fn are_symbols(nodes: &[Node], value: Ref) -> bool
    ensures { result ≡ is_some (one_or_more nodes.now (symbol_name nodes.now) value) }
{
    if is_symbol(nodes, value) {
        return true;
    }
    match array_values(nodes, value) {
        Some(values) => all_symbols(nodes, values),
        None => false,
    }
}

/// The values of an array of any class. None exactly where the value is no array. It takes no
/// memory.
pub fn array_values(nodes: &[Node], value: Ref) -> Option<&[Ref]>
    ensures { option_map (λ values. values.now) result ≡ values_of nodes.now value }
{
    let Ref::Node(n) = value else {
        return None;
    };
    match nodes.get(n as usize) {
        Some(Node::Array(_, values)) => Some(values.list()),
        _ => None,
    }
}

/// The name of a value that is a symbol.
fn symbol(nodes: &[Node], value: Ref) -> Result<Option<Bytes>, AllocError>
    ensures { IfOk result (λ name. name ≡ symbol_name nodes.now value) }
{
    let Ref::Node(n) = value else {
        return Ok(None);
    };
    let Some(node) = nodes.get(n as usize) else {
        return Ok(None);
    };
    match node {
        Node::Symbol(name) => Ok(Some(name.copy()?)),
        _ => Ok(None),
    }
}

/// The names of values that all are symbols. None exactly where one is no symbol.
pub fn every_symbol(
    alloc: Global,
    nodes: &[Node],
    values: &[Ref],
) -> Result<Option<Names>, AllocError>
    ensures { IfOk result (λ names. names ≡ every (map (symbol_name nodes.now) values.now)) }
{
    let mut items = Vec::new(alloc);
    for value in values {
        let Some(name) = symbol(nodes, *value)? else {
            return Ok(None);
        };
        items.push(name)?;
    }
    Ok(Some(Names::of(items)))
}

/// The names of a symbol, or of an array of symbols.
pub(crate) fn symbols(
    alloc: Global,
    nodes: &[Node],
    value: Ref,
) -> Result<Option<Names>, AllocError>
    ensures { IfOk result (λ names. names ≡ one_or_more nodes.now (symbol_name nodes.now) value) }
{
    let Ref::Node(n) = value else {
        return Ok(None);
    };
    let Some(node) = nodes.get(n as usize) else {
        return Ok(None);
    };
    match node {
        Node::Symbol(name) => Ok(Some(Names::of(vec![in alloc; name.copy()?]?))),
        Node::Array(_, values) => every_symbol(alloc, nodes, values.list()),
        _ => Ok(None),
    }
}
