//! Copies of nodes with other numbers.
ghost use Rattle.std.specs.Prelude.{◌≡◌, ◌+◌, ◌<◌, IfOk, map, length};
ghost use Rattle.newt_graph.specs.Raw.{renamed_ref, renamed_class, renamed};
ghost use Rattle.newt_graph.specs.Names.{Knows};
ghost use Rattle.newt_graph.specs.Import.{known_as, numbers_from, kept_of, looked_up};

use crate::lists::{Refs, Tags};
use crate::names::Names;
use crate::node::{Node, Ref};
use std::alloc::{AllocError, Global};

/// The new number of a node.
fn looked_up(table: &[u32], k: u32) -> u32
    ensures { result ≡ looked_up table.now k }
{
    match table.get(k as usize) {
        Some(n) => *n,
        None => 0,
    }
}

pub(crate) fn copied_ref(table: &[u32], value: Ref) -> Ref
    ensures { result ≡ renamed_ref (looked_up table.now) value }
{
    match value {
        Ref::Imm(w) => Ref::Imm(w),
        Ref::Node(k) => Ref::Node(looked_up(table, k)),
    }
}

fn copied_class(table: &[u32], class: Option<u32>) -> Option<u32>
    ensures { result ≡ renamed_class (looked_up table.now) class }
{
    match class {
        Some(k) => Some(looked_up(table, k)),
        None => None,
    }
}

fn copied_tags(alloc: Global, table: &[u32], tags: &[u32]) -> Result<Tags, AllocError>
    ensures { IfOk result (λ t. t ≡ map (looked_up table.now) tags.now) }
{
    let mut numbers = Vec::new(alloc);
    for k in tags {
        numbers.push(looked_up(table, *k))?;
    }
    Ok(Tags::of(numbers))
}

fn copied_values(alloc: Global, table: &[u32], values: &[Ref]) -> Result<Refs, AllocError>
    ensures { IfOk result (λ v. v ≡ map (renamed_ref (looked_up table.now)) values.now) }
{
    let mut refs = Vec::new(alloc);
    for value in values {
        refs.push(copied_ref(table, *value))?;
    }
    Ok(Refs::of(refs))
}

/// A copy of a node with the new numbers of its parts.
fn copied(alloc: Global, table: &[u32], node: &Node) -> Result<Node, AllocError>
    ensures { IfOk result (λ n. n ≡ renamed (looked_up table.now) node.now) }
{
    match node {
        Node::Symbol(name) => Ok(Node::Symbol(name.copy()?)),
        Node::Str(units) => Ok(Node::Str(units.copy()?)),
        Node::Binary(class, bytes) => Ok(Node::Binary(looked_up(table, *class), bytes.copy()?)),
        Node::Large(class, bytes) => Ok(Node::Large(looked_up(table, *class), bytes.copy()?)),
        Node::Array(class, values) => {
            let values = copied_values(alloc, table, values.list())?;
            Ok(Node::Array(copied_class(table, *class), values))
        }
        Node::Frame(tags, values) => {
            let tags = copied_tags(alloc, table, tags.list())?;
            let values = copied_values(alloc, table, values.list())?;
            Ok(Node::Frame(tags, values))
        }
    }
}

/// The number of the old symbol that is alike, but for ASCII case.
fn known_as(
    alloc: Global,
    names: &Names,
    old: &[Node],
    node: &Node,
) -> Result<Option<u32>, AllocError>
    requires { Knows names.now.numbers old.now }
    ensures { IfOk result (λ k. k ≡ known_as old.now node.now) }
{
    match node {
        Node::Symbol(name) => {
            let key = Names::key(alloc, name.list())?;
            Ok(names.find(old, name.list(), &key))
        }
        Node::Str(_)
        | Node::Binary(_, _)
        | Node::Large(_, _)
        | Node::Array(_, _)
        | Node::Frame(_, _) => Ok(None),
    }
}

/// The numbers that the nodes of a graph get after old ones.
pub(crate) fn numbers(
    alloc: Global,
    names: &Names,
    old: &[Node],
    new: &[Node],
) -> Result<Vec<u32>, AllocError>
    requires known { Knows names.now.numbers old.now }
    requires few { length old.now + length new.now < 4294967296 }
    ensures { IfOk result (λ v. v.items ≡ numbers_from old.now (length old.now) new.now) }
{
    let mut numbers = Vec::new(alloc);
    let mut n = old.len() as u32;
    for node in new {
        match known_as(alloc, names, old, node)? {
            Some(k) => numbers.push(k)?,
            None => {
                numbers.push(n)?;
                n += 1;
            }
        }
    }
    Ok(numbers)
}

/// Copies of the new nodes, without the symbols that an old one matches.
pub(crate) fn copies(
    alloc: Global,
    table: &[u32],
    names: &Names,
    old: &[Node],
    new: &[Node],
) -> Result<Vec<Node>, AllocError>
    requires { Knows names.now.numbers old.now }
    ensures { IfOk result (λ v. v.items ≡ map (renamed (looked_up table.now))
        (kept_of old.now new.now)) }
{
    let mut out = Vec::new(alloc);
    for node in new {
        match known_as(alloc, names, old, node)? {
            Some(_) => {}
            None => out.push(copied(alloc, table, node)?)?,
        }
    }
    Ok(out)
}
