//! The walk over nodes in any order.
ghost use Rattle.std.specs.Prelude.{◌≡◌, ◌<◌, ◌+◌, ◌^◌, OnOk, IfOk, map, ◌-◌, nat_le, length, All};
ghost use Rattle.std.specs.Prelude.{Some, None, if◌then◌else◌};
ghost use Rattle.std.specs.List.{sum_by};
ghost use Rattle.newt_graph.specs.Graph.{payload, are_light};
ghost use Rattle.newt_graph.specs.Raw.{renamed_ref, renamed_class, renamed, IsRaw, IsNormalForm};
ghost use Rattle.newt_graph.specs.Meeting.{Gives, meet_label, meet_labels, meet_class, meet_each};
ghost use Rattle.newt_graph.specs.Meeting.{meet, number, moved, Once, normal_form};

use crate::fault::GraphFault;
use crate::graph::Graph;
use crate::limits::{MOST_BYTES, MOST_NODES, MOST_OPEN};
use crate::lists::{Refs, Tags, Units};
use crate::node::{Node, Ref};
use crate::walker::Walker;
use std::alloc::{AllocError, Global};
use std::mem;

/// Meets a symbol.
#[tactic(auto, unfolding(crate::specs::Meeting::meet_label))]
fn label(seen: &mut Walker, k: u32) -> Result<(), AllocError>
    ensures { OnOk result (seen.new ≡ meet_label seen.old k) }
{
    let _new = seen.meet(k)?;
    Ok(())
}

/// Meets the tags of a frame.
fn labels(seen: &mut Walker, tags: &[u32]) -> Result<(), AllocError>
    ensures { OnOk result (seen.new ≡ meet_labels seen.old tags.now) }
{
    for tag in tags {
        label(seen, *tag)?;
    }
    Ok(())
}

/// Meets the class of an array.
fn class(seen: &mut Walker, class: Option<u32>) -> Result<(), AllocError>
    ensures { OnOk result (seen.new ≡ meet_class seen.old class) }
{
    match class {
        Some(k) => label(seen, k),
        None => Ok(()),
    }
}

/// Meets values one after another.
#[cycle(value)]
fn each(seen: &mut Walker, nodes: &[Node], values: &[Ref], room: u8) -> Result<(), GraphFault>
    ensures { Gives (λ done. seen.new) result
        (meet_each (λ seen value. meet nodes.now room seen value) seen.old values.now) }
{
    for one in values {
        value(seen, nodes, *one, room)?;
    }
    Ok(())
}

/// Meets a value and what it leads to, where so many containers may be opened.
#[cycle(value)]
#[tactic(auto, unfolding(crate::specs::Meeting::meet, crate::specs::Meeting::meet_by, crate::specs::Meeting::enter))]
fn value(seen: &mut Walker, nodes: &[Node], value: Ref, room: u8) -> Result<(), GraphFault>
    ensures { Gives (λ done. seen.new) result (meet nodes.now room seen.old value) }
{
    let Ref::Node(k) = value else {
        return Ok(());
    };
    if !seen.meet(k)? {
        return Ok(());
    }
    match nodes.get(k as usize) {
        Some(Node::Binary(class, _) | Node::Large(class, _)) => Ok(label(seen, *class)?),
        Some(Node::Array(name, values)) => {
            if room == 0 {
                return Err(GraphFault::Limit);
            }
            class(seen, *name)?;
            each(seen, nodes, values.list(), room - 1)
        }
        Some(Node::Frame(tags, values)) => {
            if room == 0 {
                return Err(GraphFault::Limit);
            }
            labels(seen, tags.list())?;
            each(seen, nodes, values.list(), room - 1)
        }
        Some(Node::Symbol(_) | Node::Str(_)) | None => Ok(()),
    }
}

/// A value with the new number of its node.
fn numbered(seen: &Walker, value: Ref) -> Ref
    ensures { result ≡ renamed_ref (number seen.now.order) value }
{
    match value {
        Ref::Imm(w) => Ref::Imm(w),
        Ref::Node(k) => Ref::Node(seen.number(k)),
    }
}

fn numbered_class(seen: &Walker, class: Option<u32>) -> Option<u32>
    ensures { result ≡ renamed_class (number seen.now.order) class }
{
    match class {
        Some(k) => Some(seen.number(k)),
        None => None,
    }
}

fn numbered_tags(alloc: Global, seen: &Walker, tags: &[u32]) -> Result<Tags, AllocError>
    ensures { IfOk result (λ t. t ≡ map (number seen.now.order) tags.now) }
{
    let mut numbers = Vec::new(alloc);
    for k in tags {
        numbers.push(seen.number(*k))?;
    }
    Ok(Tags::of(numbers))
}

fn numbered_values(alloc: Global, seen: &Walker, values: &[Ref]) -> Result<Refs, AllocError>
    ensures { IfOk result (λ v. v ≡ map (renamed_ref (number seen.now.order)) values.now) }
{
    let mut refs = Vec::new(alloc);
    for value in values {
        refs.push(numbered(seen, *value))?;
    }
    Ok(Refs::of(refs))
}

/// A node with the new numbers of its parts.
fn numbered_node(alloc: Global, seen: &Walker, node: Node) -> Result<Node, AllocError>
    ensures { IfOk result (λ n. n ≡ renamed (number seen.now.order) node) }
{
    match node {
        Node::Symbol(name) => Ok(Node::Symbol(name)),
        Node::Str(units) => Ok(Node::Str(units)),
        Node::Binary(class, bytes) => Ok(Node::Binary(seen.number(class), bytes)),
        Node::Large(class, bytes) => Ok(Node::Large(seen.number(class), bytes)),
        Node::Array(class, values) => {
            let values = numbered_values(alloc, seen, values.list())?;
            Ok(Node::Array(numbered_class(seen, class), values))
        }
        Node::Frame(tags, values) => {
            let tags = numbered_tags(alloc, seen, tags.list())?;
            let values = numbered_values(alloc, seen, values.list())?;
            Ok(Node::Frame(tags, values))
        }
    }
}

/// The nodes that were met, taken out in order.
fn gathered(alloc: Global, nodes: Vec<Node>, seen: &Walker) -> Result<Vec<Node>, AllocError>
    requires once { Once seen.now.order }
    requires inside { All (λ k. k < length nodes.items) seen.now.order }
    ensures { IfOk result (λ v. v.items ≡ moved nodes.items seen.now.order seen.now.order) }
{
    let mut nodes = nodes;
    let mut out = Vec::new(alloc);
    for k in seen.order() {
        let taken = Node::Str(Units::of(Vec::new(alloc)));
        let node = mem::replace(&mut nodes[*k as usize], taken);
        out.push(numbered_node(alloc, seen, node)?)?;
    }
    Ok(out)
}

/// How many bytes a string, with its last unit, a binary or a large binary has. Another node has
/// none.
pub fn payload(node: &Node) -> usize
    ensures { result ≡ payload node.now }
{
    match node {
        Node::Str(units) => 2 * units.list().len() + 2,
        Node::Binary(_, bytes) | Node::Large(_, bytes) => bytes.list().len(),
        Node::Symbol(_) | Node::Array(_, _) | Node::Frame(_, _) => 0,
    }
}

/// How many of `most` bytes the nodes leave; none where they have more.
pub(crate) fn left(nodes: &[Node], most: usize) -> Option<usize>
    ensures { result ≡ (if nat_le (sum_by payload nodes.now) most then Some
        (most - sum_by payload nodes.now) else None) }
{
    let mut left = most;
    for node in nodes {
        let payload = payload(node);
        if payload > left {
            return None;
        }
        left -= payload;
    }
    Some(left)
}

/// Whether the strings and binaries among the nodes are within the limit together.
pub fn are_light(nodes: &[Node]) -> bool
    ensures { result ≡ are_light nodes.now }
{
    left(nodes, MOST_BYTES).is_some()
}

/// What the root reaches, in the order of the walk.
#[tactic(auto, unfolding(crate::specs::Meeting::normal_form))]
pub(crate) fn normal(alloc: Global, nodes: Vec<Node>, root: Ref) -> Result<Graph, GraphFault>
    requires count { length nodes.items < 2 ^ 32 }
    requires raw { IsRaw (record { nodes = nodes.items; root = root }) }
    ensures form { Gives (λ g. g) result (normal_form (record
        { nodes = nodes.items; root = root })) }
    ensures is_form { IfOk result (λ g. IsNormalForm (record { nodes = nodes.items; root = root })
        g) }
{
    let mut seen = Walker::new(alloc, nodes.len() as u32)?;
    value(&mut seen, &nodes, root, MOST_OPEN)?;
    if seen.order().len() > MOST_NODES {
        return Err(GraphFault::Limit);
    }
    let nodes = gathered(alloc, nodes, &seen)?;
    if !are_light(&nodes) {
        return Err(GraphFault::Limit);
    }
    let root = numbered(&seen, root);
    Ok(Graph::of(nodes, root))
}
