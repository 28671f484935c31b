//! Puts a graph together.
ghost use Rattle.std.specs.Prelude.{◌≡◌, ◌<◌, ◌≤◌, [], length, Some, IfOk, IsErrOf, OnOk, OnErr};
ghost use Rattle.std.specs.List.{sum_by};
ghost use Rattle.newt_graph.specs.Graph.{RawGraph, IsName, payload};
ghost use Rattle.newt_graph.specs.Raw.{IsNormalForm};
ghost use Rattle.newt_graph.specs.Meeting.{Gives, place, normal_form};
ghost use Rattle.newt_graph.specs.Import.{with_graph};
ghost use Rattle.newt_graph.specs.Draft.{IsJoined, IsFilling, is_small, with_symbol, with_held};
ghost use Rattle.newt_graph.specs.Draft.{with_filled, with_slot, with_set};

use crate::copies::{copied_ref, copies, numbers};
use crate::fault::GraphFault;
use crate::graph::Graph;
use crate::limits::{MOST_DATA, MOST_HELD, MOST_HELD_BYTES, MOST_SLOTS};
use crate::lists::{Bytes, Refs, Tags};
use crate::names::Names;
use crate::node::{Node, Ref};
use crate::normal::{left, normal, payload};
use std::alloc::Global;
use std::marker::Model;

/// Nodes in any order, at most 131,072, with at most 33,554,432 bytes in strings and binaries
/// together. No two symbols are alike but for ASCII case.
///
/// `Limit` comes exactly where a limit of the builder or of a node would be passed; in `finish`,
/// where a limit of a graph would be. A call that answers an error leaves the builder as it was.
/// `finish` takes the builder.
#[derive(Drop)]
pub struct Builder {
    nodes: Vec<Node>,
    /// The bytes of all strings, binaries and large binaries.
    total: usize,
    names: Names,
    alloc: Global,
}

impl Model for Builder {
    ghost use Rattle.std.specs.Prelude.{◌≡◌, List};
    ghost use Rattle.std.specs.List.{sum_by};
    ghost use Rattle.newt_graph.specs.declared.node.Node.{Node};
    ghost use Rattle.newt_graph.specs.Graph.{payload};
    ghost use Rattle.newt_graph.specs.Draft.{IsDraft};
    ghost use Rattle.newt_graph.specs.Names.{Knows};

    ghost Value = { List Node };

    ghost view = { λ b. b.nodes.items };

    ghost invariant = { λ b. record { draft : IsDraft b.nodes.items × (b.total ≡ sum_by payload b.nodes.items); knows : Knows b.names.numbers b.nodes.items } };
}

impl Builder {
    /// No nodes. It takes no memory.
    pub fn new(alloc: Global) -> Builder
        ensures { result ≡ [] }
    {
        Builder {
            nodes: Vec::new(alloc),
            total: 0,
            names: Names::new(alloc),
            alloc,
        }
    }

    /// How many nodes there are: the number of the next one.
    pub fn len(&self) -> u32
        ensures { result ≡ length self.now }
    {
        self.nodes.len() as u32
    }

    /// The number of the symbol of this name but for ASCII case: the first one, which keeps its
    /// spelling, or a new one.
    #[tactic(auto, unfolding(crate::specs::Draft::with_symbol))]
    pub fn symbol(&mut self, name: &[u8]) -> Result<u32, GraphFault>
        requires { IsName name.now }
        ensures value { Gives (λ n. (n, self.new)) result (with_symbol self.old name.now) }
        ensures inside { IfOk result (λ n. n < length self.new) }
        ensures grows { OnOk result (length self.old ≤ length self.new) }
        ensures kept { OnErr result (self.new ≡ self.old) }
    {
        let key = Names::key(self.alloc, name)?;
        if let Some(k) = self.names.find(&self.nodes, name, &key) {
            return Ok(k);
        }
        let n = self.nodes.len();
        if n >= MOST_HELD {
            return Err(GraphFault::Limit);
        }
        let symbol = Node::Symbol(Bytes::of(Vec::from_slice(self.alloc, name)?));
        self.names.note(key, n as u32)?;
        self.nodes.push(symbol)?;
        Ok(n as u32)
    }

    /// The number of a new node, to be filled when its parts are known. Until then it is an empty
    /// array.
    #[tactic(auto, unfolding(crate::specs::Draft::with_held))]
    pub fn hold(&mut self) -> Result<u32, GraphFault>
        ensures value { Gives (λ n. (n, self.new)) result (with_held self.old) }
        ensures inside { IfOk result (λ n. n < length self.new) }
        ensures grows { OnOk result (length self.old ≤ length self.new) }
        ensures kept { OnErr result (self.new ≡ self.old) }
    {
        let n = self.nodes.len();
        if n >= MOST_HELD {
            return Err(GraphFault::Limit);
        }
        self.nodes
            .push(Node::Array(None, Refs::of(Vec::new(self.alloc))))?;
        Ok(n as u32)
    }

    /// Puts a node in the place of node n, as for one that was held. A frame has a value for each
    /// tag.
    #[tactic(auto, unfolding(crate::specs::Draft::with_filled))]
    pub fn fill(&mut self, n: u32, node: Node) -> Result<(), GraphFault>
        requires inside { n < length self.old }
        requires filling { IsFilling node }
        ensures value { Gives (λ done. self.new) result (with_filled self.old n node) }
        ensures stays { OnOk result (length self.new ≡ length self.old) }
        ensures kept { OnErr result (self.new ≡ self.old) }
    {
        if !is_small(&node) {
            return Err(GraphFault::Limit);
        }
        let others = self.total - payload(&self.nodes[n as usize]);
        let payload = others + payload(&node);
        if payload > MOST_HELD_BYTES {
            return Err(GraphFault::Limit);
        }
        self.nodes[n as usize] = node;
        self.total = payload;
        Ok(())
    }

    /// Copies a graph in and answers its root there. A symbol that matches one that is there, but
    /// for ASCII case, becomes that one.
    #[tactic(auto, unfolding(crate::specs::Import::with_graph))]
    pub fn import(&mut self, graph: &Graph) -> Result<Ref, GraphFault>
        ensures value { Gives (λ root. (root, self.new)) result (with_graph self.old graph.now) }
        ensures kept { OnErr result (self.new ≡ self.old) }
    {
        let table = numbers(self.alloc, &self.names, &self.nodes, graph.nodes())?;
        let mut added = copies(self.alloc, &table, &self.names, &self.nodes, graph.nodes())?;
        if self.nodes.len() + added.len() > MOST_HELD {
            return Err(GraphFault::Limit);
        }
        let Some(left) = left(&added, MOST_HELD_BYTES - self.total) else {
            return Err(GraphFault::Limit);
        };
        self.names.note_all(self.alloc, &self.nodes, &added)?;
        self.nodes.append(&mut added)?;
        self.total = MOST_HELD_BYTES - left;
        Ok(copied_ref(&table, graph.root()))
    }

    /// Gives the frame n this value in its slot of this tag, where the slot stands, or in a new
    /// last slot. Another node stays as it is.
    #[tactic(auto, unfolding(crate::specs::Draft::with_set))]
    pub fn set(&mut self, n: u32, tag: u32, value: Ref) -> Result<(), GraphFault>
        requires { n < length self.old }
        ensures value { Gives (λ done. self.new) result (with_set self.old n tag value) }
        ensures kept { OnErr result (self.new ≡ self.old) }
    {
        let Node::Frame(tags, values) = &self.nodes[n as usize] else {
            return Ok(());
        };
        let frame = with_slot(self.alloc, tags.list(), values.list(), tag, value)?;
        self.nodes[n as usize] = frame;
        Ok(())
    }

    /// The graph of what the root reaches, in the order of the walk. References must lead to nodes,
    /// classes and tags to symbols, and the tags of a frame must be distinct.
    pub fn finish(self, root: Ref) -> Result<Graph, GraphFault>
        requires { IsJoined self root }
        ensures is_form { IfOk result (λ g. IsNormalForm (record { nodes = self; root = root }) g) }
        ensures value { Gives (λ g. g) result (normal_form (record { nodes = self; root = root })) }
        ensures limit { IsErrOf result GraphFault.Limit → (g : RawGraph)
            → IsNormalForm (record { nodes = self; root = root }) g → ⊥ }
    {
        normal(self.alloc, self.nodes, root)
    }
}

/// Whether the slots and bytes of a node are within the limits.
fn is_small(node: &Node) -> bool
    ensures { result ≡ is_small node.now }
{
    match node {
        Node::Symbol(_) => true,
        Node::Str(units) => 2 * units.list().len() + 2 <= MOST_DATA,
        Node::Binary(_, bytes) | Node::Large(_, bytes) => bytes.list().len() <= MOST_DATA,
        Node::Array(_, values) => values.list().len() <= MOST_SLOTS,
        Node::Frame(tags, _) => tags.list().len() <= MOST_SLOTS,
    }
}

/// Where a tag stands.
#[tactic(auto, unfolding(crate::specs::Meeting::place))]
fn slot_of(tags: &[u32], tag: u32) -> Option<usize>
    ensures { result ≡ place tags.now tag }
{
    tags.iter().position(|t| *t == tag)
}

/// A frame of these slots with the value in its slot of this tag, or in a new last one.
#[tactic(auto, unfolding(crate::specs::Draft::with_slot))]
fn with_slot(
    alloc: Global,
    tags: &[u32],
    values: &[Ref],
    tag: u32,
    value: Ref,
) -> Result<Node, GraphFault>
    requires { length values.now ≡ length tags.now }
    ensures { Gives (λ node. node) result (with_slot tags.now values.now tag value) }
{
    let mut new_tags = Vec::from_slice(alloc, tags)?;
    let mut new_values = Vec::from_slice(alloc, values)?;
    match slot_of(tags, tag) {
        Some(i) => new_values[i] = value,
        None => {
            if tags.len() >= MOST_SLOTS {
                return Err(GraphFault::Limit);
            }
            new_tags.push(tag)?;
            new_values.push(value)?;
        }
    }
    Ok(Node::Frame(Tags::of(new_tags), Refs::of(new_values)))
}
