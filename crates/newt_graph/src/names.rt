//! Symbols by their names.
ghost use Rattle.std.specs.Prelude.{◌≡◌, ℕ, ◌+◌, ◌<◌, List, ◌++◌, [], length, Some, IfOk, OnOk, OnErr};
ghost use Rattle.newt_graph.specs.Graph.{folded, AreFoldedOnce};
ghost use Rattle.newt_graph.specs.Draft.{is_alike, find_alike};
ghost use Rattle.newt_graph.specs.Names.{IsKeyOf, Knows, Notes, checked_among, mixed};

use crate::node::Node;
use std::alloc::{AllocError, Global};
use std::collections::BTreeMap;
use std::hash::{FoldHasher, Hasher};

/// A name in lower case, and before it its hash. The derived order compares hashes first, so names
/// are compared byte by byte only where their hashes are equal.
#[derive(PartialEq, Eq, PartialOrd, Ord, Drop)]
pub struct Key {
    mix: u64,
    name: Vec<u8>,
}

/// Numbers of symbols by their names in lower case. They stand in order, so that a search takes a
/// few comparisons whatever the names are.
///
/// Each number is checked against the nodes before it is answered, so one that no longer leads to
/// its symbol does no harm.
#[derive(Drop)]
pub struct Names {
    numbers: BTreeMap<Key, u32>,
}

impl Names {
    /// No names. It takes no memory.
    pub fn new(alloc: Global) -> Names
        ensures { Knows result.numbers [] }
    {
        Names {
            numbers: BTreeMap::new(alloc),
        }
    }

    /// The key of a name, whatever its case.
    pub fn key(alloc: Global, name: &[u8]) -> Result<Key, AllocError>
        ensures { IfOk result (λ key. IsKeyOf name.now key) }
    {
        let mut name = Vec::from_slice(alloc, name)?;
        name.make_ascii_lowercase();
        Ok(Key {
            mix: mixed(&name),
            name,
        })
    }

    /// The number of the first symbol of this name but for ASCII case, where there is one. The key
    /// is that of the name.
    pub fn find(&self, nodes: &[Node], name: &[u8], key: &Key) -> Option<u32>
        requires known { Knows self.now.numbers nodes.now }
        requires key { IsKeyOf name.now key.now }
        ensures { result ≡ find_alike name.now nodes.now }
    {
        match self.numbers.get(key) {
            Some(k) => checked(name, nodes, *k),
            None => None,
        }
    }

    /// Gives the names of a key this number. After an error the numbers are as they were.
    pub fn note(&mut self, key: Key, n: u32) -> Result<(), AllocError>
        ensures noted { OnOk result ((name : List ℕ) → IsKeyOf name key
            → Notes self.old.numbers name n self.new.numbers) }
        ensures kept { OnErr result (self.new.numbers.entries ≡ self.old.numbers.entries) }
    {
        self.numbers.insert(key, n)?;
        Ok(())
    }

    /// Gives the symbols among new nodes their numbers. The new nodes are to stand after the old
    /// ones. After an error the old symbols still have their numbers.
    pub fn note_all(&mut self, alloc: Global, old: &[Node], new: &[Node]) -> Result<(), AllocError>
        requires known { Knows self.old.numbers old.now }
        requires once { AreFoldedOnce (old.now ++ new.now) }
        requires few { length old.now + length new.now < 4294967296 }
        ensures known { OnOk result (Knows self.new.numbers (old.now ++ new.now)) }
        ensures kept { OnErr result (Knows self.new.numbers old.now) }
    {
        for (i, node) in new.iter().enumerate() {
            if let Node::Symbol(name) = node {
                let key = Names::key(alloc, name.list())?;
                self.note(key, (old.len() + i) as u32)?;
            }
        }
        Ok(())
    }
}

/// The place of the first symbol of this name but for ASCII case. It looks at one node after
/// another, which is quickest where there are few.
#[tactic(auto, unfolding(crate::specs::Draft::find_alike))]
pub fn find_alike(name: &[u8], nodes: &[Node]) -> Option<usize>
    ensures { result ≡ find_alike name.now nodes.now }
{
    nodes.iter().position(|node| is_alike(name, node))
}

/// The number k, where that node is a symbol of this name but for ASCII case.
fn checked(name: &[u8], nodes: &[Node], k: u32) -> Option<u32>
    ensures { result ≡ checked_among name.now nodes.now (Some k) }
{
    match nodes.get(k as usize) {
        Some(node) if is_alike(name, node) => Some(k),
        _ => None,
    }
}

fn is_alike(name: &[u8], node: &Node) -> bool
    ensures { result ≡ is_alike name.now node.now }
{
    match node {
        Node::Symbol(old) => old.list().eq_ignore_ascii_case(name),
        _ => false,
    }
}

/// The hash of a name in lower case.
#[tactic(auto, unfolding(crate::specs::Names::mixed))]
fn mixed(name: &[u8]) -> u64
    ensures { result ≡ mixed name.now }
{
    let mut hasher = FoldHasher::default();
    hasher.write(name);
    hasher.finish()
}
