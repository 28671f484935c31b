//! Aliases of entries.
ghost use Rattle.std.specs.Prelude.{◌≡◌, ◌≤◌, ◌*◌, ◌∷◌, [], Option, Some, None, codes, option_map};
ghost use Rattle.std.specs.Prelude.{IfOk};
ghost use Rattle.newt_base.specs.Names.{same_name};
ghost use Rattle.newt_spec_world.specs.Alias as plain;
ghost use Rattle.newt_graph.specs.Graph.{integer};
ghost use Rattle.newt_entries_alias.specs.Alias.{alias_said, alias_nodes, alias_graph, Fits};
ghost use Rattle.newt_entries_alias.specs.Alias.{is_alias_class, array_alias, node_alias};
ghost use Rattle.newt_entries_alias.specs.Alias.{IsPrinted};

use newt_base::{Sig, Uid};
use newt_graph::{Bytes, Graph, Node, Ref, Refs};
use std::alloc::{AllocError, Global};

/// An alias: what names an entry for as long as it is there.
#[derive(Clone, Copy, PartialEq, Eq, Debug)]
pub struct Alias {
    /// The signature of the store.
    pub store: Sig,
    /// The signature of the soup.
    pub soup: Sig,
    /// The id of the entry in that soup.
    pub uid: Uid,
}

/// The value of an integer that is not negative; none for any other value.
fn natural(value: Ref) -> Option<u32>
    ensures { result ≡ plain.natural value }
{
    match value {
        Ref::Imm(word) => {
            if word < 0 || word % 4 != 0 {
                return None;
            }
            Some((word / 4) as u32)
        }
        Ref::Node(_) => None,
    }
}

/// Whether a name is `alias` but for ASCII case.
fn is_alias_name(name: &[u8]) -> bool
    ensures { result ≡ same_name (codes "alias") name.now }
{
    b"alias".eq_ignore_ascii_case(name)
}

/// Whether a class is named alias. A class that is no symbol, which no graph has, counts as such a
/// class.
fn is_alias_class(nodes: &[Node], class: u32) -> bool
    ensures { result ≡ is_alias_class nodes.now class }
{
    match nodes.get(class as usize) {
        Some(Node::Symbol(name)) => is_alias_name(name.list()),
        _ => true,
    }
}

/// An integer as a value.
fn integer(number: u32) -> Ref
    requires { number ≤ 536_870_911 }
    ensures { result ≡ integer number }
{
    Ref::Imm((4 * number) as i32)
}

impl Alias {
    /// The alias that a graph is: an array with class `alias` and three integers that are not
    /// negative. None where the graph is no alias.
    pub fn read(graph: &Graph) -> Option<Alias>
        ensures { option_map alias_said result ≡ plain.alias_of graph.now }
    {
        let Ref::Node(n) = graph.root() else {
            return None;
        };
        let nodes = graph.nodes();
        let node = nodes.get(n as usize)?;
        Alias::of_node(nodes, node)
    }

    /// The alias of an object.
    fn of_node(nodes: &[Node], node: &Node) -> Option<Alias>
        ensures { option_map alias_said result ≡ node_alias nodes.now node.now }
    {
        match node {
            Node::Array(Some(class), values) => Alias::of_array(nodes, *class, values.list()),
            _ => None,
        }
    }

    /// The alias of an array's class and values.
    #[tactic(auto, unfolding(crate::specs::Alias::array_alias))]
    fn of_array(nodes: &[Node], class: u32, values: &[Ref]) -> Option<Alias>
        ensures { option_map alias_said result ≡ array_alias nodes.now class values.now }
    {
        let [store, soup, uid] = values else {
            return None;
        };
        if !is_alias_class(nodes, class) {
            return None;
        }
        let store = Sig(natural(*store)?);
        let soup = Sig(natural(*soup)?);
        let uid = Uid(natural(*uid)?);
        Some(Alias { store, soup, uid })
    }

    /// The graph of an alias, each of whose numbers is at most 536,870,911, the greatest integer.
    pub fn graph(&self, alloc: Global) -> Result<Graph, AllocError>
        requires { Fits self.now }
        ensures graph { IfOk result (λ g. g ≡ alias_graph self.now) }
        ensures read { IfOk result (λ g. plain.alias_of g ≡ Some (alias_said self.now)) }
        ensures printed { IfOk result (IsPrinted self.now) }
    {
        let nodes = self.nodes(alloc)?;
        Ok(Graph::of(nodes, Ref::Node(0)))
    }

    #[tactic(auto, unfolding(crate::specs::Alias::alias_nodes))]
    fn nodes(&self, alloc: Global) -> Result<Vec<Node>, AllocError>
        requires { Fits self.now }
        ensures { IfOk result (λ v. v.items ≡ alias_nodes self.now) }
    {
        let values = self.values(alloc)?;
        let name = Vec::from_slice(alloc, b"alias")?;
        let mut nodes = Vec::new(alloc);
        nodes.push(Node::Array(Some(1), Refs::of(values)))?;
        nodes.push(Node::Symbol(Bytes::of(name)))?;
        Ok(nodes)
    }

    /// The signatures of store and soup and the id, in this order.
    fn values(&self, alloc: Global) -> Result<Vec<Ref>, AllocError>
        requires { Fits self.now }
        ensures { IfOk result (λ v. v.items ≡ integer self.now.store ∷ integer self.now.soup ∷
            integer self.now.uid ∷ []) }
    {
        let mut values = Vec::new(alloc);
        values.push(integer(self.store.0))?;
        values.push(integer(self.soup.0))?;
        values.push(integer(self.uid.0))?;
        Ok(values)
    }
}
