//! Whether two graphs are the same.
ghost use Rattle.std.specs.Prelude.{◌≡◌, ◌↔◌, IsTrue};
ghost use Rattle.std.specs.List.{list_all, zip};
ghost use Rattle.newt_work.specs.Same.{same_ref, same_refs, same_node, same_nodes, same_graph};

use newt_graph::{Graph, Node, Ref};

/// Whether two graphs have the same nodes and the same root. It takes no memory.
#[tactic(auto, using(crate::proofs::Same::same_exactly))]
pub(crate) fn same_graph(a: &Graph, b: &Graph) -> bool
    ensures value { result ≡ same_graph a.now b.now }
    ensures exact { IsTrue result ↔ (a.now ≡ b.now) }
{
    same_ref(&a.root(), &b.root()) && same_nodes(a.nodes(), b.nodes())
}

fn same_nodes(a: &[Node], b: &[Node]) -> bool
    ensures { result ≡ same_nodes a.now b.now }
{
    a.len() == b.len() && all_same_nodes(a, b)
}

/// Whether the nodes of one list are those of another, as far as the shorter list goes.
fn all_same_nodes(a: &[Node], b: &[Node]) -> bool
    ensures { result ≡ list_all (λ p. same_node p.0 p.1) (zip a.now b.now) }
{
    a.iter().zip(b).all(|(x, y)| same_node(x, y))
}

fn same_node(a: &Node, b: &Node) -> bool
    ensures { result ≡ same_node a.now b.now }
{
    match (a, b) {
        (Node::Symbol(x), Node::Symbol(y)) => x.list() == y.list(),
        (Node::Str(x), Node::Str(y)) => x.list() == y.list(),
        (Node::Binary(c, x), Node::Binary(d, y)) => c == d && x.list() == y.list(),
        (Node::Large(c, x), Node::Large(d, y)) => c == d && x.list() == y.list(),
        (Node::Array(c, x), Node::Array(d, y)) => c == d && same_refs(x.list(), y.list()),
        (Node::Frame(s, x), Node::Frame(t, y)) => s.list() == t.list()
            && same_refs(x.list(), y.list()),
        _ => false,
    }
}

fn same_refs(a: &[Ref], b: &[Ref]) -> bool
    ensures { result ≡ same_refs a.now b.now }
{
    a.len() == b.len() && all_same_refs(a, b)
}

/// Whether the values of one list are those of another, as far as the shorter list goes.
fn all_same_refs(a: &[Ref], b: &[Ref]) -> bool
    ensures { result ≡ list_all (λ p. same_ref p.0 p.1) (zip a.now b.now) }
{
    a.iter().zip(b).all(|(x, y)| same_ref(x, y))
}

fn same_ref(a: &Ref, b: &Ref) -> bool
    ensures { result ≡ same_ref a.now b.now }
{
    match (a, b) {
        (Ref::Imm(v), Ref::Imm(w)) => v == w,
        (Ref::Node(m), Ref::Node(n)) => m == n,
        _ => false,
    }
}
