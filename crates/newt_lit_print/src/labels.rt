//! The labels of a graph's objects.
ghost use Rattle.std.specs.Prelude.{◌≡◌, ◌≤◌, ◌++◌, IfOk, fold, length, map, replicate};
ghost use Rattle.std.specs.Prelude.{slice_index_or};
ghost use Rattle.newt_graph.specs.Raw.{labels_of, values_of};
ghost use Rattle.newt_spec_literal.specs.Printed as printed;
ghost use Rattle.newt_lit_print.specs.Meetings.{is_more, met, met_by};
ghost use Rattle.newt_graph.specs.declared.node.Ref.TheVariants as refs;

use newt_graph::{Node, Ref};
use std::alloc::{AllocError, Global};

/// How many references lead to a node, counted up to two.
#[derive(Clone, Copy)]
pub(crate) enum Meetings {
    None,
    One,
    More,
}

impl Meetings {
    /// With one more reference.
    fn more(self) -> Meetings
        ensures { result ≡ met self }
    {
        match self {
            Meetings::None => Meetings::One,
            Meetings::One | Meetings::More => Meetings::More,
        }
    }
}

/// Whether a node is a symbol.
pub(crate) fn is_symbol(node: &Node) -> bool
    ensures { result ≡ printed.is_symbol node.now }
{
    matches!(node, Node::Symbol(_))
}

/// Counts a reference.
fn meet(meetings: &mut [Meetings], value: Ref)
    ensures { meetings.new ≡ met_by meetings.old value }
{
    if let Ref::Node(n) = value {
        if (n as usize) < meetings.len() {
            meetings[n as usize] = meetings[n as usize].more();
        }
    }
}

fn meet_values(meetings: &mut [Meetings], values: &[Ref])
    ensures { meetings.new ≡ fold met_by meetings.old values.now }
{
    for value in values {
        meet(meetings, *value);
    }
}

fn meet_tags(meetings: &mut [Meetings], tags: &[u32])
    ensures { meetings.new ≡ fold met_by meetings.old (map refs.Node tags.now) }
{
    for tag in tags {
        meet(meetings, Ref::Node(*tag));
    }
}

/// Counts the references of a node: its class or tags, then its values.
fn meet_node(meetings: &mut [Meetings], node: &Node)
    ensures { meetings.new ≡ fold met_by meetings.old (map refs.Node (labels_of node.now) ++
        values_of node.now) }
{
    match node {
        Node::Symbol(_) | Node::Str(_) => {}
        Node::Binary(class, _) | Node::Large(class, _) => meet(meetings, Ref::Node(*class)),
        Node::Array(None, values) => meet_values(meetings, values.list()),
        Node::Array(Some(class), values) => {
            meet(meetings, Ref::Node(*class));
            meet_values(meetings, values.list());
        }
        Node::Frame(tags, values) => {
            meet_tags(meetings, tags.list());
            meet_values(meetings, values.list());
        }
    }
}

/// How many references lead to each node.
fn count_meetings(alloc: Global, nodes: &[Node], root: Ref) -> Result<Vec<Meetings>, AllocError>
    ensures { IfOk result (λ m. m.items ≡ fold met_by (replicate (length nodes.now) Meetings.None)
        (printed.references (record { nodes = nodes.now; root = root }))) }
{
    let mut meetings = vec![in alloc; Meetings::None; nodes.len()]?;
    meet(&mut meetings, root);
    for node in nodes {
        meet_node(&mut meetings, node);
    }
    Ok(meetings)
}

/// Whether more than one reference leads to node n.
fn is_met_again(meetings: &[Meetings], n: usize) -> bool
    ensures { result ≡ is_more (slice_index_or meetings.now n Meetings.None) }
{
    n < meetings.len() && matches!(meetings[n], Meetings::More)
}

/// The label of each node: the next number from 0 on where more than one reference leads to it and
/// it is not a symbol, else none.
pub(crate) fn labels(
    alloc: Global,
    nodes: &[Node],
    root: Ref,
) -> Result<Vec<Option<u32>>, AllocError>
    requires { length nodes.now ≤ 65535 }
    ensures { IfOk result (λ labels. labels.items ≡ printed.labels
        (record { nodes = nodes.now; root = root })) }
{
    let meetings = count_meetings(alloc, nodes, root)?;
    let mut labels = Vec::new(alloc);
    let mut next = 0u32;
    for (n, node) in nodes.iter().enumerate() {
        if !is_symbol(node) && is_met_again(&meetings, n) {
            labels.push(Some(next))?;
            next += 1;
        } else {
            labels.push(None)?;
        }
    }
    Ok(labels)
}
