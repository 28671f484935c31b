//! A value put at a path.
ghost use Rattle.std.specs.Prelude.{◌≡◌, ◌↔◌, IfOk, IsErrOf, None, Some};
ghost use Rattle.newt_graph.specs.Graph.{IsGraph, IsName};
ghost use Rattle.newt_graph.specs.declared.fault.GraphFault.{GraphFault};
ghost use Rattle.newt_spec_graph.specs.Graph.{is_frame};
ghost use Rattle.newt_spec_graph.specs.Slots.{frame_number, put, put_into, value_below};
ghost use Rattle.newt_path.specs.Put.{IsFormOf, IsFrameOf, PassesALimit};
ghost use Rattle.newt_path.specs.declared.fault.SetFault.{SetFault};
ghost use Rattle.std.specs.Prelude.{option_and_then};

use crate::fault::SetFault;
use crate::path::Path;
use crate::value::value_below;
use newt_graph::{Builder, Bytes, Graph, GraphFault, Node, Ref};
use std::alloc::Global;

/// The graph with the value in the last slot of the path, in the frame that the slots before it
/// lead to. That frame is changed where it stands, so that every other way to it shows the change.
/// A missing last slot is added after the others.
/// Of symbols that differ in case alone, the graph's spelling stays, then the path's. What the root
/// no longer reaches is gone. `NoPath` comes exactly where there is no such frame; `Limit` only
/// where the result would pass a limit of one graph.
pub fn set_at(alloc: Global, graph: &Graph, path: &Path, value: &Graph) -> Result<Graph, SetFault>
    ensures form { IfOk result (λ g. IsFormOf (put graph.now path.now value.now) g) }
    ensures no_path { IsErrOf result SetFault.NoPath ↔ (put graph.now path.now value.now ≡ None) }
    ensures limit { IsErrOf result SetFault.Limit
        → PassesALimit (put graph.now path.now value.now) }
{
    let Some((last, before)) = path.list().split_last() else {
        return Err(SetFault::NoPath);
    };
    let Some(frame) = frame_below(graph.nodes(), graph.root(), before) else {
        return Err(SetFault::NoPath);
    };
    // A graph that is read is known to be in normal form, as `set_in` requires.
    let _root = value.root();
    Ok(set_in(alloc, graph, frame, last.list(), value)?)
}

/// The number of the frame that the names lead to.
fn frame_below(nodes: &[Node], root: Ref, names: &[Bytes]) -> Option<u32>
    ensures { result ≡ option_and_then (frame_number nodes.now)
        (value_below nodes.now root names.now) }
{
    let Ref::Node(n) = value_below(nodes, root, names)? else {
        return None;
    };
    is_frame(nodes.get(n as usize)?).then_some(n)
}

fn is_frame(node: &Node) -> bool
    ensures { result ≡ is_frame (Some node.now) }
{
    match node {
        Node::Frame(_, _) => true,
        _ => false,
    }
}

/// The graph with the value in a slot of one of its frames.
fn set_in(
    alloc: Global,
    graph: &Graph,
    frame: u32,
    name: &[u8],
    value: &Graph,
) -> Result<Graph, GraphFault>
    requires name { IsName name.now }
    requires frame { IsFrameOf graph.now frame }
    requires graph { IsGraph graph.now }
    requires value { IsGraph value.now }
    ensures form { IfOk result (λ g. IsFormOf (Some (put_into graph.now name.now value.now frame))
        g) }
    ensures limit { IsErrOf result GraphFault.Limit
        → PassesALimit (Some (put_into graph.now name.now value.now frame)) }
{
    let mut builder = Builder::new(alloc);
    builder.import(graph)?;
    let tag = builder.symbol(name)?;
    let value = builder.import(value)?;
    builder.set(frame, tag, value)?;
    builder.finish(graph.root())
}
