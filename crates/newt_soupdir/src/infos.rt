//! Info frames: which graphs may be one, and how they are read from the front of bytes.
ghost use Rattle.std.specs.Prelude.{◌≡◌, ◌&&◌, length, true};
ghost use Rattle.std.specs.List.{list_all};
ghost use Rattle.newt_graph.specs.Graph.{IsGraph};
ghost use Rattle.newt_spec_graph.specs.Graph as words;
ghost use Rattle.newt_spec_nsof.specs.Flat.{flat};
ghost use Rattle.newt_spec_store.specs.Reading.{written};
ghost use Rattle.newt_spec_store.specs.Valid.{is_no_large, valid_info};
ghost use Rattle.newt_nsof_flat.specs.Stream.{stream_graph};
ghost use Rattle.newt_soupdir.specs.Reading.{Gives, info_at};

use crate::fault::DirFault;
use crate::fields::{number16, some_bytes};
use newt_graph::{Graph, Node};
use newt_nsof_flat::{FlatFault, is_frame, read_flat};
use newt_nsof_write::skeleton_len;
use std::alloc::Global;

/// The most bytes of the flat text of an info frame.
pub const MOST_INFO: u64 = 4_000;

/// Whether a node is no large binary.
fn is_no_large(node: &Node) -> bool
    ensures { result ≡ is_no_large node.now }
{
    !matches!(node, Node::Large(_, _))
}

/// Whether none of the nodes is a large binary.
fn have_no_large(nodes: &[Node]) -> bool
    ensures { result ≡ list_all is_no_large nodes.now }
{
    nodes.iter().all(is_no_large)
}

/// Whether a graph may be an info frame, whatever its length: its root is a frame, and it has no
/// large binaries.
pub fn is_info(graph: &Graph) -> bool
    ensures info { result ≡ (words.is_frame (words.object graph.now.nodes graph.now.root)
        && list_all is_no_large graph.now.nodes) }
    ensures graph { IsGraph graph.now }
{
    is_frame(graph) && have_no_large(graph.nodes())
}

/// How many bytes the flat text of a graph without large binaries has.
#[tactic(auto, using(crate::proofs::Frames::skeleton_same))]
pub fn info_len(graph: &Graph) -> u64
    requires { list_all is_no_large graph.now.nodes ≡ true }
    ensures { result ≡ length (flat graph.now) }
{
    skeleton_len(graph)
}

/// Whether there is no info frame, or one of at most 4,000 bytes.
#[tactic(auto, using(crate::proofs::Frames::is_within))]
pub(crate) fn is_valid_info(info: &Option<Graph>) -> bool
    ensures { result ≡ valid_info info.now }
{
    match info {
        Some(graph) => is_info(graph) && info_len(graph) <= MOST_INFO,
        None => true,
    }
}

/// The graph whose flat text this is.
fn graph_of(alloc: Global, text: &[u8]) -> Result<Graph, DirFault>
    ensures { Gives (λ g. g) result (written stream_graph text.now) }
{
    match read_flat(alloc, text) {
        Ok(graph) => Ok(graph),
        Err(FlatFault::Bad) => Err(DirFault::Bad),
        Err(FlatFault::Memory) => Err(DirFault::Memory),
    }
}

/// An info frame: two bytes of the length of its flat text, and the text. It is tested with the
/// whole directory that it is a frame and not too long.
#[tactic(auto, unfolding(crate::specs::Reading::info_at))]
pub(crate) fn info(alloc: Global, bytes: &[u8]) -> Result<(Graph, &[u8]), DirFault>
    ensures { Gives (λ x. (x.0, x.1.now)) result (info_at bytes.now) }
{
    let (len, rest) = number16(bytes)?;
    let (text, rest) = some_bytes(usize::from(len), rest)?;
    Ok((graph_of(alloc, text)?, rest))
}
