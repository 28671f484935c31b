//! Reading a flat text.
ghost use Rattle.std.specs.Prelude.{◌≡◌, Some, None, IfOk, IsErrOf};
ghost use Rattle.newt_spec_store.specs.Reading.{written};
ghost use Rattle.newt_nsof_flat.specs.Stream.{stream_graph};

use crate::fault::FlatFault;
use newt_graph::Graph;
use newt_nsof_read::{NsofFault, decode};
use newt_nsof_write::encode_flat_in;
use std::alloc::Global;

/// The graph whose flat text this is. `Bad` comes only where the text is the flat text of no graph,
/// also where it spells one in another way.
pub fn read_flat(alloc: Global, text: &[u8]) -> Result<Graph, FlatFault>
    ensures found { IfOk result (λ g. written stream_graph text.now ≡ Some g) }
    ensures bad { IsErrOf result FlatFault.Bad → written stream_graph text.now ≡ None }
{
    let graph = match decode(alloc, text) {
        Ok(graph) => graph,
        Err(NsofFault::Memory) => return Err(FlatFault::Memory),
        Err(_) => return Err(FlatFault::Bad),
    };
    let Ok(text_again) = encode_flat_in(alloc, &graph, text.len()) else {
        return Err(FlatFault::Memory);
    };
    if text_again.as_slice() != text {
        return Err(FlatFault::Bad);
    }
    Ok(graph)
}
