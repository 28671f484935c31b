//! How a tag spec is read.
ghost use Rattle.std.specs.Prelude.{◌≡◌, ◌↔◌, false, is_some, IfOk, IsErrOf, Some};
ghost use Rattle.newt_spec_query.specs.Tags.{symbol_name, if_given};
ghost use Rattle.newt_spec_query.specs.Spec.{given, tag_list, is_tag_spec, tag_spec, one_or_more};
ghost use Rattle.newt_tags.specs.declared.read.TagFault.{TagFault};
ghost use Rattle.newt_tags.specs.declared.read.TagFault.TheVariants as fault;

use crate::names::Names;
use crate::slots::{given_slot, has_only_slots};
use crate::spec::TagSpec;
use crate::symbols::{are_symbols, symbols};
use newt_graph::{Graph, Node, Ref};
use std::alloc::{AllocError, Global};

/// The slots of a tag spec.
const SLOTS: [&str; 4] = ["equal", "all", "any", "none"];

/// Why a value is not taken for a tag spec.
#[derive(Clone, Copy, PartialEq, Eq, Debug)]
pub enum TagFault {
    /// It is not a frame with slots among `equal`, `all`, `any` and `none`, each nil, a symbol or
    /// an array of symbols.
    Form,
    /// Memory was refused.
    Memory,
}

impl From<AllocError> for TagFault {
    ghost from_gives = { λ _ e. e ≡ fault.Memory };

    fn from(_error: AllocError) -> TagFault {
        TagFault::Memory
    }
}

impl TagSpec {
    /// Reads a tag spec from a value of a graph. A slot whose value is nil counts as missing.
    pub fn read(alloc: Global, graph: &Graph, at: Ref) -> Result<TagSpec, TagFault>
        ensures ok { IfOk result (λ spec. spec ≡ tag_spec graph.now.nodes (Some at)) }
        ensures form { IsErrOf result TagFault.Form ↔ (is_tag_spec graph.now.nodes at ≡ false) }
    {
        let nodes = graph.nodes();
        if !is_tag_spec(nodes, at) {
            return Err(TagFault::Form);
        }
        let equal = tag_list(alloc, nodes, at, b"equal")?;
        let all = tag_list(alloc, nodes, at, b"all")?;
        let any = tag_list(alloc, nodes, at, b"any")?;
        let none_of = tag_list(alloc, nodes, at, b"none")?;
        Ok(TagSpec::of(equal, all, any, none_of))
    }
}

/// The symbols of a slot.
fn tag_list(
    alloc: Global,
    nodes: &[Node],
    frame: Ref,
    slot: &[u8],
) -> Result<Option<Names>, AllocError>
    ensures { IfOk result (λ names. names ≡ tag_list nodes.now frame slot.now) }
{
    match given_slot(nodes, frame, slot) {
        Some(value) => symbols(alloc, nodes, value),
        None => Ok(None),
    }
}

fn is_tag_spec(nodes: &[Node], value: Ref) -> bool
    ensures { result ≡ is_tag_spec nodes.now value }
{
    has_only_slots(nodes, value, &SLOTS)
        && has_symbols(nodes, value, b"equal")
        && has_symbols(nodes, value, b"all")
        && has_symbols(nodes, value, b"any")
        && has_symbols(nodes, value, b"none")
}

/// Whether a slot is missing, or is a symbol or an array of symbols.
fn has_symbols(nodes: &[Node], frame: Ref, slot: &[u8]) -> bool
    ensures { result ≡ if_given (λ v. is_some (one_or_more nodes.now (symbol_name nodes.now) v))
        (given nodes.now frame slot.now) }
{
    match given_slot(nodes, frame, slot) {
        Some(value) => are_symbols(nodes, value),
        None => true,
    }
}
