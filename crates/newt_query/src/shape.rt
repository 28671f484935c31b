//! How the frame of a query is read.
ghost use Rattle.std.specs.Prelude.{◌≡◌, true, false, is_some, codes, option_map, IfOk, IsErrOf};
ghost use Rattle.newt_spec_query.specs.Spec.{bound_is, given, has_slot, index_paths, is_query};
ghost use Rattle.newt_spec_query.specs.Spec.{is_tag_spec, is_text_list, is_true, query_paths};
ghost use Rattle.newt_spec_query.specs.Spec.{slot_is, tag_spec, texts_given};
ghost use Rattle.newt_query.specs.Shape.{shape_of};
ghost use Rattle.newt_query.specs.Form.{is_framed};
ghost use Rattle.newt_query.specs.declared.fault.ShapeFault.{ShapeFault};

use crate::fault::ShapeFault;
use crate::paths::index_paths;
use crate::text::{Texts, texts_of};
use newt_graph::{Graph, Ref};
use newt_path::{Path, Paths};
use newt_tags::{TagFault, TagSpec, given_slot, has_only_slots};
use std::alloc::Global;
use std::marker::Model;

/// The slots of a query.
const SLOTS: [&str; 9] = [
    "indexPath",
    "beginKey",
    "beginExclKey",
    "endKey",
    "endExclKey",
    "tagSpec",
    "words",
    "text",
    "entireWords",
];

/// What the frame of a query says, except its keys. These are read once the types of its index are
/// known.
#[derive(Drop)]
pub struct Shape {
    paths: Option<Paths>,
    tags: TagSpec,
    words: Texts,
    texts: Texts,
    entire: bool,
}

impl Model for Shape {
    ghost use Rattle.newt_query.specs.Shape.{Shape};

    ghost Value = { Shape };

    ghost view = { λ s. record { paths = s.paths; tags = s.tags; words = s.words; texts = s.texts; entire = s.entire } };
}

impl Shape {
    /// Reads a frame. A slot whose value is nil counts as missing. `Spec` exactly where the graph
    /// does not have the form of a query.
    pub fn read(alloc: Global, graph: &Graph) -> Result<Shape, ShapeFault>
        ensures ok { IfOk result (λ shape. shape ≡ shape_of graph.now) }
        ensures form { IfOk result (λ _. is_query graph.now ≡ true) }
        ensures spec { IsErrOf result ShapeFault.Spec → is_query graph.now ≡ false }
    {
        if !is_framed(graph) {
            return Err(ShapeFault::Spec);
        }
        let paths = query_paths(alloc, graph)?;
        let tags = tag_spec(alloc, graph)?;
        let words = texts_given(alloc, graph, b"words")?;
        let texts = texts_given(alloc, graph, b"text")?;
        let entire = has_slot(graph, b"entireWords");
        Ok(Shape {
            paths,
            tags,
            words,
            texts,
            entire,
        })
    }

    /// The paths of the index that the query asks for. None exactly where it asks for no index. It
    /// takes no memory.
    pub fn paths(&self) -> Option<&[Path]>
        ensures { option_map (λ paths. paths.now) result ≡ self.now.paths }
    {
        match &self.paths {
            Some(paths) => Some(paths.list()),
            None => None,
        }
    }

    /// The tags, words, texts and the mark for entire words.
    pub(crate) fn into_parts(self) -> (TagSpec, Texts, Texts, bool)
        ensures { (result.0 ≡ self.tags) × (result.1 ≡ self.words) × (result.2 ≡ self.texts)
            × (result.3 ≡ self.entire) }
    {
        (self.tags, self.words, self.texts, self.entire)
    }
}

/// Whether the graph is a frame that has only slots of a query, in which keys stand only beside an
/// index path and the mark for entire words is true.
fn is_framed(graph: &Graph) -> bool
    ensures { result ≡ is_framed graph.now }
{
    has_only_slots(graph.nodes(), graph.root(), &SLOTS)
        && bound_is(graph, b"beginKey", b"beginExclKey")
        && bound_is(graph, b"endKey", b"endExclKey")
        && is_true_if_given(graph, b"entireWords")
}

/// Whether at most one of two slots is there, and only beside an index path.
fn bound_is(graph: &Graph, one: &[u8], other: &[u8]) -> bool
    ensures { result ≡ bound_is graph.now one.now other.now }
{
    let one = has_slot(graph, one);
    let other = has_slot(graph, other);
    !(one && other) && (!(one || other) || has_slot(graph, b"indexPath"))
}

fn has_slot(graph: &Graph, slot: &[u8]) -> bool
    ensures { result ≡ has_slot graph.now slot.now }
{
    given_slot(graph.nodes(), graph.root(), slot).is_some()
}

/// Whether a slot is missing, or is the immediate true.
fn is_true_if_given(graph: &Graph, slot: &[u8]) -> bool
    ensures { result ≡ slot_is graph.now slot.now is_true }
{
    match given_slot(graph.nodes(), graph.root(), slot) {
        Some(Ref::Imm(word)) => word == 26,
        Some(Ref::Node(_)) => false,
        None => true,
    }
}

fn query_paths(alloc: Global, graph: &Graph) -> Result<Option<Paths>, ShapeFault>
    ensures ok { IfOk result (λ paths. paths ≡ query_paths graph.now) }
    ensures form { IfOk result (λ _. slot_is graph.now (codes "indexPath")
        (λ r. is_some (index_paths graph.now.nodes r)) ≡ true) }
    ensures spec { IsErrOf result ShapeFault.Spec
        → slot_is graph.now (codes "indexPath") (λ r. is_some (index_paths graph.now.nodes r))
        ≡ false }
{
    let Some(value) = given_slot(graph.nodes(), graph.root(), b"indexPath") else {
        return Ok(None);
    };
    match index_paths(alloc, graph, value)? {
        Some(paths) => Ok(Some(paths)),
        None => Err(ShapeFault::Spec),
    }
}

fn tag_spec(alloc: Global, graph: &Graph) -> Result<TagSpec, ShapeFault>
    ensures ok { IfOk result (λ tags. tags ≡ tag_spec graph.now.nodes
        (given graph.now.nodes graph.now.root (codes "tagSpec"))) }
    ensures form { IfOk result (λ _. slot_is graph.now (codes "tagSpec")
        (is_tag_spec graph.now.nodes) ≡ true) }
    ensures spec { IsErrOf result ShapeFault.Spec
        → slot_is graph.now (codes "tagSpec") (is_tag_spec graph.now.nodes) ≡ false }
{
    let Some(value) = given_slot(graph.nodes(), graph.root(), b"tagSpec") else {
        return Ok(TagSpec::empty());
    };
    match TagSpec::read(alloc, graph, value) {
        Ok(tags) => Ok(tags),
        Err(TagFault::Form) => Err(ShapeFault::Spec),
        Err(TagFault::Memory) => Err(ShapeFault::Memory),
    }
}

/// The texts of a slot, folded.
fn texts_given(alloc: Global, graph: &Graph, slot: &[u8]) -> Result<Texts, ShapeFault>
    ensures ok { IfOk result (λ texts. texts ≡ texts_given graph.now slot.now) }
    ensures form { IfOk result (λ _. slot_is graph.now slot.now (is_text_list graph.now) ≡ true) }
    ensures spec { IsErrOf result ShapeFault.Spec
        → slot_is graph.now slot.now (is_text_list graph.now) ≡ false }
{
    let Some(value) = given_slot(graph.nodes(), graph.root(), slot) else {
        return Ok(Texts::empty(alloc));
    };
    match texts_of(alloc, graph.nodes(), value)? {
        Some(texts) => Ok(texts),
        None => Err(ShapeFault::Spec),
    }
}
