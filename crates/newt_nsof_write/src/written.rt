//! The written text: values in the order in which a walk from the root meets them, with small
//! rectangles.
ghost use Rattle.std.specs.Prelude.{◌≡◌, ◌≤◌, ◌<◌, length, IfOk, OnOk, All, None, slice_get};
ghost use Rattle.newt_graph.specs.Graph.{IsNode};
ghost use Rattle.newt_spec_nsof.specs.Flat.{each_text};
ghost use Rattle.newt_spec_nsof.specs.Written.{number_of, label_text, frame_text};
ghost use Rattle.newt_spec_nsof.specs.Written.{any_frame_text, binary_text, plain_large_text};
ghost use Rattle.newt_spec_nsof.specs.Written.{plain_array_text, array_text, any_array_text};
ghost use Rattle.newt_spec_nsof.specs.Written.{new_node, value_text, nsof};
ghost use Rattle.newt_nsof_write.specs.Writing.{Adds};

use crate::data::{large_data, string};
use crate::given::Numbers;
use crate::labels::{again, symbol};
use crate::lengths::flat_len;
use crate::numbers::{count, word};
use crate::small::small;
use newt_graph::{Graph, Node, Ref};
use std::alloc::{AllocError, Global};

/// A class or a slot tag: by its number where it has one, else in full.
#[tactic(auto, unfolding(newt_spec_nsof::specs::Written::label_text))]
fn label(out: &mut Vec<u8>, numbers: &mut Numbers, nodes: &[Node], k: u32) -> Result<(), AllocError>
    requires few { length nodes.now ≤ 65535 }
    requires named { All (IsNode nodes.now) nodes.now }
    ensures { OnOk result (Adds out.old.items out.new.items numbers.new
        (label_text nodes.now k numbers.old)) }
{
    if let Some(number) = numbers.of(k) {
        return again(out, number);
    }
    if let Some(Node::Symbol(name)) = nodes.get(k as usize) {
        symbol(out, name.list())?;
        numbers.give(k)?;
    }
    Ok(())
}

/// The tags of a frame.
fn labels(
    out: &mut Vec<u8>,
    numbers: &mut Numbers,
    nodes: &[Node],
    tags: &[u32],
) -> Result<(), AllocError>
    requires few { length nodes.now ≤ 65535 }
    requires named { All (IsNode nodes.now) nodes.now }
    ensures { OnOk result (Adds out.old.items out.new.items numbers.new
        (each_text (label_text nodes.now) tags.now numbers.old)) }
{
    for tag in tags {
        label(out, numbers, nodes, *tag)?;
    }
    Ok(())
}

/// A binary in full.
fn binary(
    out: &mut Vec<u8>,
    numbers: &mut Numbers,
    nodes: &[Node],
    k: u32,
    class: u32,
    bytes: &[u8],
) -> Result<(), AllocError>
    requires few { length nodes.now ≤ 65535 }
    requires named { All (IsNode nodes.now) nodes.now }
    requires new { (k < 65535) × (number_of k numbers.old ≡ None) }
    requires bytes_few { length bytes.now ≤ 1000000 }
    ensures { OnOk result (Adds out.old.items out.new.items numbers.new
        (binary_text nodes.now k class bytes.now numbers.old)) }
{
    numbers.give(k)?;
    out.push(3)?;
    count(out, bytes.len() as u32)?;
    label(out, numbers, nodes, class)?;
    out.extend_from_slice(bytes)?;
    Ok(())
}

/// A large binary in full.
fn large(
    out: &mut Vec<u8>,
    numbers: &mut Numbers,
    nodes: &[Node],
    k: u32,
    class: u32,
    bytes: &[u8],
) -> Result<(), AllocError>
    requires few { length nodes.now ≤ 65535 }
    requires named { All (IsNode nodes.now) nodes.now }
    requires new { (k < 65535) × (number_of k numbers.old ≡ None) }
    requires bytes_few { length bytes.now ≤ 1000000 }
    ensures { OnOk result (Adds out.old.items out.new.items numbers.new
        (plain_large_text nodes.now k class bytes.now numbers.old)) }
{
    numbers.give(k)?;
    out.push(12)?;
    label(out, numbers, nodes, class)?;
    large_data(out, bytes)?;
    Ok(())
}

/// A frame: small by its four bytes, else in full.
#[cycle(value)]
fn frame(
    out: &mut Vec<u8>,
    numbers: &mut Numbers,
    nodes: &[Node],
    k: u32,
    tags: &[u32],
    values: &[Ref],
    room: u8,
) -> Result<(), AllocError>
    requires few { length nodes.now ≤ 65535 }
    requires named { All (IsNode nodes.now) nodes.now }
    requires new { (k < 65535) × (number_of k numbers.old ≡ None) }
    requires slots { (length values.now ≡ length tags.now) × (length tags.now ≤ 65535) }
    ensures { OnOk result (Adds out.old.items out.new.items numbers.new
        (any_frame_text (λ value numbered. value_text room nodes.now value numbered) nodes.now k
        tags.now values.now numbers.old)) }
{
    match small(nodes, k, tags, values) {
        Some(bytes) => {
            numbers.give(k)?;
            out.push(11)?;
            out.extend_from_slice(&bytes)?;
            Ok(())
        }
        None => full_frame(out, numbers, nodes, k, tags, values, room),
    }
}

/// A frame in full.
#[cycle(value)]
fn full_frame(
    out: &mut Vec<u8>,
    numbers: &mut Numbers,
    nodes: &[Node],
    k: u32,
    tags: &[u32],
    values: &[Ref],
    room: u8,
) -> Result<(), AllocError>
    requires few { length nodes.now ≤ 65535 }
    requires named { All (IsNode nodes.now) nodes.now }
    requires new { (k < 65535) × (number_of k numbers.old ≡ None) }
    requires tags_few { length tags.now ≤ 65535 }
    ensures { OnOk result (Adds out.old.items out.new.items numbers.new
        (frame_text (λ value numbered. value_text room nodes.now value numbered) nodes.now k
        tags.now values.now numbers.old)) }
{
    numbers.give(k)?;
    out.push(6)?;
    count(out, tags.len() as u32)?;
    labels(out, numbers, nodes, tags)?;
    each(out, numbers, nodes, values, room)
}

/// An array in full.
#[cycle(value)]
fn array(
    out: &mut Vec<u8>,
    numbers: &mut Numbers,
    nodes: &[Node],
    k: u32,
    class: Option<u32>,
    values: &[Ref],
    room: u8,
) -> Result<(), AllocError>
    requires few { length nodes.now ≤ 65535 }
    requires named { All (IsNode nodes.now) nodes.now }
    requires new { (k < 65535) × (number_of k numbers.old ≡ None) }
    requires values_few { length values.now ≤ 65535 }
    ensures { OnOk result (Adds out.old.items out.new.items numbers.new
        (any_array_text (λ value numbered. value_text room nodes.now value numbered) nodes.now k
        class values.now numbers.old)) }
{
    match class {
        None => plain_array(out, numbers, nodes, k, values, room),
        Some(class) => classed_array(out, numbers, nodes, k, class, values, room),
    }
}

/// An array without a class, in full.
#[cycle(value)]
fn plain_array(
    out: &mut Vec<u8>,
    numbers: &mut Numbers,
    nodes: &[Node],
    k: u32,
    values: &[Ref],
    room: u8,
) -> Result<(), AllocError>
    requires few { length nodes.now ≤ 65535 }
    requires named { All (IsNode nodes.now) nodes.now }
    requires new { (k < 65535) × (number_of k numbers.old ≡ None) }
    requires values_few { length values.now ≤ 65535 }
    ensures { OnOk result (Adds out.old.items out.new.items numbers.new
        (plain_array_text (λ value numbered. value_text room nodes.now value numbered) k values.now
        numbers.old)) }
{
    numbers.give(k)?;
    out.push(5)?;
    count(out, values.len() as u32)?;
    each(out, numbers, nodes, values, room)
}

/// An array with a class, in full.
#[cycle(value)]
fn classed_array(
    out: &mut Vec<u8>,
    numbers: &mut Numbers,
    nodes: &[Node],
    k: u32,
    class: u32,
    values: &[Ref],
    room: u8,
) -> Result<(), AllocError>
    requires few { length nodes.now ≤ 65535 }
    requires named { All (IsNode nodes.now) nodes.now }
    requires new { (k < 65535) × (number_of k numbers.old ≡ None) }
    requires values_few { length values.now ≤ 65535 }
    ensures { OnOk result (Adds out.old.items out.new.items numbers.new
        (array_text (λ value numbered. value_text room nodes.now value numbered) nodes.now k class
        values.now numbers.old)) }
{
    numbers.give(k)?;
    out.push(4)?;
    count(out, values.len() as u32)?;
    label(out, numbers, nodes, class)?;
    each(out, numbers, nodes, values, room)
}

/// Values one after another.
#[cycle(value)]
fn each(
    out: &mut Vec<u8>,
    numbers: &mut Numbers,
    nodes: &[Node],
    values: &[Ref],
    room: u8,
) -> Result<(), AllocError>
    requires few { length nodes.now ≤ 65535 }
    requires named { All (IsNode nodes.now) nodes.now }
    ensures { OnOk result (Adds out.old.items out.new.items numbers.new
        (each_text (λ value numbered. value_text room nodes.now value numbered) values.now
        numbers.old)) }
{
    for one in values {
        value(out, numbers, nodes, *one, room)?;
    }
    Ok(())
}

/// A value, with room for so many values within one another, this one too.
#[cycle(value)]
#[tactic(auto, unfolding(newt_spec_nsof::specs::Written::value_text))]
fn value(
    out: &mut Vec<u8>,
    numbers: &mut Numbers,
    nodes: &[Node],
    value: Ref,
    room: u8,
) -> Result<(), AllocError>
    requires few { length nodes.now ≤ 65535 }
    requires named { All (IsNode nodes.now) nodes.now }
    ensures { OnOk result (Adds out.old.items out.new.items numbers.new
        (value_text room nodes.now value numbers.old)) }
{
    if room == 0 {
        return Ok(());
    }
    match value {
        Ref::Imm(w) => word(out, w),
        Ref::Node(k) => match numbers.of(k) {
            Some(number) => again(out, number),
            None => node(out, numbers, nodes, k, room - 1),
        },
    }
}

/// A node in full.
#[cycle(value)]
fn node(
    out: &mut Vec<u8>,
    numbers: &mut Numbers,
    nodes: &[Node],
    k: u32,
    room: u8,
) -> Result<(), AllocError>
    requires few { length nodes.now ≤ 65535 }
    requires named { All (IsNode nodes.now) nodes.now }
    requires new { number_of k numbers.old ≡ None }
    ensures { OnOk result (Adds out.old.items out.new.items numbers.new
        (new_node (λ value numbered. value_text room nodes.now value numbered) nodes.now k
        (slice_get nodes.now k) numbers.old)) }
{
    let Some(node) = nodes.get(k as usize) else {
        return Ok(());
    };
    match node {
        Node::Symbol(name) => {
            symbol(out, name.list())?;
            numbers.give(k)
        }
        Node::Str(units) => {
            string(out, units.list())?;
            numbers.give(k)
        }
        Node::Binary(class, bytes) => binary(out, numbers, nodes, k, *class, bytes.list()),
        Node::Large(class, bytes) => large(out, numbers, nodes, k, *class, bytes.list()),
        Node::Array(class, values) => array(out, numbers, nodes, k, *class, values.list(), room),
        Node::Frame(tags, values) => {
            frame(out, numbers, nodes, k, tags.list(), values.list(), room)
        }
    }
}

/// The one text that is written of a graph.
///
/// It takes memory for its answer and for one number per node.
#[tactic(auto, unfolding(newt_spec_nsof::specs::Written::nsof))]
pub fn encode(alloc: Global, graph: &Graph) -> Result<Vec<u8>, AllocError>
    ensures { IfOk result (λ v. v.items ≡ nsof graph.now) }
{
    let mut out = Vec::with_capacity(alloc, flat_len(graph) as usize)?;
    let mut numbers = Numbers::none(alloc);
    out.push(2)?;
    value(&mut out, &mut numbers, graph.nodes(), graph.root(), 201)?;
    Ok(out)
}

/// How many bytes the written text has. It takes the memory that `encode` takes.
pub fn encoded_len(alloc: Global, graph: &Graph) -> Result<u64, AllocError>
    ensures { IfOk result (λ n. n ≡ length (nsof graph.now)) }
{
    let text = encode(alloc, graph)?;
    Ok(text.len() as u64)
}
