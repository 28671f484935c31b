//! The slots of a frame whose values are not nil.
ghost use Rattle.std.specs.Prelude.{◌≡◌, ◌||◌, map, option_map, zip};
ghost use Rattle.std.specs.List.{list_all, list_any};
ghost use Rattle.newt_base.specs.Names.{same_name};
ghost use Rattle.newt_graph.specs.declared.node.Ref.TheVariants.{Node as At};
ghost use Rattle.newt_spec_query.specs.Tags.{symbol_name, if_given};
ghost use Rattle.newt_spec_query.specs.Spec.{is_nil, given, has_only};

use newt_graph::{Node, Ref};
use newt_path::slot_value;

/// The value of a frame's slot. None exactly where the slot is missing or its value is nil. It
/// takes no memory.
pub fn given_slot(nodes: &[Node], frame: Ref, slot: &[u8]) -> Option<Ref>
    ensures { result ≡ given nodes.now frame slot.now }
{
    let value = slot_value(nodes, frame, slot)?;
    (!is_nil(value)).then_some(value)
}

fn is_nil(value: Ref) -> bool
    ensures { result ≡ is_nil value }
{
    match value {
        Ref::Imm(word) => word == 2,
        Ref::Node(_) => false,
    }
}

/// Whether a value is a frame in which each slot that is not nil has one of these names but for
/// ASCII case. It takes no memory.
pub fn has_only_slots(nodes: &[Node], value: Ref, names: &[&str]) -> bool
    ensures { result ≡ has_only nodes.now (map (λ n. n.now) names.now) value }
{
    let Ref::Node(n) = value else {
        return false;
    };
    let Some(node) = nodes.get(n as usize) else {
        return false;
    };
    match node {
        Node::Frame(tags, values) => are_slots(nodes, tags.list(), values.list(), names),
        _ => false,
    }
}

fn are_slots(nodes: &[Node], tags: &[u32], values: &[Ref], names: &[&str]) -> bool
    ensures { result ≡ list_all (λ s. is_nil s.1 || if_given (λ tag. list_any (same_name tag)
        (map (λ n. n.now) names.now)) (symbol_name nodes.now (At s.0))) (zip tags.now values.now) }
{
    tags.iter().zip(values).all(|(tag, value)| is_nil(*value) || is_slot(nodes, *tag, names))
}

fn is_slot(nodes: &[Node], tag: u32, names: &[&str]) -> bool
    ensures { result ≡ if_given (λ tag. list_any (same_name tag) (map (λ n. n.now) names.now))
        (symbol_name nodes.now (At tag)) }
{
    match name_at(nodes, tag) {
        Some(name) => is_one_of(names, name),
        None => true,
    }
}

/// The name of node n, if it is a symbol.
fn name_at(nodes: &[Node], n: u32) -> Option<&[u8]>
    ensures { option_map (λ name. name.now) result ≡ symbol_name nodes.now (At n) }
{
    match nodes.get(n as usize) {
        Some(Node::Symbol(name)) => Some(name.list()),
        _ => None,
    }
}

fn is_one_of(names: &[&str], name: &[u8]) -> bool
    ensures { result ≡ list_any (λ n. same_name name.now n.now) names.now }
{
    names
        .iter()
        .any(|other| name.eq_ignore_ascii_case(other.as_bytes()))
}
