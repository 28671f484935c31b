//! The paths of the index that a query asks for.
ghost use Rattle.std.specs.Prelude.{◌≡◌, ◌<◌, ◌≤◌, IfOk, IfSome, length, map, codes, option_map};
ghost use Rattle.std.specs.Prelude.{option_and_then};
ghost use Rattle.newt_base.specs.Names.{same_name};
ghost use Rattle.newt_graph.specs.declared.node.Ref.TheVariants.{Node as At};
ghost use Rattle.newt_spec_graph.specs.Graph.{every};
ghost use Rattle.newt_spec_query.specs.Tags.{symbol_name, if_given};
ghost use Rattle.newt_spec_query.specs.Spec.{index_paths, keep, path_of, path_values, plain_values};
ghost use Rattle.newt_spec_query.specs.Spec.{within};

use newt_graph::{Graph, Node, Ref};
use newt_path::{Path, Paths};
use newt_tags::every_symbol;
use std::alloc::{AllocError, Global};

/// The most names of a path.
const MOST_NAMES: usize = 8;

/// The most paths of an index.
const MOST_PATHS: usize = 4;

/// One path, or those of an array without class of 1 to 4. None exactly where the value is neither.
#[tactic(auto, using(crate::proofs::Given::one_or, crate::proofs::Given::none_or))]
pub(crate) fn index_paths(
    alloc: Global,
    graph: &Graph,
    value: Ref,
) -> Result<Option<Paths>, AllocError>
    ensures { IfOk result (λ paths. paths ≡ index_paths graph.now.nodes value) }
{
    if let Some(path) = path_of(alloc, graph, value)? {
        return Ok(Some(Paths::of(vec![in alloc; path]?)));
    }
    match few_values(graph.nodes(), value) {
        Some(values) => every_path(alloc, graph, values),
        None => Ok(None),
    }
}

/// The values of an array without class, where there are 1 to 4 of them.
fn few_values(nodes: &[Node], value: Ref) -> Option<&[Ref]>
    ensures { option_map (λ values. values.now) result
        ≡ option_and_then (keep (within 4)) (plain_values nodes.now value) }
{
    let Ref::Node(n) = value else {
        return None;
    };
    let Some(Node::Array(None, values)) = nodes.get(n as usize) else {
        return None;
    };
    let values = values.list();
    if values.is_empty() || values.len() > MOST_PATHS {
        return None;
    }
    Some(values)
}

/// The paths of values that all are paths.
fn every_path(alloc: Global, graph: &Graph, values: &[Ref]) -> Result<Option<Paths>, AllocError>
    ensures { IfOk result (λ paths. paths ≡ every (map (path_of graph.now.nodes) values.now)) }
{
    let mut items = Vec::new(alloc);
    for value in values {
        let Some(path) = path_of(alloc, graph, *value)? else {
            return Ok(None);
        };
        items.push(path)?;
    }
    Ok(Some(Paths::of(items)))
}

/// The path that a value is: a symbol, or an array with class `pathExpr` of 1 to 8 symbols.
#[tactic(auto, using(crate::proofs::PathForms::path_there, crate::proofs::PathForms::path_else))]
fn path_of(alloc: Global, graph: &Graph, value: Ref) -> Result<Option<Path>, AllocError>
    ensures { IfOk result (λ path. path ≡ path_of graph.now.nodes value) }
{
    match path_values(graph.nodes(), value) {
        Some(values) => path_from(alloc, graph, values),
        None => path_from(alloc, graph, &[value]),
    }
}

/// The values of an array with class `pathExpr`, where there are 1 to 8 of them.
fn path_values(nodes: &[Node], value: Ref) -> Option<&[Ref]>
    ensures values { option_map (λ values. values.now) result ≡ path_values nodes.now value }
    ensures some { IfSome result (λ values. 0 < length values.now) }
    ensures few { IfSome result (λ values. length values.now ≤ 8) }
{
    let Ref::Node(n) = value else {
        return None;
    };
    let Some(Node::Array(Some(class), values)) = nodes.get(n as usize) else {
        return None;
    };
    let values = values.list();
    if !is_path_class(nodes, *class) || values.is_empty() || values.len() > MOST_NAMES {
        return None;
    }
    Some(values)
}

fn is_path_class(nodes: &[Node], class: u32) -> bool
    ensures { result ≡ if_given (same_name (codes "pathExpr")) (symbol_name nodes.now (At class)) }
{
    match nodes.get(class as usize) {
        Some(Node::Symbol(name)) => b"pathExpr".eq_ignore_ascii_case(name.list()),
        _ => true,
    }
}

/// The path of 1 to 8 values that all are symbols.
fn path_from(alloc: Global, graph: &Graph, values: &[Ref]) -> Result<Option<Path>, AllocError>
    requires some { 0 < length values.now }
    requires few { length values.now ≤ 8 }
    ensures { IfOk result (λ path. path ≡ every (map (symbol_name graph.now.nodes) values.now)) }
{
    match every_symbol(alloc, graph.nodes(), values)? {
        Some(names) => Ok(Some(Path::of(names.into_items()))),
        None => Ok(None),
    }
}
