//! What builders make, with ample memory. What they make of a text, and of a path, is tested where
//! these are read.
use newt_graph::{Builder, GraphFault, Node, Ref, Refs};
use newt_test_tables::expect;
use std::alloc::Global;
use std::test::*;

/// The numbers of a symbol, of an array of its class, and of the symbol again in capitals.
fn symbol_twice(alloc: Global) -> Result<(u32, u32, u32), GraphFault> {
    let mut b = Builder::new(alloc);
    let first = b.symbol(b"first")?;
    let array = b.hold()?;
    let again = b.symbol(b"FIRST")?;
    b.fill(array, Node::Array(Some(first), Refs::of(Vec::new(alloc))))?;
    Ok((first, array, again))
}

/// The number of nodes of a copy of nil, and its root where it is imported.
fn copied_nil(alloc: Global) -> Result<(u32, Ref), GraphFault> {
    let copy = Builder::new(alloc).finish(Ref::Imm(2))?.copy()?;
    let mut b = Builder::new(alloc);
    let array = b.hold()?;
    b.set(array, 0, Ref::Imm(2))?;
    let root = b.import(&copy)?;
    Ok((copy.len(), root))
}

#[test]
fn a_symbol_is_found_again_in_any_case(rt: HostRuntime) -> Result<(), Fail> {
    let numbers = format!(in rt.alloc(); "{:?}", symbol_twice(rt.alloc()))?;
    expect("a symbol twice", &numbers, "Ok((0, 1, 0))")
}

#[test]
fn a_graph_is_copied_and_imported(rt: HostRuntime) -> Result<(), Fail> {
    let told = format!(in rt.alloc(); "{:?}", copied_nil(rt.alloc()))?;
    expect("a copy of nil", &told, "Ok((0, Imm(2)))")
}
