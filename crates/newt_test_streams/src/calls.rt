//! What calls answer for a text, as texts.

use newt_base::{HexFault, Name, NameFault, decimal, hex_read, hex_text, signed};
use newt_graph::{Graph, Node};
use newt_lit_print::print_literal;
use newt_lit_read::{LitFault, read_literal};
use newt_test_tables::Asks;
use std::alloc::{AllocError, Global};
use std::test::Fail;

/// A call of a text.
pub(crate) enum Call {
    /// The graph that a literal reads as.
    Literal,
    /// Whether a text is a literal.
    Fits,
    /// The literal that is printed of the graph that a literal reads as.
    Printed,
    /// A number without a sign.
    Decimal,
    /// A number that may have a sign.
    Signed,
    /// A name and its copy.
    Name,
    /// The bytes of a hexadecimal text, and their text again.
    Hex,
}

impl Asks for Call {
    fn answer(&self, alloc: Global, text: &str) -> Result<String, Fail> {
        Ok(match self {
            Call::Literal => literal(alloc, text)?,
            Call::Fits => fits(alloc, text)?,
            Call::Printed => printed(alloc, text)?,
            Call::Decimal => format!(in alloc; "{:?}", decimal(text.as_bytes()))?,
            Call::Signed => format!(in alloc; "{:?}", signed(text.as_bytes()))?,
            Call::Name => name(alloc, text)?,
            Call::Hex => hex(alloc, text)?,
        })
    }
}

/// A node. Names and texts are lists of numbers.
fn told_node(alloc: Global, node: &Node) -> Result<String, AllocError> {
    match node {
        Node::Symbol(name) => format!(in alloc; " Symbol{:?}", name.list()),
        Node::Str(units) => format!(in alloc; " Str{:?}", units.list()),
        Node::Binary(class, bytes) => format!(in alloc; " Binary {class} {:?}", bytes.list()),
        Node::Large(class, bytes) => format!(in alloc; " Large {class} {:?}", bytes.list()),
        Node::Array(class, values) => format!(in alloc; " Array {class:?} {:?}", values.list()),
        Node::Frame(tags, values) => {
            format!(in alloc; " Frame{:?} {:?}", tags.list(), values.list())
        }
    }
}

/// The root and the nodes of a graph in order.
fn told(alloc: Global, graph: &Graph) -> Result<String, AllocError> {
    let mut out = format!(in alloc; "{:?}", graph.root())?;
    for node in graph.nodes() {
        out.push_str(&told_node(alloc, node)?)?;
    }
    Ok(out)
}

fn fault(fault: LitFault) -> &'static str {
    match fault {
        LitFault::Literal => "literal",
        LitFault::Memory => "memory",
    }
}

/// The graph that a text reads as, or the fault.
fn literal(alloc: Global, text: &str) -> Result<String, AllocError> {
    match read_literal(alloc, text) {
        Ok(graph) => told(alloc, &graph),
        Err(why) => String::from_str(alloc, fault(why)),
    }
}

/// Whether a text is a literal, or the fault.
fn fits(alloc: Global, text: &str) -> Result<String, AllocError> {
    match read_literal(alloc, text) {
        Ok(_) => String::from_str(alloc, "fits"),
        Err(why) => String::from_str(alloc, fault(why)),
    }
}

/// The literal of the graph that a text reads as, or the fault.
fn printed(alloc: Global, text: &str) -> Result<String, AllocError> {
    let graph = match read_literal(alloc, text) {
        Ok(graph) => graph,
        Err(why) => return String::from_str(alloc, fault(why)),
    };
    match str::from_utf8(&print_literal(alloc, &graph)?) {
        Ok(text) => String::from_str(alloc, text),
        Err(_) => String::from_str(alloc, "no text"),
    }
}

/// The bytes of a name's copy.
fn name(alloc: Global, text: &str) -> Result<String, AllocError> {
    match Name::read(alloc, text.as_bytes()) {
        Ok(name) => format!(in alloc; "{:?}", name.copy()?.list()),
        Err(NameFault::Name) => String::from_str(alloc, "name"),
        Err(NameFault::Memory) => String::from_str(alloc, "memory"),
    }
}

/// The bytes of a hexadecimal text, and those of their text.
fn hex(alloc: Global, text: &str) -> Result<String, AllocError> {
    match hex_read(alloc, text.as_bytes()) {
        Ok(read) => {
            let again = hex_text(alloc, &read)?;
            format!(in alloc; "{:?} {:?}", read.as_slice(), again.as_slice())
        }
        Err(HexFault::NotHex) => String::from_str(alloc, "not hex"),
        Err(HexFault::Memory) => String::from_str(alloc, "memory"),
    }
}
