//! A soup's tags declaration.
ghost use Rattle.std.specs.Prelude.{◌≡◌, ◌<◌, ◌≤◌, ◌^◌, IfOk, IsTrue, Some, length, map};
ghost use Rattle.newt_spec_store.specs.Valid.{valid_tags};
ghost use Rattle.newt_spec_query.specs.Tags.{symbols_in, is_among};
ghost use Rattle.newt_tags.specs.Masks.{number, mask_of};

use crate::names::Names;
use crate::symbols::has_symbol;
use newt_graph::{Bytes, Graph, Node, Ref};
use newt_path::{Path, value_at};
use std::alloc::AllocError;
use std::marker::Model;

/// A tags declaration: which symbols at which path of an entry are its tags. They are at most 64,
/// distinct but for ASCII case. They and the path's names are identifiers of at most 254 bytes.
#[derive(Drop)]
pub struct TagTable {
    path: Path,
    symbols: Names,
}

impl Model for TagTable {
    ghost use Rattle.std.specs.Prelude.{IsTrue, Some};
    ghost use Rattle.newt_spec_store.specs.Store.{TagTable};
    ghost use Rattle.newt_spec_store.specs.Valid.{valid_tags};

    ghost Value = { TagTable };

    ghost view = { λ table. record { path = table.path; symbols = table.symbols } };

    ghost invariant = { λ table. IsTrue (valid_tags (Some (record { path = table.path; symbols = table.symbols }))) };
}

impl TagTable {
    /// The declaration of this path and these symbols. It takes no memory.
    pub fn new(path: Path, symbols: Vec<Bytes>) -> TagTable
        requires { IsTrue (valid_tags (Some (record { path = path; symbols = symbols.items }))) }
        ensures { result ≡ record { path = path; symbols = symbols.items } }
    {
        TagTable {
            path,
            symbols: Names::of(symbols),
        }
    }

    /// The path at which an entry has its tags.
    pub fn path(&self) -> &Path
        ensures { result.now ≡ self.now.path }
    {
        &self.path
    }

    /// The symbols in the order of the declaration.
    pub fn symbols(&self) -> &[Bytes]
        ensures symbols { result.now ≡ self.now.symbols }
        ensures valid { IsTrue (valid_tags (Some self.now)) }
    {
        self.symbols.list()
    }

    /// Which of the symbols an entry has, as a mask: bit n is that of symbol n, counted from 0. It
    /// takes no memory.
    pub fn mask_of(&self, graph: &Graph) -> u64
        ensures value { result ≡ mask_of self.now graph.now }
        ensures small { result < 2 ^ length self.now.symbols }
    {
        match value_at(graph, &self.path) {
            Some(value) => mask(graph.nodes(), value, self.symbols()),
            None => 0,
        }
    }

    /// An equal declaration.
    pub fn copy(&self) -> Result<TagTable, AllocError>
        ensures { IfOk result (λ copy. copy ≡ self.now) }
    {
        Ok(TagTable {
            path: self.path.copy()?,
            symbols: self.symbols.copy()?,
        })
    }
}

/// Which of the symbols a value has, as a mask.
fn mask(nodes: &[Node], value: Ref, symbols: &[Bytes]) -> u64
    requires few { length symbols.now ≤ 64 }
    ensures value { result ≡ number (map (is_among (symbols_in nodes.now value)) symbols.now) }
    ensures small { result < 2 ^ length symbols.now }
{
    match symbols {
        [] => 0,
        [first, rest @ ..] => {
            u64::from(has_symbol(nodes, value, first.list())) + 2 * mask(nodes, value, rest)
        }
    }
}
