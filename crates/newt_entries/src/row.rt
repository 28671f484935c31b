//! What an entry record has.
ghost use Rattle.std.specs.Prelude.{◌≡◌, IfOk};

use newt_base::{Sig, Uid};
use newt_graph::Graph;
use std::alloc::AllocError;
use std::marker::Model;

/// A large binary in a record. It has the number of its node, from 0 in the order of the graph's
/// nodes; the object with its bytes, even and not 0; and their number, at most 1,000,000.
#[derive(Clone, Copy, Debug, PartialEq, Eq)]
pub struct LargeAt {
    pub node: u32,
    pub object: u32,
    pub length: u32,
}

/// The large binaries of a record, in the order of their nodes.
#[derive(Drop)]
pub struct Larges {
    items: Vec<LargeAt>,
}

impl Model for Larges {
    ghost use Rattle.std.specs.Prelude.{List};
    ghost use Rattle.newt_entries.specs.declared.row.LargeAt.{LargeAt};

    ghost Value = { List LargeAt };

    ghost view = { λ l. l.items.items };
}

impl Larges {
    /// The list of these large binaries.
    pub fn of(items: Vec<LargeAt>) -> Self
        ensures { result ≡ items.items }
    {
        Larges { items }
    }

    /// All of them, in the order of their nodes.
    pub fn list(&self) -> &[LargeAt]
        ensures { result.now ≡ self.now }
    {
        self.items.as_slice()
    }

    /// All of them, by value.
    pub fn into_vec(self) -> Vec<LargeAt>
        ensures { result.items ≡ self }
    {
        self.items
    }

    /// An equal list.
    pub fn copy(&self) -> Result<Larges, AllocError>
        ensures { IfOk result (λ copy. copy ≡ self.now) }
    {
        let mut items = Vec::new(*self.items.allocator());
        items.extend_from_slice(&self.items)?;
        Ok(Larges { items })
    }
}

/// An entry's record: the signature of its soup, at most 65,535; its id; the minute of its last
/// change; its graph without the bytes of large binaries; and a row for each of these, at most
/// 65,535. What `read_entry` gives keeps these limits.
#[derive(Drop)]
pub struct EntryRow {
    pub soup: Sig,
    pub uid: Uid,
    pub time: u32,
    pub skeleton: Graph,
    pub larges: Larges,
}

impl EntryRow {
    /// An equal row.
    pub fn copy(&self) -> Result<EntryRow, AllocError>
        ensures { IfOk result (λ copy. copy ≡ self.now) }
    {
        Ok(EntryRow {
            soup: self.soup,
            uid: self.uid,
            time: self.time,
            skeleton: self.skeleton.copy()?,
            larges: self.larges.copy()?,
        })
    }
}
