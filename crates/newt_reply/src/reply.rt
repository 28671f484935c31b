//! What is answered to a command.

use crate::rows::{SoupRows, SpecRows, StoreRows, TagRow};
use newt_base::{Name, Refusal, Sig, Uid};
use newt_entries_alias::Alias;
use newt_graph::{Bytes, Graph};
use newt_host::Unit;
use newt_notify::Notes;

/// What is answered to a command.
#[derive(Drop)]
pub enum Reply {
    /// It was done, and there is nothing to show.
    Done,
    /// A number: the id of an entry that was added, the signature of a soup that was made, or how
    /// many hits there are; or that of a cursor, a watch or a working copy.
    Number(u32),
    /// The unit and the id of an entry that was added to the default store.
    Added(Unit, Uid),
    /// The signature and the name of a store.
    Store(Sig, Name),
    /// The mounted stores.
    Stores(StoreRows),
    /// The soups of a store.
    Soups(SoupRows),
    /// The indexes of a soup.
    Indexes(SpecRows),
    /// The tags declaration of a soup; nothing is shown where there is none.
    Tags(TagRow),
    /// Bytes, shown as hexadecimal text.
    Hex(Bytes),
    /// A graph, shown as the hexadecimal text of its object stream.
    Nsof(Graph),
    /// A graph, shown as the literal that is printed for it.
    Literal(Graph),
    /// The minute and the graph of an entry, the graph as a literal.
    Timed(u32, Graph),
    /// The minute and the graph of an entry, the graph as hexadecimal text.
    TimedNsof(u32, Graph),
    /// An alias, shown as a literal.
    Alias(Alias),
    /// The unit, soup and id of an entry.
    Where(Unit, Name, Uid),
    /// The unit, id, minute and graph of the entry at a cursor, the graph as a literal.
    Current(Unit, Uid, u32, Graph),
    /// The entry at a cursor is no longer there.
    Deleted,
    /// There is no such entry, or a cursor is at one of its hits.
    Nil,
    /// A cursor is before its first hit.
    Begin,
    /// A cursor is after its last hit.
    End,
    /// The notes of a watch, after the number of those that it lost.
    Notes(Notes),
    /// It was refused, since the entry of a working copy has changed; with the minute of the entry.
    Changed(u32),
    /// It was refused.
    Refused(Refusal),
    /// The device of this unit failed, and the unit is no longer mounted.
    Thrown(Unit),
}
