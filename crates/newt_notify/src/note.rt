//! What a note says.
ghost use Rattle.std.specs.Prelude.{◌≡◌};

use newt_base::{Sig, Uid};
use newt_host::Unit;
use std::marker::Model;

/// What has changed.
#[derive(Clone, Copy, Debug, PartialEq, Eq)]
pub enum Kind {
    /// A soup was made.
    Make,
    /// A soup was dropped.
    Gone,
    /// An entry was added.
    Add,
    /// An entry was changed.
    Change,
    /// An entry was removed.
    Remove,
}

/// A change of a soup: the unit that has it, its signature, and the id of the entry. The id is 0
/// where the soup itself was made or dropped.
#[derive(Clone, Copy, Debug, PartialEq, Eq)]
pub struct Note {
    pub kind: Kind,
    pub unit: Unit,
    pub soup: Sig,
    pub uid: Uid,
}

/// Notes in the order of their changes.
#[derive(Drop)]
pub struct NoteList {
    items: Vec<Note>,
}

impl Model for NoteList {
    ghost use Rattle.std.specs.Prelude.{List};
    ghost use Rattle.newt_notify.specs.declared.note.Note.{Note};

    ghost Value = { List Note };

    ghost view = { λ l. l.items.items };
}

impl NoteList {
    /// The list of these items, in order. It takes no memory.
    pub fn of(items: Vec<Note>) -> Self
        ensures { result ≡ items.items }
    {
        NoteList { items }
    }

    /// The items, in order.
    pub fn list(&self) -> &[Note]
        ensures { result.now ≡ self.now }
    {
        self.items.as_slice()
    }
}

/// The notes that a watch kept, and how many before them it lost.
#[derive(Drop)]
pub struct Notes {
    pub lost: u32,
    pub list: NoteList,
}
