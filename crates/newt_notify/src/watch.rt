//! A watch: the last notes of a list, and the number of those before them.
ghost use Rattle.std.specs.Prelude.{◌≡◌, ◌≤◌, IfOk, OnErr};
ghost use Rattle.newt_notify.specs.Watch.{Watching, watching, with_note, kept_of, as_new};

use crate::note::{Note, NoteList, Notes};
use circular_buffer::HeapCircularBuffer;
use newt_base::Name;
use std::alloc::{AllocError, Global};
use std::marker::Model;

/// The changes of all soups of one name since the watch was made or emptied. It keeps the last of
/// them, at most `most`, and how many it lost before them. The count of the lost stops at
/// 4,294,967,295.
#[derive(Drop)]
pub struct Watch {
    name: Name,
    lost: u32,
    ring: HeapCircularBuffer<Note>,
}

impl Model for Watch {
    ghost use Rattle.std.specs.Prelude.{◌≤◌};
    ghost use Rattle.newt_notify.specs.Watch.{Kept};

    ghost Value = { Kept };

    ghost view = { λ w. record
        { name = w.name; most = w.ring.capacity; lost = w.lost; last = w.ring.items } };

    ghost invariant = { λ w. (1 ≤ w.ring.capacity) × (w.ring.capacity ≤ 64) };
}

impl Watch {
    /// Watches the soups of a name, and keeps the last `most` notes. The room for all of them is
    /// taken here.
    pub fn new(alloc: Global, name: Name, most: u32) -> Result<Watch, AllocError>
        requires some { 1 ≤ most }
        requires few { most ≤ 64 }
        ensures { IfOk result (λ watch. watch ≡ kept_of (watching name most)) }
    {
        let ring = HeapCircularBuffer::with_capacity(alloc, most as usize)?;
        Ok(Watch {
            name,
            lost: 0,
            ring,
        })
    }

    /// The name of the soups that it watches.
    pub fn name(&self) -> &Name
        ensures { result.now ≡ self.now.name }
    {
        &self.name
    }

    /// Takes a further note. It takes no memory.
    pub fn push(&mut self, note: Note)
        ensures { (w : Watching) → self.old ≡ kept_of w → self.new ≡ kept_of (with_note note w) }
    {
        if self.ring.push_back(note).is_some() {
            self.lost = self.lost.saturating_add(1);
        }
    }

    /// The notes, and the number of those that were lost. The watch is empty afterwards; where
    /// memory is refused, it is as before.
    pub fn take(&mut self) -> Result<Notes, AllocError>
        ensures lost { IfOk result (λ notes. notes.lost ≡ self.old.lost) }
        ensures last { IfOk result (λ notes. notes.list ≡ self.old.last) }
        ensures empty { IfOk result (λ _. self.new ≡ as_new self.old) }
        ensures err { OnErr result (self.new ≡ self.old) }
    {
        let items = self.ring.to_vec(*self.ring.allocator())?;
        self.ring.clear();
        let lost = self.lost;
        self.lost = 0;
        Ok(Notes {
            lost,
            list: NoteList::of(items),
        })
    }
}
