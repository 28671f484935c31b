//! The host's past, in room that can be taken in advance.
ghost use Rattle.std.specs.Prelude.{◌≡◌, ◌+◌, ◌-◌, ◌≤◌, ◌<◌, ◌++◌, ◌∷◌, [], length, IsTrue};
ghost use Rattle.std.specs.Prelude.{vec_len, vec_capacity};
ghost use Rattle.newt_memhost.specs.Happened.{after, bytes_of, calls_in, counts, total};

use crate::happened::Happened;
use newt_host::Unit;
use std::alloc::Global;

/// What has happened, the oldest first, and a store of the bytes that were taken, written or
/// printed.
#[derive(Drop)]
pub(crate) struct Log {
    pub(crate) entries: Vec<Happened>,
    pub(crate) store: Vec<u8>,
    pub(crate) calls: u64,
    ghost counted: { calls_in entries.items ≡ calls },
    ghost used: { total entries.items ≡ length store.items },
}

/// Adds an entry for which there is room.
fn push(entries: &mut Vec<Happened>, entry: Happened)
    requires { vec_len entries.old < vec_capacity entries.old }
    ensures items { entries.new.items ≡ entries.old.items ++ entry ∷ [] }
    ensures more { vec_capacity entries.old ≤ vec_capacity entries.new }
{
    let _added = entries.push(entry);
}

/// Adds bytes for which there is room.
fn extend(store: &mut Vec<u8>, bytes: &[u8])
    requires { vec_len store.old + length bytes.now ≤ vec_capacity store.old }
    ensures items { store.new.items ≡ store.old.items ++ bytes.now }
    ensures more { vec_capacity store.old ≤ vec_capacity store.new }
{
    let _added = store.extend_from_slice(bytes);
}

impl Log {
    ghost use Rattle.newt_host.specs.Moments.{Attached, On};
    ghost use Rattle.newt_memhost.specs.Log.{Adds, HasRoom, NoSmaller, SamePast, now_of};
    ghost use Rattle.newt_memhost.specs.declared.happened.Happened.TheVariants.{Attach};

    /// A log in which nothing has happened.
    pub(crate) fn new(alloc: Global) -> Self
        ensures entries { result.entries.items ≡ [] }
        ensures store { result.store.items ≡ [] }
        ensures calls { result.calls ≡ 0 }
    {
        Log {
            entries: Vec::new(alloc),
            store: Vec::new(alloc),
            calls: 0,
        }
    }

    /// Makes room for so many entries and bytes more, and answers whether there is that room.
    pub(crate) fn reserve(&mut self, entries: usize, bytes: usize) -> bool
        ensures past { SamePast self.old self.new }
        ensures more { NoSmaller self.old self.new }
        ensures room { IsTrue result → HasRoom entries bytes self.new }
        ensures there { HasRoom entries bytes self.old → IsTrue result }
    {
        self.entries.reserve(entries).is_ok() && self.store.reserve(bytes).is_ok()
    }

    /// Adds a call with its bytes, for which there is room.
    pub(crate) fn add(&mut self, entry: Happened, bytes: &[u8])
        requires call { counts entry ≡ 1 }
        requires its { bytes_of entry ≡ length bytes.now }
        requires room { HasRoom 1 (length bytes.now) self.old }
        ensures { Adds entry bytes.now self.old self.new }
    {
        push(&mut self.entries, entry);
        extend(&mut self.store, bytes);
        self.calls += 1;
    }

    /// Adds an attach, for which there is room.
    pub(crate) fn attach(&mut self, unit: Unit, first: Vec<u8>)
        requires { vec_len self.old.entries < vec_capacity self.old.entries }
        ensures entries { self.new.entries.items ≡ self.old.entries.items ++ Attach unit first
            ∷ [] }
        ensures store { self.new.store ≡ self.old.store }
        ensures calls { self.new.calls ≡ self.old.calls }
        ensures more_entries { vec_capacity self.old.entries ≤ vec_capacity self.new.entries }
        ensures moment { now_of self.new ≡ On unit (Attached first.items) ∷ now_of self.old }
    {
        push(&mut self.entries, Happened::Attach(unit, first));
    }
}
