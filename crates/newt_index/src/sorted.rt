//! An index and its calls.
ghost use Rattle.std.specs.Prelude.{◌≡◌, ◌==◌, [], not, filter, IfOk, IfErr, length, option_map};
ghost use Rattle.newt_keys.specs.KeyForm.{IsKeyOf};
ghost use Rattle.newt_spec_store.specs.Keys as keys;
ghost use Rattle.newt_index.specs.Pairs.{Sorted, parts_of, with_pair, removed, first, last, key_at};
ghost use Rattle.newt_index.specs.Pairs.{IsSorted};
ghost use Rattle.newt_index.specs.Pairs as pairs;
ghost use Rattle.newt_index.specs.Kept.{IsProbeOf, shown, lent};

use crate::search::{Probe, Slot, slot_of};
use crate::slots::Slots;
use newt_base::Uid;
use newt_keys::{IndexSpec, Key};
use std::alloc::{AllocError, Global};
use std::marker::Model;
use std::ops::Bound;

/// An index: pairs of a key and an id, which rise by key and then by id. With no declaration every
/// key is empty.
#[derive(Drop)]
pub struct Index {
    spec: Option<IndexSpec>,
    slots: Slots,
    alloc: Global,
}

impl Model for Index {
    ghost use Rattle.std.specs.Prelude.{map};
    ghost use Rattle.newt_index.specs.Pairs.{Sorted};
    ghost use Rattle.newt_index.specs.Kept.{pair_of, AreKept};

    ghost Value = { Sorted };

    ghost view = { λ i. record { spec = i.spec; pairs = map pair_of i.slots } };

    ghost invariant = { λ i. AreKept i.spec i.slots };
}

impl Index {
    /// An index with no pairs. It takes no memory.
    pub fn new(alloc: Global, spec: Option<IndexSpec>) -> Index
        ensures { result ≡ record { spec = spec; pairs = [] } }
    {
        let slots = match &spec {
            Some(_) => Slots::new(alloc),
            None => Slots::plain(alloc),
        };
        Index { spec, slots, alloc }
    }

    /// Adds a pair. Where it is there nothing changes.
    pub fn add(&mut self, key: Key, uid: Uid) -> Result<(), AllocError>
        requires { IsKeyOf (parts_of self.old.spec) key }
        ensures ok { IfOk result (λ _. self.new ≡ record self.old
            { pairs = with_pair (parts_of self.old.spec) self.old.pairs (key, uid) }) }
        ensures err { IfErr result (λ _. self.new ≡ self.old) }
    {
        let slot = slot_of(self.alloc, &self.spec, &key, uid)?;
        self.slots.insert(slot, key)?;
        Ok(())
    }

    /// Removes a pair. Where it is not there nothing changes.
    pub fn remove(&mut self, key: &Key, uid: Uid) -> Result<(), AllocError>
        requires { IsKeyOf (parts_of self.old.spec) key.now }
        ensures ok { IfOk result (λ _. self.new ≡ record self.old
            { pairs = removed (parts_of self.old.spec) self.old.pairs (key.now, uid) }) }
        ensures err { IfErr result (λ _. self.new ≡ self.old) }
    {
        let slot = slot_of(self.alloc, &self.spec, key, uid)?;
        self.slots.remove(&slot);
        Ok(())
    }

    /// Removes all pairs of an id. It takes no memory.
    pub fn forget(&mut self, uid: Uid)
        ensures { self.new ≡ record self.old {
          pairs = filter (λ q. not (q.1 == uid))
              self.old.pairs;
        } }
    {
        self.slots.remove_id(uid.0);
    }

    /// The first pair.
    pub fn first(&self) -> Option<(&Key, Uid)>
        ensures found { option_map shown result ≡ first self.now.pairs }
        ensures sorted { IsSorted self.now }
    {
        pair(self.slots.keys().iter().next())
    }

    /// The last pair.
    pub fn last(&self) -> Option<(&Key, Uid)>
        ensures found { option_map shown result ≡ last self.now.pairs }
        ensures sorted { IsSorted self.now }
    {
        pair(self.slots.keys().iter().next_back())
    }

    /// The least pair after the probe's key with this id. The probe was made for a key of the
    /// index's declaration; its key bytes stay.
    pub fn after(&self, probe: &mut Probe, uid: Uid) -> Option<(&Key, Uid)>
        ensures found { (key : keys.Key) → IsProbeOf self.now.spec key probe.old
            → option_map shown result ≡ pairs.after (parts_of self.now.spec) self.now.pairs
            (key, uid) }
        ensures kept { probe.new ≡ probe.old }
        ensures sorted { IsSorted self.now }
    {
        probe.slot.uid = uid.0;
        pair(
            self.slots
                .keys()
                .range((Bound::Excluded(&probe.slot), Bound::Unbounded))
                .next(),
        )
    }

    /// The greatest pair before the probe's key with this id. The condition is the same.
    pub fn before(&self, probe: &mut Probe, uid: Uid) -> Option<(&Key, Uid)>
        ensures found { (key : keys.Key) → IsProbeOf self.now.spec key probe.old
            → option_map shown result ≡ pairs.before (parts_of self.now.spec) self.now.pairs
            (key, uid) }
        ensures kept { probe.new ≡ probe.old }
        ensures sorted { IsSorted self.now }
    {
        probe.slot.uid = uid.0;
        pair(
            self.slots
                .keys()
                .range((Bound::Unbounded, Bound::Excluded(&probe.slot)))
                .next_back(),
        )
    }

    /// The first pair whose key is not before the probe's. The condition is the same.
    pub fn at_or_after(&self, probe: &mut Probe) -> Option<(&Key, Uid)>
        ensures found { (key : keys.Key) → IsProbeOf self.now.spec key probe.old
            → option_map shown result ≡ pairs.at_or_after (parts_of self.now.spec) self.now.pairs
            key }
        ensures kept { probe.new ≡ probe.old }
        ensures sorted { IsSorted self.now }
    {
        probe.slot.uid = 0;
        pair(
            self.slots
                .keys()
                .range((Bound::Included(&probe.slot), Bound::Unbounded))
                .next(),
        )
    }

    /// The last pair whose key is not after the probe's. The condition is the same.
    pub fn at_or_before(&self, probe: &mut Probe) -> Option<(&Key, Uid)>
        ensures found { (key : keys.Key) → IsProbeOf self.now.spec key probe.old
            → option_map shown result ≡ pairs.at_or_before (parts_of self.now.spec) self.now.pairs
            key }
        ensures kept { probe.new ≡ probe.old }
        ensures sorted { IsSorted self.now }
    {
        probe.slot.uid = u32::MAX;
        pair(
            self.slots
                .keys()
                .range((Bound::Unbounded, Bound::Included(&probe.slot)))
                .next_back(),
        )
    }

    /// The number of pairs.
    pub fn len(&self) -> usize
        ensures { result ≡ length self.now.pairs }
    {
        self.slots.keys().len()
    }

    /// The declaration that was given to `new`.
    pub fn spec(&self) -> Option<&IndexSpec>
        ensures spec { option_map (λ s. s.now) result ≡ self.now.spec }
        ensures sorted { IsSorted self.now }
    {
        // Its contract tells that the map's keys rise, which the clause `sorted` is proved from.
        let _count = self.slots.keys().len();
        self.spec.as_ref()
    }

    /// The key of the first pair with this id.
    pub fn key_of(&self, uid: Uid) -> Option<&Key>
        ensures { option_map (λ k. k.now) result ≡ key_at self.now.pairs uid }
    {
        self.slots.key_of(uid.0)
    }

    /// The allocator that was given to `new`.
    pub fn allocator(&self) -> Global {
        self.alloc
    }
}

/// The key and the id of a pair that a walk found.
fn pair<'a>(found: Option<(&'a Slot, &'a Key)>) -> Option<(&'a Key, Uid)>
    ensures { option_map shown result ≡ option_map lent found.entry }
{
    match found {
        Some((slot, key)) => Some((key, Uid(slot.uid))),
        None => None,
    }
}
