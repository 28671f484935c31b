//! The members of a union and the searches of their merge.
ghost use Rattle.std.specs.Prelude.{◌≡◌, ◌++◌, ◌∷◌, ◌^◌, ◌-◌, ◌<◌, [], length, min, option_map};
ghost use Rattle.newt_spec_store.specs.Keys.{IndexSpec, Key};
ghost use Rattle.newt_index.specs.Pairs.{first, last};
ghost use Rattle.newt_index.specs.Spots.{spot_hit};
ghost use Rattle.newt_union.specs.Merged.{merged, AllAgree, IsProbeIn};
ghost use Rattle.newt_union.specs.Merged as of;
ghost use Rattle.newt_union.specs.Seen.{shown};

use crate::hit::Hit;
use crate::member::Member;
use crate::searches::{after_of, at_or_after_of, before_of, count_of, first_of, last_of};
use arrayvec::ArrayVec;
use newt_base::Sig;
use newt_index::{Index, Probe, Spot};
use std::marker::Model;

/// The soups of a union, at most four, one for each mounted store. Their declarations agree in
/// types and orders, which is all that the order of keys looks at. Where they do not agree, nothing
/// is promised of what a search answers. No call takes memory.
#[derive(Drop)]
pub struct Members<'a> {
    /// A place that is not used is `None`.
    list: ArrayVec<Option<Member<'a>>, 4>,
}

impl<'a> Model for Members<'a> {
    ghost use Rattle.std.specs.Prelude.{List, map};
    ghost use Rattle.newt_union.specs.Merged.{Member};
    ghost use Rattle.newt_union.specs.Seen.{seen_place, AreSorted};

    ghost Value = { List Member };

    ghost view = { λ m. map seen_place m.list.items };

    ghost invariant = { λ m. AreSorted (map seen_place m.list.items) };
}

impl<'a> Members<'a> {
    /// No members.
    pub fn new() -> Members<'a>
        ensures { result ≡ [] }
    {
        Members {
            list: ArrayVec::new(),
        }
    }

    /// Adds a soup by the signatures of its store and its own, with its range. Fewer than four are
    /// there before.
    pub fn add(&mut self, store: Sig, soup: Sig, index: &'a Index)
        requires { length self.old < 4 }
        ensures { self.new ≡ self.old ++ record { store = store; soup = soup; range = index.now }
            ∷ [] }
    {
        // Its contract tells that the range is in order, as those of all members are.
        let _spec = index.spec();
        self.list.push(Some(Member {
            store: store.0,
            soup: soup.0,
            index,
        }));
    }

    /// The first hit.
    pub fn first(&self) -> Option<Hit<'a>>
        ensures { (spec : IndexSpec) → AllAgree spec self.now
            → option_map shown result ≡ first (merged spec self.now) }
    {
        first_of(self.list.as_slice())
    }

    /// The last hit.
    pub fn last(&self) -> Option<Hit<'a>>
        ensures { (spec : IndexSpec) → AllAgree spec self.now
            → option_map shown result ≡ last (merged spec self.now) }
    {
        last_of(self.list.as_slice())
    }

    /// The first hit after a spot. The probe was made for the spot's key and the members'
    /// declarations; its key bytes stay.
    pub fn after(&self, probe: &mut Probe, spot: &Spot) -> Option<Hit<'a>>
        requires { IsProbeIn self.now spot.now.key probe.old }
        ensures found { (spec : IndexSpec) → AllAgree spec self.now
            → option_map shown result ≡ of.after spec self.now (spot_hit spot.now) }
        ensures kept { probe.new ≡ probe.old }
    {
        after_of(self.list.as_slice(), probe, spot)
    }

    /// The last hit before a spot. The probe was made as for `after`; its key bytes stay.
    pub fn before(&self, probe: &mut Probe, spot: &Spot) -> Option<Hit<'a>>
        requires { IsProbeIn self.now spot.now.key probe.old }
        ensures found { (spec : IndexSpec) → AllAgree spec self.now
            → option_map shown result ≡ of.before spec self.now (spot_hit spot.now) }
        ensures kept { probe.new ≡ probe.old }
    {
        before_of(self.list.as_slice(), probe, spot)
    }

    /// The first hit whose key is not before the probe's. The probe was made for a key of the
    /// members' declarations; its key bytes stay.
    pub fn at_or_after(&self, probe: &mut Probe) -> Option<Hit<'a>>
        ensures found { (spec : IndexSpec) (key : Key) → AllAgree spec self.now
            → IsProbeIn self.now key probe.old
            → option_map shown result ≡ of.at_or_after spec self.now key }
        ensures kept { probe.new ≡ probe.old }
    {
        at_or_after_of(self.list.as_slice(), probe)
    }

    /// The number of hits, at most `u64::MAX`.
    pub fn count(&self) -> u64
        ensures { (spec : IndexSpec) → result ≡ min (2 ^ 64 - 1) (length (merged spec self.now)) }
    {
        count_of(self.list.as_slice())
    }
}
