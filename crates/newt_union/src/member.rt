//! A member of a union, and what it has to offer to a search.
ghost use Rattle.std.specs.Prelude.{◌≡◌, option_map};
ghost use Rattle.newt_spec_store.specs.Keys.{key_cmp};
ghost use Rattle.newt_spec_store.specs.Keys as keys;
ghost use Rattle.newt_spec_query.specs.Hits.{hit_cmp};
ghost use Rattle.newt_index.specs.Pairs.{parts_of};
ghost use Rattle.newt_index.specs.Kept.{IsProbeOf};
ghost use Rattle.newt_index.specs.Kept as kept;
ghost use Rattle.newt_index.specs.Spots.{spot_hit};
ghost use Rattle.newt_union.specs.Merged as merged;
ghost use Rattle.newt_union.specs.Candidates.{side, first_in, last_in, after_in, before_in};
ghost use Rattle.newt_union.specs.Candidates.{at_or_after_in, lesser, greater};
ghost use Rattle.newt_union.specs.Candidates as candidates;
ghost use Rattle.newt_union.specs.Seen.{shown, seen};

use crate::hit::Hit;
use newt_base::{Sig, Uid};
use newt_index::{Index, Probe, Spot};
use newt_keys::{Key, compare};
use std::cmp::Ordering;

/// A soup that takes part, with its range.
#[derive(Clone, Copy)]
pub(crate) struct Member<'a> {
    pub(crate) store: u32,
    pub(crate) soup: u32,
    pub(crate) index: &'a Index,
}

impl<'a> Member<'a> {
    /// The hit that a pair of the range is.
    fn hit(&self, found: &Option<(&'a Key, Uid)>) -> Option<Hit<'a>>
        ensures { option_map shown result ≡ option_map (merged.hit (seen self.now))
            (option_map kept.shown found.now) }
    {
        match found {
            Some((key, uid)) => Some(Hit {
                key: *key,
                store: Sig(self.store),
                soup: Sig(self.soup),
                uid: *uid,
            }),
            None => None,
        }
    }

    /// How the store and the soup of a spot compare to its own.
    fn side(&self, spot: &Spot) -> Ordering
        ensures { result ≡ side (spot_hit spot.now) (seen self.now) }
    {
        let store = spot.store.0.cmp(&self.store);
        store.then(spot.soup.0.cmp(&self.soup))
    }

    /// Its first hit.
    pub(crate) fn first(&self) -> Option<Hit<'a>>
        ensures { option_map shown result ≡ first_in (seen self.now) }
    {
        self.hit(&self.index.first())
    }

    /// Its last hit.
    pub(crate) fn last(&self) -> Option<Hit<'a>>
        ensures { option_map shown result ≡ last_in (seen self.now) }
    {
        self.hit(&self.index.last())
    }

    /// Its least hit after a spot. The probe was made for the spot's key.
    pub(crate) fn after(&self, probe: &mut Probe, spot: &Spot) -> Option<Hit<'a>>
        requires { IsProbeOf self.now.index.now.spec spot.now.key probe.old }
        ensures found { option_map shown result ≡ after_in (spot_hit spot.now) (seen self.now) }
        ensures kept { probe.new ≡ probe.old }
    {
        self.hit(&self.pair_after(probe, spot))
    }

    fn pair_after(&self, probe: &mut Probe, spot: &Spot) -> Option<(&'a Key, Uid)>
        requires { IsProbeOf self.now.index.now.spec spot.now.key probe.old }
        ensures found { option_map kept.shown result
            ≡ candidates.pair_after (spot_hit spot.now) (seen self.now) }
        ensures kept { probe.new ≡ probe.old }
    {
        match self.side(spot) {
            Ordering::Less => self.index.at_or_after(probe),
            Ordering::Equal => self.index.after(probe, spot.uid),
            Ordering::Greater => self.index.after(probe, Uid(u32::MAX)),
        }
    }

    /// Its greatest hit before a spot. The probe was made for the spot's key.
    pub(crate) fn before(&self, probe: &mut Probe, spot: &Spot) -> Option<Hit<'a>>
        requires { IsProbeOf self.now.index.now.spec spot.now.key probe.old }
        ensures found { option_map shown result ≡ before_in (spot_hit spot.now) (seen self.now) }
        ensures kept { probe.new ≡ probe.old }
    {
        self.hit(&self.pair_before(probe, spot))
    }

    fn pair_before(&self, probe: &mut Probe, spot: &Spot) -> Option<(&'a Key, Uid)>
        requires { IsProbeOf self.now.index.now.spec spot.now.key probe.old }
        ensures found { option_map kept.shown result
            ≡ candidates.pair_before (spot_hit spot.now) (seen self.now) }
        ensures kept { probe.new ≡ probe.old }
    {
        match self.side(spot) {
            Ordering::Less => self.index.before(probe, Uid(0)),
            Ordering::Equal => self.index.before(probe, spot.uid),
            Ordering::Greater => self.index.at_or_before(probe),
        }
    }

    /// Its first hit whose key is not before the probe's.
    pub(crate) fn at_or_after(&self, probe: &mut Probe) -> Option<Hit<'a>>
        ensures found { (key : keys.Key) → IsProbeOf self.now.index.now.spec key probe.old
            → option_map shown result ≡ at_or_after_in key (seen self.now) }
        ensures kept { probe.new ≡ probe.old }
    {
        self.hit(&self.index.at_or_after(probe))
    }

    /// Compares two keys by its declaration.
    fn compare_keys(&self, a: &Key, b: &Key) -> Ordering
        ensures { result ≡ key_cmp (parts_of self.now.index.now.spec) a.now b.now }
    {
        match self.index.spec() {
            Some(spec) => compare(a, b, spec),
            None => Ordering::Equal,
        }
    }

    /// Compares two hits by its declaration.
    fn compare(&self, a: &Hit<'a>, b: &Hit<'a>) -> Ordering
        ensures { result ≡ hit_cmp (parts_of self.now.index.now.spec) (shown a.now) (shown b.now) }
    {
        let keys = self.compare_keys(a.key, b.key);
        let stores = a.store.0.cmp(&b.store.0);
        let soups = a.soup.0.cmp(&b.soup.0);
        let uids = a.uid.0.cmp(&b.uid.0);
        keys.then(stores.then(soups.then(uids)))
    }

    /// The lesser of two hits; the first where they tie.
    pub(crate) fn lesser(&self, a: &Option<Hit<'a>>, b: &Option<Hit<'a>>) -> Option<Hit<'a>>
        ensures { option_map shown result ≡ lesser (hit_cmp (parts_of self.now.index.now.spec))
            (option_map shown a.now) (option_map shown b.now) }
    {
        match (a, b) {
            (Some(a), Some(b)) => {
                if self.compare(b, a) == Ordering::Less {
                    Some(b.copy())
                } else {
                    Some(a.copy())
                }
            }
            (Some(found), None) | (None, Some(found)) => Some(found.copy()),
            (None, None) => None,
        }
    }

    /// The greater of two hits; the first where they tie.
    pub(crate) fn greater(&self, a: &Option<Hit<'a>>, b: &Option<Hit<'a>>) -> Option<Hit<'a>>
        ensures { option_map shown result ≡ greater (hit_cmp (parts_of self.now.index.now.spec))
            (option_map shown a.now) (option_map shown b.now) }
    {
        match (a, b) {
            (Some(a), Some(b)) => {
                if self.compare(a, b) == Ordering::Less {
                    Some(b.copy())
                } else {
                    Some(a.copy())
                }
            }
            (Some(found), None) | (None, Some(found)) => Some(found.copy()),
            (None, None) => None,
        }
    }
}
