//! The best of what the members have to offer.
ghost use Rattle.std.specs.Prelude.{◌≡◌, ◌-◌, ◌^◌, None, fold, length, map, min, option_map};
ghost use Rattle.std.specs.List.{sum_by};
ghost use Rattle.newt_spec_store.specs.Keys.{Key};
ghost use Rattle.newt_index.specs.Spots.{spot_hit};
ghost use Rattle.newt_union.specs.Candidates.{first_in, last_in, after_in, before_in};
ghost use Rattle.newt_union.specs.Candidates.{at_or_after_in, with_lesser, with_greater};
ghost use Rattle.newt_union.specs.Seen.{shown, seen_place, HaveProbe};

use crate::hit::Hit;
use crate::member::Member;
use newt_index::{Probe, Spot};

/// The least of the members' first hits.
pub(crate) fn first_of<'a>(places: &[Option<Member<'a>>]) -> Option<Hit<'a>>
    ensures { option_map shown result ≡ fold (with_lesser first_in) None
        (map seen_place places.now) }
{
    let mut least = None;
    for place in places {
        if let Some(member) = place {
            least = member.lesser(&least, &member.first());
        }
    }
    least
}

/// The greatest of the members' last hits.
pub(crate) fn last_of<'a>(places: &[Option<Member<'a>>]) -> Option<Hit<'a>>
    ensures { option_map shown result ≡ fold (with_greater last_in) None
        (map seen_place places.now) }
{
    let mut greatest = None;
    for place in places {
        if let Some(member) = place {
            greatest = member.greater(&greatest, &member.last());
        }
    }
    greatest
}

/// The least of the members' hits after a spot.
pub(crate) fn after_of<'a>(
    places: &[Option<Member<'a>>],
    probe: &mut Probe,
    spot: &Spot,
) -> Option<Hit<'a>>
    requires { HaveProbe spot.now.key probe.old places.now }
    ensures found { option_map shown result ≡ fold (with_lesser (after_in (spot_hit spot.now))) None
        (map seen_place places.now) }
    ensures kept { probe.new ≡ probe.old }
{
    let mut least = None;
    for place in places {
        if let Some(member) = place {
            least = member.lesser(&least, &member.after(probe, spot));
        }
    }
    least
}

/// The greatest of the members' hits before a spot.
pub(crate) fn before_of<'a>(
    places: &[Option<Member<'a>>],
    probe: &mut Probe,
    spot: &Spot,
) -> Option<Hit<'a>>
    requires { HaveProbe spot.now.key probe.old places.now }
    ensures found { option_map shown result ≡ fold (with_greater (before_in (spot_hit spot.now)))
        None (map seen_place places.now) }
    ensures kept { probe.new ≡ probe.old }
{
    let mut greatest = None;
    for place in places {
        if let Some(member) = place {
            greatest = member.greater(&greatest, &member.before(probe, spot));
        }
    }
    greatest
}

/// The least of the members' hits whose keys are not before the probe's.
pub(crate) fn at_or_after_of<'a>(
    places: &[Option<Member<'a>>],
    probe: &mut Probe,
) -> Option<Hit<'a>>
    ensures found { (key : Key) → HaveProbe key probe.old places.now
        → option_map shown result ≡ fold (with_lesser (at_or_after_in key)) None
        (map seen_place places.now) }
    ensures kept { probe.new ≡ probe.old }
{
    let mut least = None;
    for place in places {
        if let Some(member) = place {
            least = member.lesser(&least, &member.at_or_after(probe));
        }
    }
    least
}

/// The number of the members' hits, at most `u64::MAX`.
pub(crate) fn count_of(places: &[Option<Member<'_>>]) -> u64
    ensures { result ≡ min (2 ^ 64 - 1) (sum_by (λ p. length (seen_place p).range.pairs)
        places.now) }
{
    let mut count = 0u64;
    for place in places {
        if let Some(member) = place {
            count = count.saturating_add(member.index.len() as u64);
        }
    }
    count
}
