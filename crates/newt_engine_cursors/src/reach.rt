//! What a command reaches: the entries that can be hits with another key after it.
ghost use Rattle.std.specs.Prelude.{◌≡◌, true};
ghost use Rattle.newt_host.specs.Outside.{Outside};
ghost use Rattle.newt_index.specs.Spots.{spot_hit};
ghost use Rattle.newt_laws_reach.specs.Reach.{reaches};
ghost use Rattle.newt_spec_world.specs.World.{mounted_store};
ghost use Rattle.newt_engine_units.specs.Stands.{Eight, Stands, world_of};
ghost use Rattle.newt_engine_cursors.specs.Reached.{deed_reach, reach_done, seen_reach};

use newt_base::{Sig, Uid};
use newt_engine_card::Card;
use newt_engine_units::{Deed, Effect, Units};
use newt_index::Spot;

/// The entries that a command reaches: those whose cursors it can give another key.
#[derive(Clone, Copy, PartialEq, Eq, Debug)]
pub enum Reach {
    /// No entry.
    Nowhere,
    /// The entries of a store.
    Store(Sig),
    /// The entries of a soup of a store.
    Soup(Sig, Sig),
    /// One entry.
    Entry(Sig, Sig, Uid),
}

impl Reach {
    /// Whether it has the entry of these signatures and this id.
    pub(crate) fn has(&self, spot: &Spot) -> bool
        ensures { result ≡ reaches (seen_reach self.now) (spot_hit spot.now) }
    {
        match self {
            Reach::Nowhere => false,
            Reach::Store(store) => spot.store == *store,
            Reach::Soup(store, soup) => spot.store == *store && spot.soup == *soup,
            Reach::Entry(store, soup, uid) => {
                spot.store == *store && spot.soup == *soup && spot.uid == *uid
            }
        }
    }
}

/// What is reached by what was done, by the units after it.
pub fn reach_of<C: Card>(units: &Units<C>, effect: &Effect) -> Reach
    ensures { (outside : Outside) → Eight outside → Stands C.place C.stands true units.now outside
        → seen_reach result ≡ reach_done
        (mounted_store (world_of C.reads units.now outside) effect.now.unit) effect.now }
{
    match units.card(effect.unit) {
        Some(card) => deed_reach(card.sig(), effect),
        None => Reach::Nowhere,
    }
}

/// The same in a store of this signature.
fn deed_reach(store: Sig, effect: &Effect) -> Reach
    ensures { seen_reach result ≡ deed_reach store effect.now.deed effect.now.answer }
{
    match effect.deed {
        Deed::Added(soup) => Reach::Entry(store, soup, Uid(effect.answer)),
        Deed::Moved(_, _, into) => Reach::Entry(store, into, Uid(effect.answer)),
        Deed::Changed(soup, uid) => Reach::Entry(store, soup, uid),
        Deed::Declared(soup) => Reach::Soup(store, soup),
        _ => Reach::Nowhere,
    }
}
