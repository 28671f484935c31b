//! Where a cursor stands.
ghost use Rattle.std.specs.Prelude.{◌≡◌, IfOk};
ghost use Rattle.newt_cursor.specs.Seen.{place_of};
ghost use Rattle.newt_cursor.specs.Desk.{is_on, with_key};
ghost use Rattle.newt_cursor.specs.Table.{entry_on};

use newt_base::{Sig, Uid};
use newt_index::Spot;
use newt_keys::Key;
use std::alloc::AllocError;

/// A place among the hits of a query.
#[derive(Drop)]
pub enum Place {
    /// Before all hits.
    Start,
    /// After all hits.
    Finish,
    /// On an entry, with the key that it last had.
    On(Spot),
}

impl Place {
    /// An equal place.
    pub fn copy(&self) -> Result<Place, AllocError>
        ensures { IfOk result (λ copy. copy ≡ self.now) }
    {
        match self {
            Place::Start => Ok(Place::Start),
            Place::Finish => Ok(Place::Finish),
            Place::On(spot) => Ok(Place::On(spot.copy()?)),
        }
    }

    /// Whether the place is on this entry, whatever its key. It takes no memory.
    pub fn is_on(&self, store: Sig, soup: Sig, uid: Uid) -> bool
        ensures { result ≡ is_on store soup uid (place_of self.now) }
    {
        match self {
            Place::On(spot) => spot.store == store && spot.soup == soup && spot.uid == uid,
            Place::Start | Place::Finish => false,
        }
    }

    /// The entry that the place is on, if it is on one. It takes no memory.
    pub fn entry(&self) -> Option<(Sig, Sig, Uid)>
        ensures { result ≡ entry_on (place_of self.now) }
    {
        match self {
            Place::On(spot) => Some((spot.store, spot.soup, spot.uid)),
            Place::Start | Place::Finish => None,
        }
    }

    /// Takes this key, where the place is on an entry. It takes no memory.
    pub fn set_key(&mut self, key: Key)
        ensures { place_of self.new ≡ with_key key (place_of self.old) }
    {
        match self {
            Place::On(spot) => spot.key = key,
            Place::Start | Place::Finish => {}
        }
    }
}
