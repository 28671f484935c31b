//! What all the stores that are mounted show.
ghost use Rattle.std.specs.Prelude.{◌≡◌, map, IfOk};
ghost use Rattle.newt_reply.specs.Said.{store_row};
ghost use Rattle.newt_laws_answers.specs.Faces.{shows, shown_count, first_shown, first_showing};
ghost use Rattle.newt_laws_answers.specs.Faces.{face_rows};
ghost use Rattle.newt_engine_units.specs.Faces.{card_face, faces_of};
ghost use Rattle.newt_engine_units.specs.Stands.{card_on};

use crate::units::Units;
use newt_base::Sig;
use newt_engine_card::Card;
use newt_host::{UNITS, Unit};
use newt_reply::{StoreLine, StoreRows};
use std::alloc::AllocError;

impl<C: Card> Units<C> {
    /// How many stores are mounted.
    pub(crate) fn count(&self) -> usize
        ensures { result ≡ shown_count (faces_of C.soups self.now) }
    {
        let mut count = 0;
        for number in 0..UNITS {
            if self.is_mounted(Unit(number)) {
                count += 1;
            }
        }
        count
    }

    /// The first unit with a mounted store.
    pub(crate) fn first_mounted(&self) -> Option<Unit>
        ensures { result ≡ first_shown (faces_of C.soups self.now) }
    {
        for number in 0..UNITS {
            if self.is_mounted(Unit(number)) {
                return Some(Unit(number));
            }
        }
        None
    }

    /// Whether the store that is mounted on a unit has this signature.
    fn shows(&self, unit: Unit, store: Sig) -> bool
        ensures { result ≡ shows store (card_face C.soups (card_on self.now unit)) }
    {
        match self.card(unit) {
            Some(card) => card.sig() == store,
            None => false,
        }
    }

    /// The unit with the mounted store of this signature.
    pub fn unit_of(&self, store: Sig) -> Option<Unit>
        ensures { result ≡ first_showing store (faces_of C.soups self.now) }
    {
        for number in 0..UNITS {
            if self.shows(Unit(number), store) {
                return Some(Unit(number));
            }
        }
        None
    }

    /// The lines of the stores that are mounted.
    pub(crate) fn store_lines(&self) -> Result<StoreRows, AllocError>
        ensures { IfOk result (λ rows. map store_row rows ≡ face_rows 0
            (faces_of C.soups self.now)) }
    {
        let mut lines = Vec::new(self.alloc);
        for number in 0..UNITS {
            let Some(card) = self.card(Unit(number)) else {
                continue;
            };
            lines.push(store_line(Unit(number), card)?)?;
        }
        Ok(StoreRows::of(lines))
    }
}

/// The line of the store on a card.
fn store_line<C: Card>(unit: Unit, card: &C) -> Result<StoreLine, AllocError>
    ensures { IfOk result (λ line. store_row line ≡ (
      unit,
      (C.soups card.now).sig,
      (C.soups card.now).name,
    )) }
{
    Ok(StoreLine {
        unit,
        sig: card.sig(),
        name: card.name().copy()?,
    })
}
