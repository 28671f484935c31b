//! The eight units.
ghost use Rattle.std.specs.Prelude.{◌≡◌, ℕ, Bool, IsTrue, IsSome, None, Some, false, is_some};
ghost use Rattle.std.specs.Prelude.{slice_get, IfOk};
ghost use Rattle.newt_host.specs.Moments.{IsDurable};
ghost use Rattle.newt_host.specs.Outside.{Outside};
ghost use Rattle.newt_laws_answers.specs.WorldAt.{world_at};
ghost use Rattle.newt_engine_units.specs.Stands.{Stands, world_of};

use newt_engine_card::Card;
use newt_host::Unit;
use std::alloc::{AllocError, Global};

/// One unit: whether it has a device, whether a sync of it is due, since its device has failed, and
/// the card that is mounted there.
#[derive(Drop)]
pub(crate) struct Slot<C: Card> {
    pub(crate) attached: bool,
    pub(crate) due: bool,
    pub(crate) card: Option<C>,
}

/// The eight units with the cards that are mounted, the default unit and the minute.
#[derive(Drop)]
pub struct Units<C: Card> {
    pub(crate) alloc: Global,
    pub(crate) slots: Vec<Slot<C>>,
    pub(crate) default: Option<Unit>,
    pub(crate) minute: u32,
}

impl<C: Card> Units<C> {
    /// The units at the start of a run, by whether each has a device: nothing is mounted, and the
    /// minute is 0.
    pub fn of(alloc: Global, attached: [bool; 8]) -> Result<Units<C>, AllocError>
        ensures stands { IfOk result (λ units. (told : Bool) (outside : Outside) →
            ((u : ℕ) (has : Bool) → slice_get attached u ≡ Some has
            → has ≡ is_some (outside.card u)) →
            (IsTrue told → (u : ℕ) → IsSome (outside.card u) → IsDurable u outside.now)
            → Stands C.place C.stands told units outside) }
        ensures world { IfOk result (λ units. (outside : Outside) → world_of C.reads units outside ≡
            world_at C.reads (λ _. false) (λ _. false) None 0 outside) }
    {
        let mut slots = Vec::new(alloc);
        for has in attached {
            slots.push(Slot {
                attached: has,
                due: false,
                card: None,
            })?;
        }
        Ok(Units {
            alloc,
            slots,
            default: None,
            minute: 0,
        })
    }

    /// Where the units take their memory from.
    pub fn alloc(&self) -> Global {
        self.alloc
    }
}
