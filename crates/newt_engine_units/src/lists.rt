//! Lists: of the stores that are mounted, and of the soups of one.
ghost use Rattle.std.specs.Prelude.{◌≡◌, true, map, Some, IfOk, IfErr};
ghost use Rattle.newt_host.specs.Moments.{image};
ghost use Rattle.newt_host.specs.Outside.{Outside};
ghost use Rattle.newt_spec_store.specs.Store.{Store, count_in, soup_of};
ghost use Rattle.newt_spec_world.specs.Reply.{Reply};
ghost use Rattle.newt_spec_world.specs.declared.command.Command.{Command};
ghost use Rattle.newt_spec_world.specs.Answer.{answer};
ghost use Rattle.newt_reply.specs.Said.{store_row, soup_row};
ghost use Rattle.newt_engine_card.specs.Cards.{soup_rows};
ghost use Rattle.newt_store_change.specs.Faults.{NoDevice};
ghost use Rattle.newt_engine_units.specs.Answers.{Answers};
ghost use Rattle.newt_engine_units.specs.Stands.{Eight, Stands, world_of};

use crate::units::Units;
use newt_base::{Name, Refusal, Sig};
use newt_engine_card::Card;
use newt_host::Unit;
use newt_reply::{SoupLine, SoupRows, StoreRows};
use newt_store_change::StoreFault;
use std::alloc::AllocError;

/// The most soups that a store has.
const MOST_SOUPS: usize = 250;

impl<C: Card> Units<C> {
    /// The stores that are mounted, by unit.
    pub fn stores(&self) -> Result<StoreRows, AllocError>
        ensures answered { (outside : Outside) → Eight outside
            → Stands C.place C.stands true self.now outside →
            IfOk result (λ rows. answer (world_of C.reads self.now outside) Command.Stores
            ≡ (world_of C.reads self.now outside, Reply.stores (map store_row rows))) }
    {
        self.store_lines()
    }

    /// The soups of a store, in order of making.
    pub fn soups(&self, unit: Unit) -> Result<SoupRows, StoreFault>
        ensures answered { (outside : Outside) → Eight outside
            → Stands C.place C.stands true self.now outside →
            Answers (world_of C.reads self.now outside) (world_of C.reads self.now outside)
            (Command.Soups unit) (λ rows. Reply.soups (map soup_row rows)) result }
        ensures only { IfErr result (λ fault. NoDevice fault) }
    {
        self.find_unit(unit)?;
        match self.card(unit) {
            Some(card) => Ok(self.soup_lines(card)?),
            None => Err(StoreFault::Refused(Refusal::Notmounted)),
        }
    }

    /// The lines of the soups of a card.
    fn soup_lines(&self, card: &C) -> Result<SoupRows, AllocError>
        ensures { (outside : Outside) (s : Store) → C.stands true card.now outside
            → C.reads (image (C.place card.now) outside.now) ≡ Some s
            → IfOk result (λ rows. map soup_row rows ≡ soup_rows s) }
    {
        let mut lines = Vec::new(self.alloc);
        for at in 0..MOST_SOUPS {
            let Some(soup) = card.soup_at(at) else {
                // (after the last one there are none: a `break` would have to be proved)
                continue;
            };
            lines.push(soup_line(card, soup)?)?;
        }
        Ok(SoupRows::of(lines))
    }
}

/// The line of a soup of a card, by its name and signature.
fn soup_line<C: Card>(card: &C, soup: (&Name, Sig)) -> Result<SoupLine, AllocError>
    ensures name { IfOk result (λ line. line.name ≡ soup.entry.0.now) }
    ensures sig { IfOk result (λ line. line.sig ≡ soup.entry.1) }
    ensures count { (outside : Outside) (s : Store) → C.stands true card.now outside
        → C.reads (image (C.place card.now) outside.now) ≡ Some s
        → IfOk result (λ line. line.count ≡ count_in (soup_of soup.entry.1 s)) }
{
    Ok(SoupLine {
        name: soup.0.copy()?,
        sig: soup.1,
        count: card.count(soup.1),
    })
}
