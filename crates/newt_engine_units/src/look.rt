//! What the units have.
ghost use Rattle.std.specs.Prelude.{◌≡◌, ℕ, true, Some, is_some, IfOk, IfErr, option_map};
ghost use Rattle.newt_spec_store.specs.Store.{Store as Plain, entry_at};
ghost use Rattle.newt_laws_answers.specs.There.{OnUnit};
ghost use Rattle.newt_host.specs.Outside.{Outside};
ghost use Rattle.newt_store_change.specs.Faults.{IsRefusal};
ghost use Rattle.newt_engine_units.specs.Stands.{Stands, Eight, world_of, is_mounted, card_on};
ghost use Rattle.newt_engine_units.specs.Stands.{is_due};
ghost use Rattle.newt_engine_units.specs.Found.{FindsEntry};
ghost use Rattle.newt_engine_units.specs.Looks.{FindsUnit, LooksUp, is_attached, soup_on};
ghost use Rattle.newt_engine_units.specs.Looks.{LooksUpBoth, next_uid_on};

use crate::units::Units;
use newt_base::{Name, Refusal, Sig, Uid};
use newt_engine_card::Card;
use newt_host::Unit;
use newt_store_change::StoreFault;

impl<C: Card> Units<C> {
    /// Whether the unit has a device.
    pub(crate) fn is_attached(&self, unit: Unit) -> bool
        ensures { result ≡ is_attached self.now unit }
    {
        match self.slots.get(unit.0 as usize) {
            Some(slot) => slot.attached,
            None => false,
        }
    }

    /// Whether a sync of the unit is due.
    pub(crate) fn is_due(&self, unit: Unit) -> bool
        ensures { result ≡ is_due self.now unit }
    {
        match self.slots.get(unit.0 as usize) {
            Some(slot) => slot.due,
            None => false,
        }
    }

    /// The card that is mounted on a unit.
    pub fn card(&self, unit: Unit) -> Option<&C>
        ensures { option_map (λ card. card.now) result ≡ card_on self.now unit }
    {
        match self.slots.get(unit.0 as usize) {
            Some(slot) => slot.card.as_ref(),
            None => None,
        }
    }

    /// Whether a store is mounted on a unit.
    pub(crate) fn is_mounted(&self, unit: Unit) -> bool
        ensures { result ≡ is_mounted self.now unit }
    {
        self.card(unit).is_some()
    }

    /// The signature of a soup of the store that is mounted on a unit.
    pub fn soup_sig(&self, unit: Unit, name: &Name) -> Option<Sig>
        ensures { result ≡ soup_on C.soups self.now unit name.now }
    {
        match self.card(unit) {
            Some(card) => card.soup_named(name),
            None => None,
        }
    }

    /// The id that the next entry of a soup on a unit gets. It takes no memory.
    pub fn next_uid(&self, unit: Unit, name: &Name) -> Option<u32>
        ensures { result ≡ next_uid_on C.soups self.now unit name.now }
    {
        match self.card(unit) {
            Some(card) => card.next_uid(name),
            None => None,
        }
    }

    /// Whether a store is mounted on the unit, or why there is none: it has no device, or no store
    /// is mounted there.
    pub fn find_unit(&self, unit: Unit) -> Result<(), StoreFault>
        ensures { FindsUnit self.now unit result }
    {
        if !self.is_attached(unit) {
            return Err(StoreFault::Refused(Refusal::Unit));
        }
        if self.card(unit).is_none() {
            return Err(StoreFault::Refused(Refusal::Notmounted));
        }
        Ok(())
    }

    /// The signature of a soup, or why there is none: the unit has no device, no store is mounted
    /// there, or it has no such soup.
    pub fn find_soup(&self, unit: Unit, name: &Name) -> Result<Sig, StoreFault>
        ensures { LooksUp C.soups self.now unit name.now result }
    {
        if !self.is_attached(unit) {
            return Err(StoreFault::Refused(Refusal::Unit));
        }
        if self.card(unit).is_none() {
            return Err(StoreFault::Refused(Refusal::Notmounted));
        }
        match self.soup_sig(unit, name) {
            Some(sig) => Ok(sig),
            None => Err(StoreFault::Refused(Refusal::Soup)),
        }
    }

    /// Whether a soup of the store that is mounted on a unit has an entry.
    pub fn has_entry(&self, unit: Unit, soup: Sig, uid: Uid) -> bool
        ensures { (outside : Outside) → Eight outside
            → Stands C.place C.stands true self.now outside → (blocks : ℕ) (s : Plain)
            → OnUnit (world_of C.reads self.now outside) unit blocks s →
            result ≡ is_some (entry_at soup uid s) }
    {
        match self.card(unit) {
            Some(card) => card.has(soup, uid),
            None => false,
        }
    }

    /// The signature of a soup that has an entry, or why there is none: the soup is not there, or
    /// has no such entry.
    pub fn find_entry(&self, unit: Unit, name: &Name, uid: Uid) -> Result<Sig, StoreFault>
        ensures soup { IfOk result (λ sig. soup_on C.soups self.now unit name.now ≡
            Some sig) }
        ensures only { IfErr result (λ fault. IsRefusal fault) }
        ensures found { (outside : Outside) → Eight outside
            → Stands C.place C.stands true self.now outside
            → FindsEntry (world_of C.reads self.now outside) unit name.now uid result }
    {
        let soup = self.find_soup(unit, name)?;
        if self.has_entry(unit, soup, uid) {
            Ok(soup)
        } else {
            Err(StoreFault::Refused(Refusal::Entry))
        }
    }

    /// The signatures of two soups, or why one is not there: each is tried for both before the
    /// next.
    pub fn find_both(
        &self,
        unit: Unit,
        name: &Name,
        to: Unit,
        target: &Name,
    ) -> Result<(Sig, Sig), StoreFault>
        ensures { LooksUpBoth C.soups self.now unit name.now to target.now result }
    {
        if !self.is_attached(unit) || !self.is_attached(to) {
            return Err(StoreFault::Refused(Refusal::Unit));
        }
        if self.card(unit).is_none() || self.card(to).is_none() {
            return Err(StoreFault::Refused(Refusal::Notmounted));
        }
        match (self.soup_sig(unit, name), self.soup_sig(to, target)) {
            (Some(soup), Some(into)) => Ok((soup, into)),
            _ => Err(StoreFault::Refused(Refusal::Soup)),
        }
    }
}
