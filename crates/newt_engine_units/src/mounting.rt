//! Stores: mounted and unmounted.
ghost use Rattle.std.specs.Prelude.{◌≡◌, ◌==◌, ◌&&◌, ◌||◌, not, ℕ, Bool, true, false, IsTrue};
ghost use Rattle.std.specs.Prelude.{None, Some, unwrap_or, IfErr};
ghost use Rattle.newt_host.specs.Moments.{image};
ghost use Rattle.newt_host.specs.Outside.{Outside};
ghost use Rattle.newt_spec_world.specs.Reply.{Reply};
ghost use Rattle.newt_spec_world.specs.Step.{thrown_out};
ghost use Rattle.newt_spec_world.specs.World.{lost};
ghost use Rattle.newt_spec_world.specs.declared.command.Command.{Command};
ghost use Rattle.newt_store_change.specs.Faults.{IsRefusal};
ghost use Rattle.newt_engine_units.specs.Answers.{Answers};
ghost use Rattle.newt_engine_units.specs.Breaks.{AtDevice};
ghost use Rattle.newt_engine_units.specs.Calls.{AreRead, Ended, Obeys};
ghost use Rattle.newt_engine_units.specs.Faces.{Admits, Opens, default_after, faces_of};
ghost use Rattle.newt_engine_units.specs.Faces.{with_card, without};
ghost use Rattle.newt_engine_units.specs.Looks.{IsFree, is_attached};
ghost use Rattle.newt_engine_units.specs.Stands.{Eight, Stands, StandsBut, default_of, is_due};
ghost use Rattle.newt_engine_units.specs.Stands.{is_mounted, world_of};

use crate::units::Units;
use newt_base::{Name, Refusal, Sig};
use newt_engine_card::Card;
use newt_host::{Host, Unit};
use newt_store_change::StoreFault;

/// The most stores that are mounted.
const MOST_STORES: usize = 4;

impl<C: Card> Units<C> {
    /// Mounts the store of a unit, and answers its signature and its name. At most 4 stores are
    /// mounted, no two of one signature.
    pub fn mount<H: Host>(&mut self, host: &mut H, unit: Unit) -> Result<(Sig, Name), StoreFault>
        requires { Stands C.place C.stands H.told self.old (H.outside host.old) }
        ensures { Obeys C.reads C.place C.stands H.told (Command.Mount unit)
            (λ x. Reply.store x.0 x.1) self.old self.new
            (H.outside host.old) (H.outside host.new) result }
    {
        self.find_ready(host, unit)?;
        self.make_sure(host, unit)?;
        let card = self.open_store(host, unit)?;
        let face = self.admit(&card)?;
        self.put(unit, card);
        Ok(face)
    }

    /// Opens the store of a unit, or says that it has none.
    fn open_store<H: Host>(&self, host: &mut H, unit: Unit) -> Result<C, StoreFault>
        requires stands { Stands C.place C.stands H.told self.now (H.outside host.old) }
        requires free { IsFree self.now ((H.outside host.old).blocks unit) unit }
        requires sure { is_due self.now unit ≡ false }
        ensures looks { AreRead C.reads C.place C.stands H.told self.now self.now
            (H.outside host.old) (H.outside host.new) }
        ensures opened { Opens
            (λ card. C.stands H.told card (H.outside host.new) × (C.place card ≡ unit))
            (IsTrue H.told → C.reads (image unit (H.outside host.old).now) ≡ None) result }
        ensures ends { Ended result (H.outside host.old) (H.outside host.new) }
        ensures its { IfErr result (AtDevice (λ u. u ≡ unit)) }
    {
        match self.open(host, unit) {
            Ok(Some(card)) => Ok(card),
            Ok(None) => Err(StoreFault::Refused(Refusal::Nostore)),
            Err(fault) => Err(fault),
        }
    }

    /// The signature and the name of a store that may be mounted, or why it may not.
    fn admit(&self, card: &C) -> Result<(Sig, Name), StoreFault>
        ensures { Admits (faces_of C.soups self.now) (C.soups card.now) result }
    {
        if MOST_STORES <= self.count() {
            return Err(StoreFault::Refused(Refusal::Stores));
        }
        let sig = card.sig();
        if self.unit_of(sig).is_some() {
            return Err(StoreFault::Refused(Refusal::Signature));
        }
        let name = card.name().copy()?;
        Ok((sig, name))
    }

    /// Puts a card on a unit. Where no store was the default, it is.
    fn put(&mut self, unit: Unit, card: C)
        requires { is_attached self.old unit ≡ true }
        ensures slots { self.new.slots.items ≡ with_card unit (Some card) self.old.slots.items }
        ensures default { default_of self.new ≡ Some (unwrap_or (default_of self.old) unit) }
        ensures minute { self.new.minute ≡ self.old.minute }
    {
        self.slots[unit.0 as usize].card = Some(card);
        if self.default.is_none() {
            self.default = Some(unit);
        }
    }

    /// Unmounts the store of a unit. Where it was the default one, the default is then the mounted
    /// store of the smallest unit, if one is left.
    pub fn unmount(&mut self, unit: Unit) -> Result<(), StoreFault>
        ensures stands { (told : Bool) (outside : Outside)
            → Stands C.place C.stands told self.old outside
            → Stands C.place C.stands told self.new outside }
        ensures answered { (outside : Outside) → Eight outside
            → Stands C.place C.stands true self.old outside →
            Answers (world_of C.reads self.old outside) (world_of C.reads self.new outside)
            (Command.Unmount unit) (λ _. Reply.done) result }
        ensures only { IfErr result (λ fault. IsRefusal fault) }
        ensures kept { IfErr result (λ fault. self.new ≡ self.old) }
    {
        self.find_unit(unit)?;
        self.take(unit);
        self.default = self.default_after(unit);
        Ok(())
    }

    /// Takes the card from a unit.
    fn take(&mut self, unit: Unit)
        requires { is_mounted self.old unit ≡ true }
        ensures slots { self.new.slots.items ≡ with_card unit None self.old.slots.items }
        ensures default { default_of self.new ≡ default_of self.old }
        ensures minute { self.new.minute ≡ self.old.minute }
    {
        self.slots[unit.0 as usize].card = None;
    }

    /// Throws a unit out whose device has failed: it is mounted no more, and a sync of it is due.
    /// The default is then as after it is unmounted.
    pub fn throw_out(&mut self, unit: Unit)
        requires { is_attached self.old unit ≡ true }
        ensures stands { (told : Bool) (outside : Outside)
            → StandsBut C.place C.stands unit told self.old outside
            → Stands C.place C.stands told self.new outside }
        ensures world { (outside : Outside) → Eight outside
            → StandsBut C.place C.stands unit true self.old outside
            → world_of C.reads self.new outside
            ≡ thrown_out (world_of C.reads self.old outside) unit (λ _. lost) }
        ensures marks { (u : ℕ) → is_mounted self.new u
            ≡ (is_mounted self.old u && not (u == unit)) }
        ensures due { (u : ℕ) → is_due self.new u ≡ (is_due self.old u || (u == unit)) }
    {
        self.lose(unit);
        self.default = self.default_after(unit);
    }

    /// Takes the card from a unit, if it has one, and notes that a sync is due.
    fn lose(&mut self, unit: Unit)
        requires { is_attached self.old unit ≡ true }
        ensures slots { self.new.slots.items ≡ without unit self.old.slots.items }
        ensures default { default_of self.new ≡ default_of self.old }
        ensures minute { self.new.minute ≡ self.old.minute }
    {
        let slot = &mut self.slots[unit.0 as usize];
        slot.due = true;
        slot.card = None;
    }

    /// The default unit after this one is no longer mounted.
    fn default_after(&self, unit: Unit) -> Option<Unit>
        ensures { result ≡ default_after (faces_of C.soups self.now) (default_of self.now) unit }
    {
        let default = self.default?;
        if unit == default {
            self.first_mounted()
        } else {
            Some(default)
        }
    }
}
