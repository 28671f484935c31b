//! Stores: made, and opened.
ghost use Rattle.std.specs.Prelude.{◌≡◌, true, false, IsTrue, None, IfErr, is_some};
ghost use Rattle.newt_host.specs.Moments.{image};
ghost use Rattle.newt_laws_world.specs.Worlds.{sig_fits};
ghost use Rattle.newt_engine_units.specs.Breaks.{AtDevice};
ghost use Rattle.newt_engine_units.specs.Calls.{AreRead, Ended, Formats, Makes, MakesSure};
ghost use Rattle.newt_engine_units.specs.Faces.{FindsCard, FindsStore};
ghost use Rattle.newt_engine_units.specs.Looks.{FindsReady, IsFree};
ghost use Rattle.newt_engine_units.specs.Stands.{Stands, is_due};

use crate::units::Units;
use newt_base::{Name, Refusal, Sig};
use newt_engine_card::Card;
use newt_host::{Failed, Host, Unit};
use newt_pagebook::{BookFault, LEAST_BLOCKS, MOST_BLOCKS, Stop};
use newt_store_change::StoreFault;

impl<C: Card> Units<C> {
    /// Whether the unit has a device with banks and is not mounted, or why not.
    pub(crate) fn find_ready<H: Host>(&self, host: &H, unit: Unit) -> Result<(), StoreFault>
        ensures { FindsReady self.now ((H.outside host.now).blocks unit) unit result }
    {
        if !self.is_attached(unit) {
            return Err(StoreFault::Refused(Refusal::Unit));
        }
        let blocks = host.blocks(unit);
        if blocks < LEAST_BLOCKS || MOST_BLOCKS < blocks {
            return Err(StoreFault::Refused(Refusal::Blocks));
        }
        if self.card(unit).is_some() {
            return Err(StoreFault::Refused(Refusal::Mounted));
        }
        Ok(())
    }

    /// Makes sure of a unit that a failure has left in doubt: after it a crash leaves what a read
    /// gives.
    pub(crate) fn make_sure<H: Host>(&mut self, host: &mut H, unit: Unit) -> Result<(), StoreFault>
        requires stands { Stands C.place C.stands H.told self.old (H.outside host.old) }
        requires free { IsFree self.old ((H.outside host.old).blocks unit) unit }
        ensures { MakesSure H.told unit self.old self.new (H.outside host.old)
            (H.outside host.new) result }
    {
        if !self.is_due(unit) {
            return Ok(());
        }
        match host.sync(unit) {
            Ok(()) => {
                self.slots[unit.0 as usize].due = false;
                Ok(())
            }
            Err(Failed) => Err(StoreFault::Stop(Stop::Device(unit))),
        }
    }

    /// Opens the store of a unit, if it has a readable one.
    pub(crate) fn open<H: Host>(&self, host: &mut H, unit: Unit) -> Result<Option<C>, StoreFault>
        requires stands { Stands C.place C.stands H.told self.now (H.outside host.old) }
        requires free { IsFree self.now ((H.outside host.old).blocks unit) unit }
        requires sure { is_due self.now unit ≡ false }
        ensures looks { AreRead C.reads C.place C.stands H.told self.now self.now
            (H.outside host.old) (H.outside host.new) }
        ensures opened { FindsCard
            (λ card. C.stands H.told card (H.outside host.new) × (C.place card ≡ unit))
            (IsTrue H.told → C.reads (image unit (H.outside host.old).now) ≡ None) result }
        ensures ends { Ended result (H.outside host.old) (H.outside host.new) }
        ensures its { IfErr result (AtDevice (λ u. u ≡ unit)) }
    {
        match C::open(self.alloc, host, unit) {
            Ok(card) => Ok(Some(card)),
            Err(BookFault::NotStore) => Ok(None),
            Err(BookFault::Memory) => Err(StoreFault::Stop(Stop::Memory)),
            Err(BookFault::Device) => Err(StoreFault::Stop(Stop::Device(unit))),
        }
    }

    /// Whether the unit has a readable store.
    fn has_store<H: Host>(&self, host: &mut H, unit: Unit) -> Result<bool, StoreFault>
        requires stands { Stands C.place C.stands H.told self.now (H.outside host.old) }
        requires free { IsFree self.now ((H.outside host.old).blocks unit) unit }
        requires sure { is_due self.now unit ≡ false }
        ensures looks { AreRead C.reads C.place C.stands H.told self.now self.now
            (H.outside host.old) (H.outside host.new) }
        ensures has { FindsStore H.told
            (is_some (C.reads (image unit (H.outside host.old).now))) result }
        ensures ends { Ended result (H.outside host.old) (H.outside host.new) }
        ensures its { IfErr result (AtDevice (λ u. u ≡ unit)) }
    {
        match self.open(host, unit) {
            Ok(found) => Ok(found.is_some()),
            Err(fault) => Err(fault),
        }
    }

    /// Makes the device of a unit one with a store without soups. A unit that has a store is
    /// refused.
    pub fn format<H: Host>(
        &mut self,
        host: &mut H,
        unit: Unit,
        name: &Name,
        sig: Sig,
    ) -> Result<(), StoreFault>
        requires stands { Stands C.place C.stands H.told self.old (H.outside host.old) }
        requires sig { sig_fits sig ≡ true }
        ensures { Formats C.reads C.place C.stands H.told unit name.now sig self.old self.new
            (H.outside host.old) (H.outside host.new) result }
    {
        self.find_ready(host, unit)?;
        self.make_sure(host, unit)?;
        if self.has_store(host, unit)? {
            return Err(StoreFault::Refused(Refusal::Store));
        }
        self.make(host, unit, name, sig)
    }

    /// Formats the device of a unit that has no store.
    fn make<H: Host>(
        &self,
        host: &mut H,
        unit: Unit,
        name: &Name,
        sig: Sig,
    ) -> Result<(), StoreFault>
        requires stands { Stands C.place C.stands H.told self.now (H.outside host.old) }
        requires free { IsFree self.now ((H.outside host.old).blocks unit) unit }
        requires sure { is_due self.now unit ≡ false }
        requires sig { sig_fits sig ≡ true }
        ensures { Makes C.reads C.place C.stands H.told unit name.now sig self.now
            (H.outside host.old) (H.outside host.new) result }
    {
        match C::format(self.alloc, host, unit, name, sig) {
            Ok(()) => Ok(()),
            Err(stop) => Err(StoreFault::Stop(stop)),
        }
    }
}
