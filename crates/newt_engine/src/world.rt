//! The world over the cards of a host.
ghost use Rattle.std.specs.Prelude.{◌≡◌, ◌≤◌, ℕ, None, IsTrue, IfOk, length, map};
ghost use Rattle.std.specs.Prelude.{string_bytes};
ghost use Rattle.newt_host.specs.Meanings.{held};
ghost use Rattle.newt_host_attach.specs.Named.{AreAttached, AreDistinct};
ghost use Rattle.newt_laws_world.specs.Worlds.{has_form};
ghost use Rattle.newt_spec_world.specs.First.{world_of};
ghost use Rattle.newt_engine.specs.Calls.{Applied};
ghost use Rattle.newt_engine.specs.Standing.{IsStanding, means};

use newt_cursor::Desk;
use newt_engine_card::Card;
use newt_engine_units::Units;
use newt_host::Host;
use newt_host_attach::attach_names;
use newt_pagebook::Stop;
use newt_reply::Reply;
use newt_script::Command;
use newt_store_change::StoreFault;
use std::alloc::{AllocError, Global};

/// The eight units with their cards and the 32 places for cursors, which with the devices of a host
/// stand for one world, or for several where a device has failed.
#[derive(Drop)]
pub struct World<C: Card> {
    pub(crate) units: Units<C>,
    pub(crate) desk: Desk,
}

impl<C: Card> World<C> {
    /// Attaches the devices of the names, each to the unit of its place, and begins with them:
    /// nothing is mounted, and no cursor is open. Where memory was refused they stay attached.
    pub fn new<H: Host>(
        alloc: Global,
        host: &mut H,
        names: &[String],
    ) -> Result<World<C>, AllocError>
        requires few { length names.now ≤ 8 }
        requires distinct { AreDistinct (map string_bytes names.now) }
        requires free { (unit : ℕ) → (H.outside host.old).card unit ≡ None }
        ensures stands { IfOk result (λ it.
            IsStanding C.reads C.place C.stands H.told it (H.outside host.new)) }
        ensures world { IsTrue H.told → IfOk result (λ it. means C.reads it (H.outside host.new)
            (world_of C.reads (held (H.outside host.old)) (map string_bytes names.now))) }
        ensures attached { AreAttached H.told (map string_bytes names.now)
            (H.outside host.old) (H.outside host.new) }
    {
        let attached = attach_names(host, names);
        Ok(World {
            units: Units::of(alloc, attached)?,
            desk: Desk::new(alloc)?,
        })
    }

    /// The units with their cards.
    pub fn units(&self) -> &Units<C>
        ensures { result.now ≡ self.now.units }
    {
        &self.units
    }

    /// Answers a command. A refusal is a reply, and leaves the world as the command saw it. A
    /// device that fails costs its own command: its unit is thrown out, and the reply says so. The
    /// error is that memory was refused; after it the world is spent, and no further command may be
    /// given.
    pub fn apply<H: Host>(&mut self, host: &mut H, command: Command) -> Result<Reply, AllocError>
        requires stands { IsStanding C.reads C.place C.stands H.told self.old
            (H.outside host.old) }
        requires form { IsTrue (has_form command) }
        ensures { Applied C.reads C.place C.stands H.told command self.old self.new
            (H.outside host.old) (H.outside host.new) result }
    {
        match self.serve(host, command) {
            Ok(reply) => Ok(reply),
            Err(StoreFault::Refused(refusal)) => Ok(Reply::Refused(refusal)),
            Err(StoreFault::Stop(stop)) => match stop {
                Stop::Device(unit) => {
                    self.units.throw_out(unit);
                    Ok(Reply::Thrown(unit))
                }
                Stop::Memory => Err(AllocError),
            },
        }
    }
}
