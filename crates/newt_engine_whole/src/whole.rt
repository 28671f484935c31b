//! The world over the cards of a host, with watches and working copies.
ghost use Rattle.std.specs.Prelude.{◌≡◌, ◌≤◌, ℕ, None, IsTrue, IfOk, length, map};
ghost use Rattle.std.specs.Prelude.{string_bytes};
ghost use Rattle.newt_host.specs.Meanings.{held};
ghost use Rattle.newt_host_attach.specs.Named.{AreAttached, AreDistinct};
ghost use Rattle.newt_laws_world.specs.Worlds.{has_form};
ghost use Rattle.newt_spec_whole.specs.First.{whole_of};
ghost use Rattle.newt_spec_whole.specs.Step.{WholeStep};
ghost use Rattle.newt_engine_whole.specs.Calls.{Applied};
ghost use Rattle.newt_engine_whole.specs.Standing.{Means, Standing};
ghost use Rattle.newt_engine_whole.specs.Laws.{still_means, still_stands, stood_for, whole_leaves};

use newt_engine::World;
use newt_engine_card::Card;
use newt_host::Host;
use newt_notify::Watches;
use newt_reply::Reply;
use newt_script::Command;
use newt_script_session::Interpreter;
use newt_work::Works;
use std::alloc::{AllocError, Global};

/// A world, eight places for watches and sixteen for working copies, which with the devices of a
/// host stand for one whole, or for several where a device has failed.
#[derive(Drop)]
pub struct Whole<C: Card> {
    pub(crate) world: World<C>,
    pub(crate) watches: Watches,
    pub(crate) works: Works,
}

impl<C: Card> Whole<C> {
    /// Attaches the devices of the names, each to the unit of its place, and begins with them:
    /// nothing is mounted, no cursor is open, and there are no watches and no working copies. Where
    /// memory was refused they stay attached.
    pub fn new<H: Host>(
        alloc: Global,
        host: &mut H,
        names: &[String],
    ) -> Result<Whole<C>, AllocError>
        requires few { length names.now ≤ 8 }
        requires distinct { AreDistinct (map string_bytes names.now) }
        requires free { (unit : ℕ) → (H.outside host.old).card unit ≡ None }
        ensures stands { IfOk result (λ it.
            Standing C.reads C.place C.stands H.told it (H.outside host.new)) }
        ensures means { IsTrue H.told → IfOk result (λ it. Means C.reads it (H.outside host.new)
            (whole_of C.reads (held (H.outside host.old)) (map string_bytes names.now))) }
        ensures attached { AreAttached H.told (map string_bytes names.now)
            (H.outside host.old) (H.outside host.new) }
    {
        let world = World::new(alloc, host, names)?;
        Ok(Whole {
            world,
            watches: Watches::new(alloc)?,
            works: Works::new(alloc)?,
        })
    }

    /// Answers a command. A refusal is a reply, and leaves all as it was. A device that fails costs
    /// its own command: its unit is thrown out, and the reply says so. Copies outlive the store of
    /// their entry. The error is that memory was refused; after it the whole is spent, and no
    /// further command may be given.
    pub fn apply<H: Host>(&mut self, host: &mut H, command: Command) -> Result<Reply, AllocError>
        requires stands { Standing C.reads C.place C.stands H.told self.old
            (H.outside host.old) }
        requires form { IsTrue (has_form command) }
        ensures { Applied C.reads C.place C.stands H.told command self.old self.new
            (H.outside host.old) (H.outside host.new) result }
    {
        match command {
            Command::Watch(name, most) => self.watch(name, most),
            Command::Notes(number) => self.take_notes(number),
            Command::Unwatch(number) => self.unwatch(number),
            Command::Open(unit, name, uid) => self.open(host, unit, name, uid),
            Command::Draft(number) => self.draft(number),
            Command::Edit(number, path, value) => self.edit(number, &path, &value),
            Command::Save(number) => self.save(host, number),
            Command::Revert(number) => self.revert(host, number),
            Command::Discard(number) => self.discard(number),
            other => self.ask(host, other),
        }
    }
}

impl<C: Card> Interpreter for Whole<C> {
    ghost store_of_image = { C.reads };

    ghost step = { WholeStep };

    ghost stands = { λ told it outside. Standing C.reads C.place C.stands told it outside };

    ghost means = { λ it outside h. Means C.reads it outside h };

    ghost has_world = { λ it outside stands.
        stood_for C.formed C.plain C.durable C.banks C.kept it outside stands };

    ghost kept = { λ told it old new same stands.
        still_stands C.kept C.durable told it old new same stands };

    ghost same_worlds = { λ it old new h same means. still_means C.reads it old new h same means };

    ghost leaves = { λ it outside h stands means unit store left is may.
        whole_leaves C.reads it outside h means unit store left is may };

    fn new<H: Host>(alloc: Global, host: &mut H, names: &[String]) -> Result<Self, AllocError> {
        Whole::new(alloc, host, names)
    }

    fn apply<H: Host>(&mut self, host: &mut H, command: Command) -> Result<Reply, AllocError> {
        Whole::apply(self, host, command)
    }
}
