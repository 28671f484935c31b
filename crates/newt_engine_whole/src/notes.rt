//! Watches: they are made, asked and taken away, and told of changes.
ghost use Rattle.std.specs.Prelude.{◌≡◌, ◌≤◌, true, [], ◌∷◌};
ghost use Rattle.newt_laws_world.specs.Worlds.{has_form, is_plain};
ghost use Rattle.newt_reply.specs.Said.{said};
ghost use Rattle.newt_spec_world.specs.declared.command.Command.TheVariants as asked;
ghost use Rattle.newt_engine_whole.specs.Calls.{AnsweredApart, Applied};
ghost use Rattle.newt_engine_whole.specs.Standing.{Standing};
ghost use Rattle.newt_engine_whole.specs.Told.{Tells, all_due, due_told, event_of, failed_due};
ghost use Rattle.newt_engine_whole.specs.Told.{has_added, is_halfway, made};

use crate::due::{Due, Told, due_of};
use crate::whole::Whole;
use newt_base::{Name, Refusal, Sig, Uid};
use newt_engine_card::Card;
use newt_host::{Host, Unit};
use newt_notify::{Kind, Note, WatchFault};
use newt_reply::Reply;
use newt_script::Command;
use std::alloc::AllocError;

impl<C: Card> Whole<C> {
    /// Watches the soups of a name.
    pub(crate) fn watch(&mut self, name: Name, most: u32) -> Result<Reply, AllocError>
        requires some { 1 ≤ most }
        requires few { most ≤ 64 }
        ensures { AnsweredApart C.reads (asked.Watch name most) self.old self.new result }
    {
        match self.watches.watch(name, most) {
            Ok(number) => Ok(Reply::Number(u32::from(number))),
            Err(WatchFault::Limit) => Ok(Reply::Refused(Refusal::Limit)),
            Err(WatchFault::Memory) => Err(AllocError),
        }
    }

    /// The notes of a watch, which has none afterwards.
    pub(crate) fn take_notes(&mut self, number: u8) -> Result<Reply, AllocError>
        ensures { AnsweredApart C.reads (asked.Notes number) self.old self.new result }
    {
        if !self.watches.has(number) {
            return Ok(Reply::Refused(Refusal::Watch));
        }
        Ok(Reply::Notes(self.watches.take(number)?))
    }

    /// Takes a watch away.
    pub(crate) fn unwatch(&mut self, number: u8) -> Result<Reply, AllocError>
        ensures { AnsweredApart C.reads (asked.Unwatch number) self.old self.new result }
    {
        if !self.watches.has(number) {
            return Ok(Reply::Refused(Refusal::Watch));
        }
        self.watches.unwatch(number);
        Ok(Reply::Done)
    }

    /// Asks the world a command, and tells the watches of what it has done.
    pub(crate) fn ask<H: Host>(
        &mut self,
        host: &mut H,
        command: Command,
    ) -> Result<Reply, AllocError>
        requires stands { Standing C.reads C.place C.stands H.told self.old
            (H.outside host.old) }
        requires form { has_form command ≡ true }
        requires of_world { is_plain command ≡ true }
        ensures { Applied C.reads C.place C.stands H.told command self.old self.new
            (H.outside host.old) (H.outside host.new) result }
    {
        let due = due_of(self.world.units(), &command)?;
        let reply = self.world.apply(host, command)?;
        self.tell(&due, &reply);
        Ok(reply)
    }

    /// Tells the watches what is due after a reply. It takes no memory.
    fn tell(&mut self, due: &Due, reply: &Reply)
        ensures { Tells (due_told C.soups self.old.world.units due.now (said reply.now))
            self.old self.new }
    {
        match reply {
            Reply::Refused(_) => {}
            Reply::Thrown(unit) => self.tell_halfway(due, *unit),
            other => self.tell_done(due, other),
        }
    }

    /// Tells what is due of a command that was done.
    fn tell_done(&mut self, due: &Due, reply: &Reply)
        ensures { Tells (all_due due.now (said reply.now)) self.old self.new }
    {
        match due {
            Due::Nothing => {}
            Due::Soup(unit, name) => self.tell_made(*unit, name, reply),
            Due::One(told) => self.tell_one(told),
            Due::Two(first, second) => {
                self.tell_one(first);
                self.tell_one(second);
            }
        }
    }

    /// Tells that a soup was made, whose signature is in the reply.
    fn tell_made(&mut self, unit: Unit, name: &Name, reply: &Reply)
        ensures { Tells (made unit name.now (said reply.now)) self.old self.new }
    {
        if let Reply::Number(sig) = reply {
            let note = Note {
                kind: Kind::Make,
                unit,
                soup: Sig(*sig),
                uid: Uid(0),
            };
            self.watches.note(name, note);
        }
    }

    /// Tells of the add of a move to another unit, where it was done before the device of the
    /// source failed.
    fn tell_halfway(&mut self, due: &Due, failed: Unit)
        ensures { Tells (failed_due C.soups self.old.world.units due.now failed)
            self.old self.new }
    {
        let Due::Two(first, second) = due else {
            return;
        };
        if self.is_halfway(first, second, failed) {
            self.tell_one(first);
        }
    }

    /// Whether a move to another unit has added its entry there, where the device of the source
    /// failed.
    fn is_halfway(&self, add: &Told, removal: &Told, failed: Unit) -> bool
        ensures { result ≡ is_halfway C.soups self.now.world.units add.now removal.now failed }
    {
        removal.note.unit == failed && add.note.unit != failed && self.has_added(add)
    }

    /// Whether the soup of an add has taken its id since.
    fn has_added(&self, add: &Told) -> bool
        ensures { result ≡ has_added C.soups self.now.world.units add.now }
    {
        match self.world.units().next_uid(add.note.unit, &add.name) {
            Some(next) => next != add.note.uid.0,
            None => false,
        }
    }

    /// Tells one note.
    fn tell_one(&mut self, told: &Told)
        ensures { Tells (event_of told.now ∷ []) self.old self.new }
    {
        self.watches.note(&told.name, told.note);
    }
}
