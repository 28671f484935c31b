//! Working copies and the entries that they are of: they are opened, saved and reverted.
ghost use Rattle.std.specs.Prelude.{◌≡◌, true, IsTrue, IsSome, IfOk, [], ◌∷◌};
ghost use Rattle.newt_host.specs.Outside.{Outside};
ghost use Rattle.newt_reply.specs.Said.{said};
ghost use Rattle.newt_spec_whole.specs.Whole as plain;
ghost use Rattle.newt_spec_world.specs.declared.command.Command.TheVariants as asked;
ghost use Rattle.newt_work.specs.Work.{copy_at, opened};
ghost use Rattle.newt_engine_whole.specs.Calls.{Applied, AppliedRest};
ghost use Rattle.newt_engine_whole.specs.Copies.{FindsLiving, IsRead, PutsCopy, saved_event};
ghost use Rattle.newt_engine_whole.specs.Standing.{Means, Standing};
ghost use Rattle.newt_engine_whole.specs.Told.{Tells};

use crate::whole::Whole;
use newt_base::{Name, Refusal, Sig, Uid};
use newt_engine_card::Card;
use newt_engine_commands::alias;
use newt_entries_alias::Alias;
use newt_graph::Graph;
use newt_host::{Host, Unit};
use newt_notify::{Kind, Note};
use newt_reply::Reply;
use newt_script::Command;
use newt_store_change::StoreFault;
use newt_work::WorkFault;
use std::alloc::AllocError;

/// Where the entry of a copy is: its unit, its soup by name and by signature, and its id.
#[derive(Drop)]
struct Place {
    unit: Unit,
    name: Name,
    soup: Sig,
    uid: Uid,
}

impl<C: Card> Whole<C> {
    /// Opens a copy of an entry as it is.
    pub(crate) fn open<H: Host>(
        &mut self,
        host: &mut H,
        unit: Unit,
        name: Name,
        uid: Uid,
    ) -> Result<Reply, AllocError>
        requires stands { Standing C.reads C.place C.stands H.told self.old
            (H.outside host.old) }
        ensures { Applied C.reads C.place C.stands H.told (asked.Open unit name uid)
            self.old self.new (H.outside host.old) (H.outside host.new) result }
    {
        let (store, soup) = match alias(self.world.units(), unit, &name, uid) {
            Ok(found) => found,
            Err(fault) => match fault {
                StoreFault::Refused(refusal) => return Ok(Reply::Refused(refusal)),
                StoreFault::Stop(_) => return Err(AllocError),
            },
        };
        let reply = self.world.apply(host, Command::Get(unit, name, uid))?;
        match reply {
            Reply::Timed(time, graph) => self.open_at(store, soup, uid, time, graph),
            other => Ok(other),
        }
    }

    /// Opens a copy of this state of an entry.
    fn open_at(
        &mut self,
        store: Sig,
        soup: Sig,
        uid: Uid,
        time: u32,
        graph: Graph,
    ) -> Result<Reply, AllocError>
        ensures world { self.new.world ≡ self.old.world }
        ensures watches { self.new.watches ≡ self.old.watches }
        ensures put { IfOk result (λ it. PutsCopy self.old.works self.new.works
            (opened store soup uid time graph) (said it)) }
    {
        match self.works.open(store, soup, uid, time, graph) {
            Ok(number) => Ok(Reply::Number(u32::from(number))),
            Err(WorkFault::Limit) => Ok(Reply::Refused(Refusal::Limit)),
            Err(WorkFault::Memory) => Err(AllocError),
        }
    }

    /// Where the entry of a copy is, or why it is nowhere: there is no such copy, or its entry is
    /// in no mounted store.
    fn living(&self, number: u8) -> Result<Result<Place, Refusal>, AllocError>
        ensures found { (outside : Outside) (h : plain.Whole)
            → Standing C.reads C.place C.stands true self.now outside
            → Means C.reads self.now outside h → IfOk result (λ found. FindsLiving h number found) }
        ensures there { IfOk result (λ found. IfOk found
            (λ _. IsSome (copy_at number self.now.works))) }
    {
        let Some(work) = self.works.at(number) else {
            return Ok(Err(Refusal::Copy));
        };
        let (store, soup, uid) = work.alias();
        match self.world.units().find_alias(Alias { store, soup, uid })? {
            Some(found) => Ok(Ok(Place {
                unit: found.0,
                name: found.1,
                soup,
                uid: found.2,
            })),
            None => Ok(Err(Refusal::Entry)),
        }
    }

    /// Gives the entry the draft of its copy, where it is as the copy's base.
    pub(crate) fn save<H: Host>(&mut self, host: &mut H, number: u8) -> Result<Reply, AllocError>
        requires stands { Standing C.reads C.place C.stands H.told self.old
            (H.outside host.old) }
        ensures { Applied C.reads C.place C.stands H.told (asked.Save number)
            self.old self.new (H.outside host.old) (H.outside host.new) result }
    {
        let place = match self.living(number)? {
            Ok(place) => place,
            Err(refusal) => return Ok(Reply::Refused(refusal)),
        };
        let name = place.name.copy()?;
        let read = Command::Get(place.unit, name, place.uid);
        let reply = self.world.apply(host, read)?;
        match reply {
            Reply::Timed(time, graph) => self.save_over(host, number, &place, time, &graph),
            other => Ok(other),
        }
    }

    /// The same over this state of the entry. A copy of the draft is given to the world, and the
    /// draft is then the new base, so that nothing wants memory once the world has answered.
    fn save_over<H: Host>(
        &mut self,
        host: &mut H,
        number: u8,
        place: &Place,
        time: u32,
        graph: &Graph,
    ) -> Result<Reply, AllocError>
        requires stands { Standing C.reads C.place C.stands H.told self.old
            (H.outside host.old) }
        requires there { IsSome (copy_at number self.old.works) }
        requires read { IsTrue H.told → (h : plain.Whole)
            → Means C.reads self.old (H.outside host.old) h
            → IsRead h number place.now time graph.now }
        ensures { AppliedRest C.reads C.place C.stands H.told (asked.Save number)
            self.old self.new (H.outside host.old) (H.outside host.new) result }
    {
        let Some(work) = self.works.at(number) else {
            return Ok(Reply::Refused(Refusal::Copy));
        };
        if !work.based(time, graph) {
            return Ok(Reply::Changed(time));
        }
        // (used by the proof alone: what a type says of a value is known where the value is read;
        // here that the draft is within the limits, as `change` requires)
        let _root = work.draft().root();
        let draft = work.draft().copy()?;
        let name = place.name.copy()?;
        let change = Command::Change(place.unit, name, place.uid, draft);
        let reply = self.world.apply(host, change)?;
        match reply {
            Reply::Done => {
                self.works
                    .rebase_to_draft(number, self.world.units().minute());
                self.tell_saved(place);
                Ok(Reply::Done)
            }
            other => Ok(other),
        }
    }

    /// Tells the watches that the entry was changed.
    fn tell_saved(&mut self, place: &Place)
        ensures { Tells (saved_event place.now ∷ []) self.old self.new }
    {
        let note = Note {
            kind: Kind::Change,
            unit: place.unit,
            soup: place.soup,
            uid: place.uid,
        };
        self.watches.note(&place.name, note);
    }

    /// Begins a copy anew from its entry as it is.
    pub(crate) fn revert<H: Host>(&mut self, host: &mut H, number: u8) -> Result<Reply, AllocError>
        requires stands { Standing C.reads C.place C.stands H.told self.old
            (H.outside host.old) }
        ensures { Applied C.reads C.place C.stands H.told (asked.Revert number)
            self.old self.new (H.outside host.old) (H.outside host.new) result }
    {
        let place = match self.living(number)? {
            Ok(place) => place,
            Err(refusal) => return Ok(Reply::Refused(refusal)),
        };
        let read = Command::Get(place.unit, place.name, place.uid);
        let reply = self.world.apply(host, read)?;
        match reply {
            Reply::Timed(time, graph) => {
                self.works.rebase(number, time, graph);
                Ok(Reply::Done)
            }
            other => Ok(other),
        }
    }
}
