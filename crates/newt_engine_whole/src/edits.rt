//! Working copies apart from the store: they are shown, edited and discarded.
ghost use Rattle.std.specs.Prelude.{◌≡◌, IsSome, MatchBool, nat_lt, option_map, slice_set};
ghost use Rattle.newt_base.specs.declared.Refusal.TheVariants.{Size};
ghost use Rattle.newt_reply.specs.Said.{said};
ghost use Rattle.newt_spec_store.specs.Cost.{skeleton_length};
ghost use Rattle.newt_spec_world.specs.Reply as spec;
ghost use Rattle.newt_work.specs.Work.{copy_at, edited};
ghost use Rattle.newt_spec_world.specs.declared.command.Command.TheVariants as asked;
ghost use Rattle.newt_engine_whole.specs.Calls.{AnsweredApart};

use crate::whole::Whole;
use newt_base::Refusal;
use newt_engine_card::Card;
use newt_graph::Graph;
use newt_nsof_write::skeleton_len;
use newt_path::{Path, SetFault, set_at};
use newt_reply::Reply;
use std::alloc::AllocError;

/// The longest flat text of an entry's skeleton, in bytes.
const MOST_TEXT: u64 = 64_000;

impl<C: Card> Whole<C> {
    /// The draft of a copy.
    pub(crate) fn draft(&mut self, number: u8) -> Result<Reply, AllocError>
        ensures { AnsweredApart C.reads (asked.Draft number) self.old self.new result }
    {
        match self.works.at(number) {
            Some(work) => Ok(Reply::Literal(work.draft().copy()?)),
            None => Ok(Reply::Refused(Refusal::Copy)),
        }
    }

    /// Puts a value at a path of a copy's draft.
    pub(crate) fn edit(
        &mut self,
        number: u8,
        path: &Path,
        value: &Graph,
    ) -> Result<Reply, AllocError>
        ensures { AnsweredApart C.reads (asked.Edit number path.now value.now)
            self.old self.new result }
    {
        let alloc = self.world.units().alloc();
        let Some(work) = self.works.at(number) else {
            return Ok(Reply::Refused(Refusal::Copy));
        };
        match set_at(alloc, work.draft(), path, value) {
            Ok(draft) => Ok(self.put_draft(number, draft)),
            Err(SetFault::NoPath) => Ok(Reply::Refused(Refusal::Path)),
            Err(SetFault::Limit) => Ok(Reply::Refused(Refusal::Limit)),
            Err(SetFault::Memory) => Err(AllocError),
        }
    }

    /// Takes another draft, unless its skeleton is too large.
    fn put_draft(&mut self, number: u8, draft: Graph) -> Reply
        requires { IsSome (copy_at number self.old.works) }
        ensures world { self.new.world ≡ self.old.world }
        ensures watches { self.new.watches ≡ self.old.watches }
        ensures put { MatchBool (nat_lt 64_000 (skeleton_length draft))
            ((said result ≡ spec.refused Size) × (self.new.works ≡ self.old.works))
            ((said result ≡ spec.done) × (self.new.works ≡ slice_set self.old.works number
            (option_map (edited draft) (copy_at number self.old.works)))) }
    {
        if skeleton_len(&draft) > MOST_TEXT {
            return Reply::Refused(Refusal::Size);
        }
        self.works.redraft(number, draft);
        Reply::Done
    }

    /// Discards a copy.
    pub(crate) fn discard(&mut self, number: u8) -> Result<Reply, AllocError>
        ensures { AnsweredApart C.reads (asked.Discard number) self.old self.new result }
    {
        if self.works.at(number).is_none() {
            return Ok(Reply::Refused(Refusal::Copy));
        }
        self.works.discard(number);
        Ok(Reply::Done)
    }
}
