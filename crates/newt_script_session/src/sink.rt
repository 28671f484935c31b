//! Where the replies to a script go.
ghost use Rattle.std.specs.Prelude.{IsTrue, ◌++◌, ℕ, Bool, List, [], ◌∷◌, OnOk, true, false};
ghost use Rattle.newt_reply.specs.Said.{said};
ghost use Rattle.newt_spec_world.specs.Reply.{reply_text};
ghost use Rattle.newt_script_session.specs.Calls.{OutputFailed, WriteCall};
ghost use Rattle.newt_script_session.specs.Causes.{HasSinkCause};
ghost use Rattle.newt_script_session.specs.Stream.{PutsText, put_out};

use crate::halt::Halt;
use crate::write::write_all;
use newt_host::{Failed, Host};
use newt_reply::{Reply, write_reply};
use std::alloc::Global;

/// What takes the replies to a script, one after another.
pub(crate) trait Sink: Sized {
    /// It puts out each reply that it takes, or keeps them all to itself.
    ghost shows: { Bool };

    /// It has taken replies with these texts.
    ghost has: { Self → List (List ℕ) → Type 0 };

    /// Takes the text of a reply.
    fn take<H: Host>(&mut self, host: &mut H, text: &[u8]) -> Result<(), Failed>
        ensures took { OnOk result ((texts : List (List ℕ)) → has self.old texts
            → has self.new (texts ++ text.now ∷ [])) }
        ensures puts { IsTrue H.told
            → PutsText result (put_out shows text.now) (H.outside host.old).now
            (H.outside host.new).now }
        ensures call { WriteCall H.told OutputFailed result
            (H.outside host.old) (H.outside host.new) };
}

/// The output of the host.
#[derive(Drop)]
pub(crate) struct Output;

impl Sink for Output {
    ghost shows = { true };

    ghost has = { λ output texts. Unit {0} };

    fn take<H: Host>(&mut self, host: &mut H, text: &[u8]) -> Result<(), Failed> {
        write_all(host, text)
    }
}

/// Hands a reply to the sink.
pub(crate) fn put_reply<H: Host, S: Sink>(
    alloc: Global,
    host: &mut H,
    sink: &mut S,
    reply: &Reply,
) -> Result<(), Halt>
    ensures took { OnOk result ((texts : List (List ℕ)) → S.has sink.old texts
        → S.has sink.new (texts ++ reply_text (said reply.now) ∷ [])) }
    ensures puts { IsTrue H.told → PutsText result (put_out S.shows (reply_text (said reply.now)))
        (H.outside host.old).now (H.outside host.new).now }
    ensures call { WriteCall H.told HasSinkCause result
        (H.outside host.old) (H.outside host.new) }
{
    let Ok(text) = write_reply(alloc, reply) else {
        return Err(Halt::Memory);
    };
    if sink.take(host, &text).is_err() {
        return Err(Halt::Sink);
    }
    Ok(())
}
