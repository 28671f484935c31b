//! A script in memory whose replies are counted.
ghost use Rattle.std.specs.Prelude.{IsTrue};
ghost use Rattle.newt_script_session.specs.Calls.{AnswerCall, WriteCall};
ghost use Rattle.newt_script_session.specs.Causes.{HasSinkCause};
ghost use Rattle.newt_script_session.specs.Counted.{CountedRun};
ghost use Rattle.newt_script_session.specs.Counts.{lines_of_tally};
ghost use Rattle.newt_script_session.specs.Stream.{PutsText};
ghost use Rattle.newt_spec_whole.specs.Whole.{Whole};

use crate::feed::answer_text;
use crate::halt::Halt;
use crate::interpreter::Interpreter;
use crate::tally::Tally;
use crate::write::write_all;
use newt_host::Host;
use std::alloc::Global;

/// Writes all lines of a tally.
fn put_tally<H: Host>(alloc: Global, host: &mut H, tally: &Tally) -> Result<(), Halt>
    ensures puts { IsTrue H.told → PutsText result (lines_of_tally tally.now)
        (H.outside host.old).now (H.outside host.new).now }
    ensures call { WriteCall H.told HasSinkCause result
        (H.outside host.old) (H.outside host.new) }
{
    let Ok(text) = tally.lines(alloc) else {
        return Err(Halt::Memory);
    };
    if write_all(host, &text).is_err() {
        return Err(Halt::Sink);
    }
    Ok(())
}

/// Answers a script up to a line that ends it, and then writes the summary of the replies.
pub(crate) fn tally_script<H: Host, I: Interpreter>(
    alloc: Global,
    host: &mut H,
    interpreter: &mut I,
    script: &[u8],
) -> Result<(), Halt>
    requires stands { I.stands H.told interpreter.old (H.outside host.old) }
    ensures counted { IsTrue H.told → (world : Whole)
        → I.means interpreter.old (H.outside host.old) world
        → CountedRun I.step I.store_of_image script.now result world
        (H.outside host.old) (H.outside host.new) }
    ensures call { AnswerCall H.told result (H.outside host.old) (H.outside host.new) }
{
    let mut tally = Tally::new();
    answer_text(alloc, host, interpreter, &mut tally, script)?;
    put_tally(alloc, host, &tally)
}
