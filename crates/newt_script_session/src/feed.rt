//! The lines that end in one piece of a script: the one loop over lines.
ghost use Rattle.std.specs.Prelude.{IsTrue, IfOk, OnOk, MatchOption};
ghost use Rattle.newt_script_session.specs.Answered.{Fed, Ran};
ghost use Rattle.newt_script_session.specs.Calls.{AnswerCall};
ghost use Rattle.newt_script_session.specs.Lines.{BeginsWith, HasNoEnd, ended_lines, last_line};
ghost use Rattle.newt_script_session.specs.Script.{commands_of, script_items};
ghost use Rattle.newt_spec_whole.specs.Whole.{Whole};

use crate::halt::{Flow, Halt};
use crate::interpreter::Interpreter;
use crate::sink::Sink;
use crate::turn::turn;
use memchr::memchr;
use newt_host::Host;
use std::alloc::Global;

/// The first line that ends in a text, without its end, and what follows it.
fn first_line(text: &[u8]) -> Option<(&[u8], &[u8])>
    ensures { MatchOption result (HasNoEnd text.now) (λ found.
        BeginsWith text.now found.0.now found.1.now) }
{
    let end = memchr(b'\n', text)?;
    Some((&text[..end], &text[end + 1..]))
}

/// Answers each line that ends in the piece, up to one that quits. `line` is the line begun before
/// the piece, and becomes the one begun in it.
pub(crate) fn feed<H: Host, I: Interpreter, S: Sink>(
    alloc: Global,
    host: &mut H,
    interpreter: &mut I,
    sink: &mut S,
    line: &mut Vec<u8>,
    piece: &[u8],
) -> Result<Flow, Halt>
    requires stands { I.stands H.told interpreter.old (H.outside host.old) }
    ensures stands { OnOk result (I.stands H.told interpreter.new (H.outside host.new)) }
    ensures fed { IfOk result (λ flow. Fed line.old.items piece.now flow line.new.items) }
    ensures ran { IsTrue H.told → (world : Whole)
        → I.means interpreter.old (H.outside host.old) world
        → Ran I.step S.shows I.store_of_image result world
        (I.means interpreter.new (H.outside host.new))
        (commands_of (ended_lines line.old.items piece.now)) (S.has sink.old) (S.has sink.new)
        (H.outside host.old).now (H.outside host.new).now
        (H.outside host.old).dev_faults (H.outside host.new).dev_faults }
    ensures call { AnswerCall H.told result (H.outside host.old) (H.outside host.new) }
{
    let mut rest = piece;
    while let Some((ended, more)) = first_line(rest) {
        if line.extend_from_slice(ended).is_err() {
            return Err(Halt::Memory);
        }
        match turn(alloc, host, interpreter, sink, line)? {
            Flow::Go => line.clear(),
            Flow::Quit => return Ok(Flow::Quit),
        }
        rest = more;
    }
    if line.extend_from_slice(rest).is_err() {
        return Err(Halt::Memory);
    }
    Ok(Flow::Go)
}

/// Answers what follows the last line end, where it is not empty.
pub(crate) fn finish<H: Host, I: Interpreter, S: Sink>(
    alloc: Global,
    host: &mut H,
    interpreter: &mut I,
    sink: &mut S,
    line: &[u8],
) -> Result<(), Halt>
    requires stands { I.stands H.told interpreter.old (H.outside host.old) }
    ensures stands { OnOk result (I.stands H.told interpreter.new (H.outside host.new)) }
    ensures ran { IsTrue H.told → (world : Whole)
        → I.means interpreter.old (H.outside host.old) world
        → Ran I.step S.shows I.store_of_image result world
        (I.means interpreter.new (H.outside host.new))
        (commands_of (last_line line.now)) (S.has sink.old) (S.has sink.new)
        (H.outside host.old).now (H.outside host.new).now
        (H.outside host.old).dev_faults (H.outside host.new).dev_faults }
    ensures call { AnswerCall H.told result (H.outside host.old) (H.outside host.new) }
{
    if line.is_empty() {
        return Ok(());
    }
    turn(alloc, host, interpreter, sink, line)?;
    Ok(())
}

/// Answers the lines of a whole text, up to one that quits: all of it is one piece.
pub(crate) fn answer_text<H: Host, I: Interpreter, S: Sink>(
    alloc: Global,
    host: &mut H,
    interpreter: &mut I,
    sink: &mut S,
    text: &[u8],
) -> Result<(), Halt>
    requires stands { I.stands H.told interpreter.old (H.outside host.old) }
    ensures stands { OnOk result (I.stands H.told interpreter.new (H.outside host.new)) }
    ensures ran { IsTrue H.told → (world : Whole)
        → I.means interpreter.old (H.outside host.old) world
        → Ran I.step S.shows I.store_of_image result world
        (I.means interpreter.new (H.outside host.new))
        (script_items text.now) (S.has sink.old) (S.has sink.new)
        (H.outside host.old).now (H.outside host.new).now
        (H.outside host.old).dev_faults (H.outside host.new).dev_faults }
    ensures call { AnswerCall H.told result (H.outside host.old) (H.outside host.new) }
{
    let mut line = Vec::new(alloc);
    match feed(alloc, host, interpreter, sink, &mut line, text)? {
        Flow::Go => finish(alloc, host, interpreter, sink, &line),
        Flow::Quit => Ok(()),
    }
}
