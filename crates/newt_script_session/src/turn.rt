//! One line of a script.
ghost use Rattle.std.specs.Prelude.{IsTrue, ◌≡◌, [], ◌∷◌, Ok, IfOk, OnOk};
ghost use Rattle.newt_script_session.specs.Answered.{Ran};
ghost use Rattle.newt_script_session.specs.Calls.{AnswerCall};
ghost use Rattle.newt_script_session.specs.Causes.{flow_of};
ghost use Rattle.newt_script_session.specs.Script.{commands_of, has_quit};
ghost use Rattle.newt_laws_world.specs.Worlds.{has_form};
ghost use Rattle.newt_spec_script.specs.Script.{is_quit};
ghost use Rattle.newt_spec_whole.specs.Whole.{Whole};

use crate::halt::{Flow, Halt};
use crate::interpreter::Interpreter;
use crate::sink::{Sink, put_reply};
use newt_base::Refusal;
use newt_host::Host;
use newt_reply::Reply;
use newt_script::{Command, LineFault, line};
use std::alloc::Global;

/// Whether the script goes on after a command.
fn flow_after(command: &Command) -> Flow
    ensures { result ≡ flow_of (is_quit (Ok command.now)) }
{
    match command {
        Command::Quit => Flow::Quit,
        _ => Flow::Go,
    }
}

/// Obeys a command, and hands on the reply.
fn obey<H: Host, I: Interpreter, S: Sink>(
    alloc: Global,
    host: &mut H,
    interpreter: &mut I,
    sink: &mut S,
    command: Command,
) -> Result<Flow, Halt>
    requires stands { I.stands H.told interpreter.old (H.outside host.old) }
    requires form { IsTrue (has_form command) }
    ensures stands { OnOk result (I.stands H.told interpreter.new (H.outside host.new)) }
    ensures flow { IfOk result (λ flow. flow ≡ flow_of (is_quit (Ok command))) }
    ensures ran { IsTrue H.told → (world : Whole)
        → I.means interpreter.old (H.outside host.old) world
        → Ran I.step S.shows I.store_of_image result world
        (I.means interpreter.new (H.outside host.new))
        (Ok command ∷ []) (S.has sink.old) (S.has sink.new)
        (H.outside host.old).now (H.outside host.new).now
        (H.outside host.old).dev_faults (H.outside host.new).dev_faults }
    ensures call { AnswerCall H.told result (H.outside host.old) (H.outside host.new) }
{
    let flow = flow_after(&command);
    let Ok(reply) = interpreter.apply(host, command) else {
        return Err(Halt::Memory);
    };
    put_reply(alloc, host, sink, &reply)?;
    Ok(flow)
}

/// Hands on the reply to a line that is refused.
fn refuse<H: Host, I: Interpreter, S: Sink>(
    alloc: Global,
    host: &mut H,
    interpreter: &I,
    sink: &mut S,
    refusal: Refusal,
) -> Result<Flow, Halt>
    requires stands { I.stands H.told interpreter.now (H.outside host.old) }
    ensures stands { OnOk result (I.stands H.told interpreter.now (H.outside host.new)) }
    ensures flow { IfOk result (λ flow. flow ≡ Flow.Go) }
    ensures ran { IsTrue H.told → (world : Whole)
        → I.means interpreter.now (H.outside host.old) world
        → Ran I.step S.shows I.store_of_image result world
        (I.means interpreter.now (H.outside host.new))
        (Err refusal ∷ []) (S.has sink.old) (S.has sink.new)
        (H.outside host.old).now (H.outside host.new).now
        (H.outside host.old).dev_faults (H.outside host.new).dev_faults }
    ensures call { AnswerCall H.told result (H.outside host.old) (H.outside host.new) }
{
    let reply = Reply::Refused(refusal);
    put_reply(alloc, host, sink, &reply)?;
    Ok(Flow::Go)
}

/// Answers a line, and hands on the whole reply before it ends.
pub(crate) fn turn<H: Host, I: Interpreter, S: Sink>(
    alloc: Global,
    host: &mut H,
    interpreter: &mut I,
    sink: &mut S,
    bytes: &[u8],
) -> Result<Flow, Halt>
    requires stands { I.stands H.told interpreter.old (H.outside host.old) }
    ensures stands { OnOk result (I.stands H.told interpreter.new (H.outside host.new)) }
    ensures flow { IfOk result (λ flow. flow ≡ flow_of (has_quit (bytes.now ∷ []))) }
    ensures ran { IsTrue H.told → (world : Whole)
        → I.means interpreter.old (H.outside host.old) world
        → Ran I.step S.shows I.store_of_image result world
        (I.means interpreter.new (H.outside host.new))
        (commands_of (bytes.now ∷ [])) (S.has sink.old) (S.has sink.new)
        (H.outside host.old).now (H.outside host.new).now
        (H.outside host.old).dev_faults (H.outside host.new).dev_faults }
    ensures call { AnswerCall H.told result (H.outside host.old) (H.outside host.new) }
{
    match line(alloc, bytes) {
        Ok(None) => Ok(Flow::Go),
        Ok(Some(command)) => obey(alloc, host, interpreter, sink, command),
        Err(LineFault::Refused(refusal)) => refuse(alloc, host, interpreter, sink, refusal),
        Err(LineFault::Memory) => Err(Halt::Memory),
    }
}
