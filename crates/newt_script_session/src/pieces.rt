//! A script from the input to the output.
ghost use Rattle.std.specs.Prelude.{IsTrue, ◌≡◌, ◌<◌, ◌≤◌, [], take, length, IfOk, OnErr};
ghost use Rattle.std.specs.Prelude.{vec_len};
ghost use Rattle.newt_host.specs.Outside.{Takes};
ghost use Rattle.newt_script_session.specs.Calls.{ReadCall, RunCall};
ghost use Rattle.newt_script_session.specs.Session.{Session};
ghost use Rattle.newt_spec_whole.specs.Whole.{Whole};

use crate::feed::{feed, finish};
use crate::halt::{Flow, Halt};
use crate::interpreter::Interpreter;
use crate::sink::Output;
use newt_host::Host;
use std::alloc::{AllocError, Global};

/// The most bytes that are read at once.
const PIECE: usize = 65536;

/// Moves the next bytes of the input to the front of the buffer, at most `most`, and answers how
/// many. It moves none only at the end of the input, or where none are asked for.
pub fn read_piece<H: Host>(host: &mut H, buffer: &mut [u8], most: usize) -> Result<usize, Halt>
    requires { most ≤ length buffer.old }
    ensures within { IfOk result (λ n. n ≤ most) }
    ensures took { IsTrue H.told → IfOk result (λ n.
        Takes (take n buffer.new) (H.outside host.old) (H.outside host.new)) }
    ensures end { IsTrue H.told
        → IfOk result (λ n. n ≡ 0 → 0 < most → (H.outside host.old).input ≡ []) }
    ensures failed { OnErr result (((H.outside host.new).input ≡ (H.outside host.old).input)
        × ((H.outside host.new).now ≡ (H.outside host.old).now)) }
    ensures call { ReadCall H.told result (H.outside host.old) (H.outside host.new) }
{
    match host.read_in(&mut buffer[..most]) {
        Ok(moved) => Ok(moved),
        Err(_) => Err(Halt::Source),
    }
}

/// Reads a script and answers its lines as they come, up to one that quits. The line is empty at
/// first.
fn answer_pieces<H: Host, I: Interpreter>(
    alloc: Global,
    host: &mut H,
    interpreter: &mut I,
    limit: usize,
    line: &mut Vec<u8>,
    buffer: &mut [u8],
) -> Result<(), Halt>
    requires empty { line.old.items ≡ [] }
    requires room { 0 < length buffer.old }
    requires stands { I.stands H.told interpreter.old (H.outside host.old) }
    ensures session { IsTrue H.told → (world : Whole)
        → I.means interpreter.old (H.outside host.old) world
        → Session I.step I.store_of_image limit result world
        (H.outside host.old) (H.outside host.new) }
    ensures call { RunCall result (H.outside host.old) (H.outside host.new) }
{
    let mut taken = 0;
    'pieces: loop {
        let most = buffer.len().min((limit - taken).max(1));
        let moved = read_piece(host, buffer, most)?;
        if moved == 0 {
            break;
        }
        if taken == limit {
            return Err(Halt::TooLong);
        }
        match feed(
            alloc,
            host,
            interpreter,
            &mut Output,
            line,
            &buffer[..moved],
        )? {
            Flow::Go => {}
            Flow::Quit => return Ok(()),
        }
        taken += moved;
    }
    finish(alloc, host, interpreter, &mut Output, line)
}

/// A buffer of 65,536 bytes for the pieces of the input.
pub fn piece_buffer(alloc: Global) -> Result<Vec<u8>, AllocError>
    ensures { IfOk result (λ buffer. vec_len buffer ≡ 65_536) }
{
    vec![in alloc; 0u8; PIECE]
}

/// Reads a script of at most `limit` bytes, and answers its lines as they come, up to one that
/// quits.
pub(crate) fn run_script<H: Host, I: Interpreter>(
    alloc: Global,
    host: &mut H,
    interpreter: &mut I,
    limit: usize,
) -> Result<(), Halt>
    requires stands { I.stands H.told interpreter.old (H.outside host.old) }
    ensures session { IsTrue H.told → (world : Whole)
        → I.means interpreter.old (H.outside host.old) world
        → Session I.step I.store_of_image limit result world
        (H.outside host.old) (H.outside host.new) }
    ensures call { RunCall result (H.outside host.old) (H.outside host.new) }
{
    let Ok(mut buffer) = piece_buffer(alloc) else {
        return Err(Halt::Memory);
    };
    let mut line = Vec::new(alloc);
    answer_pieces(alloc, host, interpreter, limit, &mut line, &mut buffer)
}
