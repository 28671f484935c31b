//! The input and the output.
ghost use Rattle.std.specs.Prelude.{◌≡◌, ◌+◌, ◌≤◌, ◌∷◌, None, length, IsTrue, OnOk, OnErr};
ghost use Rattle.std.specs.Prelude.{vec_capacity};
ghost use Rattle.newt_host.specs.Moments.{Took};
ghost use Rattle.newt_memhost.specs.Calls.{HasRoomFor, Keeps, Prints};
ghost use Rattle.newt_memhost.specs.Log.{HasRoom, NoSmaller, SamePast, now_of};

use crate::happened::Happened;
use crate::log::Log;
use newt_host::Failed;

/// Makes room for so many entries, and for so many bytes in the log and the output, and answers
/// whether there is that room.
pub(crate) fn reserve(output: &mut Vec<u8>, log: &mut Log, entries: usize, bytes: usize) -> bool
    ensures same_output { output.new.items ≡ output.old.items }
    ensures past { SamePast log.old log.new }
    ensures more { vec_capacity output.old ≤ vec_capacity output.new }
    ensures more_log { NoSmaller log.old log.new }
    ensures room { IsTrue result → HasRoomFor entries bytes output.new log.new }
    ensures there { HasRoomFor entries bytes output.old log.old → IsTrue result }
{
    output.reserve(bytes).is_ok() && log.reserve(entries, bytes)
}

/// Keeps a call that takes a piece of the input, or that fails.
pub(crate) fn take(log: &mut Log, waiting: usize, fails: bool, piece: &[u8]) -> Result<(), Failed>
    requires { HasRoom waiting 0 log.old }
    ensures took { OnOk result (now_of log.new ≡ Took piece.now ∷ now_of log.old) }
    ensures same { OnErr result (now_of log.new ≡ now_of log.old) }
    ensures kept { Keeps waiting (length piece.now) None fails
        (HasRoom (waiting + 1) (length piece.now) log.old) result log.old log.new }
{
    if !log.reserve(waiting + 1, piece.len()) {
        return Err(Failed);
    }
    if fails {
        log.add(Happened::Take(None), &[]);
        return Err(Failed);
    }
    log.add(Happened::Take(Some(piece.len())), piece);
    Ok(())
}

/// Appends a piece to the output; where the call fails, only keeps the call.
pub(crate) fn print(
    output: &mut Vec<u8>,
    log: &mut Log,
    waiting: usize,
    fails: bool,
    piece: &[u8],
) -> Result<(), Failed>
    requires { HasRoom waiting 0 log.old }
    ensures { Prints waiting fails piece.now result output.old output.new log.old log.new }
{
    if !reserve(output, log, waiting + 1, piece.len()) {
        return Err(Failed);
    }
    if fails {
        log.add(Happened::Print(0), &[]);
        return Err(Failed);
    }
    log.add(Happened::Print(piece.len()), piece);
    let _appended = output.extend_from_slice(piece);
    Ok(())
}
