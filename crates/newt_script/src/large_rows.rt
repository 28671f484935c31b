//! The rows of the table of commands for the bytes of a large binary.
ghost use Rattle.std.specs.Prelude.{◌≡◌, ◌≢◌, codes};
ghost use Rattle.newt_script.specs.Rows.{row_reading};

use crate::fault::LineFault;
use crate::graphs::last_bytes;
use newt_script_words::Words;
use newt_spec_world::Command;
use std::alloc::Global;

/// `vread U S UID PATH AT LEN`
#[tactic(auto, using(crate::proofs::LargeRows::row_vread))]
pub(crate) fn vread(alloc: Global, words: &mut Words) -> Result<Command, LineFault>
    ensures { result ≢ Err LineFault.Memory → result ≡ row_reading (codes "vread") words.old }
{
    let (unit, name, uid) = words.entry(alloc)?;
    let path = words.path(alloc)?;
    let at = words.number()?;
    let length = words.length()?;
    words.end()?;
    Ok(Command::Vread(unit, name, uid, path, at, length))
}

/// `vwrite U S UID PATH AT HEX`
#[tactic(auto, using(crate::proofs::LargeRows::row_vwrite))]
pub(crate) fn vwrite(alloc: Global, words: &mut Words) -> Result<Command, LineFault>
    ensures { result ≢ Err LineFault.Memory → result ≡ row_reading (codes "vwrite") words.old }
{
    let (unit, name, uid) = words.entry(alloc)?;
    let path = words.path(alloc)?;
    let at = words.number()?;
    Ok(Command::Vwrite(unit, name, uid, path, at, last_bytes(alloc, words)?))
}
