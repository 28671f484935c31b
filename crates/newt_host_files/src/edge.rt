//! The standard input and output.
ghost use Rattle.std.specs.Prelude.{◌≤◌, ◌<◌, IfOk, length};

use newt_host::Failed;
use std::io::{ErrorKind, Read, Write};

/// Takes some bytes, and tries again where a signal came between.
pub(crate) fn take<R: Read>(input: &mut R, buf: &mut [u8]) -> Result<usize, Failed>
    ensures { IfOk result (λ count. count ≤ length buf.old) }
{
    for _ in 0..u64::MAX {
        match input.read(buf) {
            Ok(moved) => return Ok(moved),
            Err(error) if error.kind() == ErrorKind::Interrupted => {}
            Err(_) => return Err(Failed),
        }
    }
    Err(Failed)
}

/// Gives some of the bytes, of which there is at least one, and tries again where a signal came
/// between. To give nothing is a fault.
pub(crate) fn give<W: Write>(output: &mut W, bytes: &[u8]) -> Result<usize, Failed>
    ensures bound { IfOk result (λ count. count ≤ length bytes.now) }
    ensures some { IfOk result (λ count. 0 < count) }
{
    for _ in 0..u64::MAX {
        match output.write(bytes) {
            Ok(0) => return Err(Failed),
            Ok(moved) => return Ok(moved),
            Err(error) if error.kind() == ErrorKind::Interrupted => {}
            Err(_) => return Err(Failed),
        }
    }
    Err(Failed)
}
