//! The two calls that change a device. All that this crate writes goes through them.
ghost use Rattle.std.specs.Prelude.{IsTrue, ◌+◌, ◌*◌, ◌<◌, ◌≤◌, length, IsSome};
ghost use Rattle.newt_host.specs.Moments.{image};
ghost use Rattle.newt_host.specs.Outside.{blank, IsBlank, Writes};
ghost use Rattle.newt_journal.specs.Pieces.{IsTornIn};
ghost use Rattle.newt_journal.specs.Calls.{Programs, writing};

use newt_host::{Failed, Host, Unit};

/// Erases one block.
pub(crate) fn erase_block<H: Host>(host: &mut H, unit: Unit, block: u32) -> Result<(), Failed>
    requires attached { IsSome ((H.outside host.old).card unit) }
    requires inside { block < (H.outside host.old).blocks unit }
    ensures wrote { IsTrue H.told → Writes unit (block * 4096) (blank 4096) result
        (H.outside host.old).now (H.outside host.new).now }
    // Whenever it is cut off, nothing but this block is torn.
    ensures writes { Programs H.told unit (writing 0 1 0) (IsTornIn unit (block * 4096) 4096
        (H.outside host.old).now) result (H.outside host.old) (H.outside host.new) }
{
    host.erase(unit, block)
}

/// Programs some bytes that were erased.
pub(crate) fn program_piece<H: Host>(
    host: &mut H,
    unit: Unit,
    at: u32,
    bytes: &[u8],
) -> Result<(), Failed>
    requires attached { IsSome ((H.outside host.old).card unit) }
    requires inside { at + length bytes.now ≤ (H.outside host.old).blocks unit * 4096 }
    requires blank { IsTrue H.told → IsBlank at (length bytes.now)
        (image unit (H.outside host.old).now) }
    ensures wrote { IsTrue H.told → Writes unit at bytes.now result (H.outside host.old).now
        (H.outside host.new).now }
    // Whenever it is cut off, nothing but these bytes is torn.
    ensures writes { Programs H.told unit (writing (length bytes.now) 0 0)
        (IsTornIn unit at (length bytes.now) (H.outside host.old).now) result
        (H.outside host.old) (H.outside host.new) }
{
    host.program(unit, at, bytes)
}
