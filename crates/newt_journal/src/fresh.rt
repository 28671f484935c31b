//! A bank is begun anew.
ghost use Rattle.std.specs.Prelude.{IsTrue, ◌≤◌, ◌+◌, ◌-◌, OnOk};
ghost use Rattle.newt_host.specs.Moments.{image, changes, SameOutside};
ghost use Rattle.newt_spec_image.specs.Records.{bank_size, bank_blocks};
ghost use Rattle.newt_journal.specs.Bank.{start_of};
ghost use Rattle.newt_journal.specs.Fresh.{lead, FilledBy};
ghost use Rattle.newt_journal.specs.Calls.{IsAtRest, Programs, writing};

use crate::Bank;
use crate::erase::erase_blocks;
use crate::piece::program_piece;
use newt_host::{Failed, Host, Unit};

/// The header of a bank as it is written, with version 2, and the open gate of its first record.
pub(crate) const LEAD: [u8; 17] = *b"NSTORE\x00\x02\x00\x00\x00\x00\x00\x00\x00\x00\x00";

/// The header of a bank of version 1.
pub(crate) const OLD_HEADER: [u8; 16] = *b"NSTORE\x00\x01\x00\x00\x00\x00\x00\x00\x00\x00";

/// Erases a bank and begins its one record, of so many bytes.
pub(crate) fn begin_bank<H: Host>(
    host: &mut H,
    unit: Unit,
    bank: Bank,
    len: u32,
    blocks: u32,
) -> Result<(), Failed>
    requires enough { 13 ≤ blocks }
    requires fits { 21 + len ≤ bank_size blocks }
    requires rest { IsAtRest H.told unit blocks (H.outside host.old) }
    ensures begun { IsTrue H.told → OnOk result
        (FilledBy (start_of blocks bank) (bank_size blocks) (image unit (H.outside host.old).now)
        (lead len) (bank_size blocks - 21) (changes unit (H.outside host.new).now)) }
    // Whenever it is cut off, all but this bank is as it was.
    ensures writes { Programs H.told unit (writing 21 (bank_blocks blocks) 1)
        (SameOutside (start_of blocks bank) (bank_size blocks)
        (image unit (H.outside host.old).now)) result
        (H.outside host.old) (H.outside host.new) }
{
    let start = bank.start(blocks);
    erase_blocks(
        host,
        unit,
        bank.first_block(blocks),
        Bank::size_in_blocks(blocks),
        blocks,
    )?;
    host.sync(unit)?;
    program_piece(host, unit, start, &LEAD)?;
    program_piece(host, unit, start + 17, &len.to_be_bytes())?;
    Ok(())
}
