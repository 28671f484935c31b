//! A unit becomes a journal.
ghost use Rattle.std.specs.Prelude.{IsTrue, ◌≡◌, ◌≤◌, OnOk};

use crate::fresh::begin_bank;
use crate::piece::program_piece;
use crate::vote::cast_votes;
use crate::{Bank, Journal};
use newt_host::{Failed, Host, Unit};

impl Journal {
    ghost use Rattle.std.specs.Prelude.{◌+◌, false, length, IfOk};
    ghost use Rattle.newt_spec_image.specs.Records.{bank_size, bank_blocks, bank_start};
    ghost use Rattle.newt_journal.specs.Journal.{Stands, unit_under, bank_of, is_closed};
    ghost use Rattle.newt_journal.specs.Pieces.{IsTornIn};
    ghost use Rattle.newt_journal.specs.Fresh.{IsFresh};
    ghost use Rattle.newt_journal.specs.declared.bank.Bank.TheVariants.{First};
    ghost use Rattle.newt_journal.specs.Calls.{Programs, writing};

    /// Makes a unit a journal of one record, in the first bank, in version 2, whatever it held
    /// before. While it runs, the other bank stays what it was.
    pub fn format<H: Host>(host: &mut H, unit: Unit, first: &[u8]) -> Result<Journal, Failed>
        requires enough { 13 ≤ (H.outside host.old).blocks unit }
        requires few { (H.outside host.old).blocks unit ≤ 4099 }
        requires fits { 21 + length first.now ≤ bank_size ((H.outside host.old).blocks unit) }
        ensures journal { IfOk result (λ journal. Stands H.told journal (H.outside host.new)
            × (unit_under journal ≡ unit) × (bank_of journal ≡ First)
            × (is_closed journal ≡ false)) }
        ensures fresh { IsTrue H.told → OnOk result
            (IsFresh ((H.outside host.old).blocks unit) first.now unit (H.outside host.new).now) }
        // Whenever it is cut off, nothing but the votes and the first bank is torn.
        ensures writes { Programs H.told unit
            (writing (24 + length first.now) (bank_blocks ((H.outside host.old).blocks unit) + 3) 9)
            (IsTornIn unit 0 (bank_start ((H.outside host.old).blocks unit) 1)
            (H.outside host.old).now) result (H.outside host.old) (H.outside host.new) }
    {
        let blocks = host.blocks(unit);
        let len = first.len() as u32;
        let start = Bank::First.start(blocks);
        host.sync(unit)?;
        begin_bank(host, unit, Bank::First, len, blocks)?;
        program_piece(host, unit, start + 21, first)?;
        host.sync(unit)?;
        cast_votes(host, unit, Bank::First, blocks)?;
        Ok(Journal {
            unit,
            blocks,
            bank: Bank::First,
            end: start + 21 + len,
            version: 2,
            closed: false,
        })
    }
}
