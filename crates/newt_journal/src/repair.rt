//! Votes that differ from the bank that they choose are rewritten.
ghost use Rattle.std.specs.Prelude.{IsTrue, ◌≡◌, ◌≤◌, ◌<◌, ◌*◌, if◌then◌else◌, ◌==◌, Some, OnOk};
ghost use Rattle.newt_host.specs.Moments.{image, IsDurable};
ghost use Rattle.newt_journal.specs.Bank.{bank_number, other_bank};
ghost use Rattle.newt_journal.specs.Calls.{IsAtRest, IsWithin, Programs};
ghost use Rattle.newt_journal.specs.Calls.{votes, one_vote, three_votes};
ghost use Rattle.newt_journal.specs.Turns.{IsVotedFor};
ghost use Rattle.newt_journal.specs.Repairs.{Settling, Repairs, Mends, differs, differing};
ghost use Rattle.newt_spec_image.specs.Records.{vote_of, chosen_bank};

use crate::scan::read_byte;
use crate::vote::rewrite_vote;
use crate::{Bank, Journal};
use newt_host::{BLOCK, Failed, Host, Unit};

/// Makes a block vote for a bank, unless it does already.
pub(crate) fn settle_vote<H: Host>(
    host: &mut H,
    unit: Unit,
    block: u32,
    bank: Bank,
    blocks: u32,
) -> Result<(), Failed>
    requires inside { block < blocks }
    requires rest { IsAtRest H.told unit blocks (H.outside host.old) }
    ensures settled { IsTrue H.told → OnOk result
        (vote_of block (image unit (H.outside host.new).now) ≡ bank_number bank) }
    ensures kept { IsTrue H.told → OnOk result
        (Settling block (bank_number bank) (image unit (H.outside host.old).now)
        (image unit (H.outside host.new).now)) }
    ensures durable { IsTrue H.told → OnOk result (IsDurable unit (H.outside host.new).now) }
    ensures writes { Programs H.told unit one_vote
        (Settling block (bank_number bank) (image unit (H.outside host.old).now)) result
        (H.outside host.old) (H.outside host.new) }
    // A vote that is right is read alone.
    ensures bounded { IsTrue H.told → IsWithin unit
        (votes 1 (differs (bank_number bank) block (image unit (H.outside host.old).now)))
        (H.outside host.old) (H.outside host.new) }
{
    let vote = read_byte(host, unit, block * BLOCK)?;
    if vote == bank.number() {
        return Ok(());
    }
    rewrite_vote(host, unit, block, bank, blocks)?;
    Ok(())
}

/// Of the second and the third block, the one whose vote is rewritten first: one that votes for the
/// other bank.
fn first_to_settle(third: u8, bank: Bank) -> u32
    ensures { result ≡ (if third == bank_number (other_bank bank) then 2 else 1) }
{
    if third == bank.other().number() { 2 } else { 1 }
}

/// Makes all three blocks vote for the bank that they choose.
pub(crate) fn settle_votes<H: Host>(
    host: &mut H,
    unit: Unit,
    bank: Bank,
    blocks: u32,
) -> Result<(), Failed>
    requires enough { 13 ≤ blocks }
    requires rest { IsAtRest H.told unit blocks (H.outside host.old) }
    requires voted { IsTrue H.told → chosen_bank (image unit (H.outside host.old).now)
        ≡ Some (bank_number bank) }
    ensures settled { IsTrue H.told → OnOk result (IsVotedFor (bank_number bank)
        (Repairs (bank_number bank) (image unit (H.outside host.old).now)) unit
        (H.outside host.new).now) }
    // Whenever it is cut off, the same bank is chosen, and both are as they were.
    ensures writes { Programs H.told unit three_votes
        (Repairs (bank_number bank) (image unit (H.outside host.old).now)) result
        (H.outside host.old) (H.outside host.new) }
    ensures bounded { IsTrue H.told → IsWithin unit
        (votes 4 (differing (bank_number bank) (image unit (H.outside host.old).now)))
        (H.outside host.old) (H.outside host.new) }
{
    let third = read_byte(host, unit, 2 * BLOCK)?;
    let near = first_to_settle(third, bank);
    settle_vote(host, unit, near, bank, blocks)?;
    settle_vote(host, unit, 3 - near, bank, blocks)?;
    settle_vote(host, unit, 0, bank, blocks)?;
    Ok(())
}

impl Journal {
    ghost use Rattle.newt_journal.specs.Journal.{Stands, VotesAgree, reading, unit_under, bank_of};

    /// Makes all three votes equal to the bank that they choose. Whenever it is cut off, the same
    /// bank is chosen, so that it may be begun again. A block that votes for it is left alone; of
    /// the blocks 1 and 2, one that votes for the other bank comes first, and block 0 last.
    pub fn repair<H: Host>(&mut self, host: &mut H) -> Result<(), Failed>
        requires stands { Stands H.told self.old (H.outside host.old) }
        ensures same { self.new ≡ self.old }
        ensures stands { OnOk result (Stands H.told self.new (H.outside host.new)) }
        ensures alike { IsTrue H.told → OnOk result
            (VotesAgree self.old (image (unit_under self.old) (H.outside host.new).now)) }
        ensures reads { IsTrue H.told → OnOk result
            (reading (image (unit_under self.old) (H.outside host.new).now)
            ≡ reading (image (unit_under self.old) (H.outside host.old).now)) }
        ensures writes { Programs H.told (unit_under self.old) three_votes
            (Mends (bank_number (bank_of self.old))
            (image (unit_under self.old) (H.outside host.old).now))
            result (H.outside host.old) (H.outside host.new) }
        // No more votes are rewritten than there are wrong ones.
        ensures bounded { IsTrue H.told → IsWithin (unit_under self.old)
            (votes 4 (differing (bank_number (bank_of self.old))
            (image (unit_under self.old) (H.outside host.old).now)))
            (H.outside host.old) (H.outside host.new) }
    {
        settle_votes(host, self.unit, self.bank, self.blocks)?;
        Ok(())
    }
}
