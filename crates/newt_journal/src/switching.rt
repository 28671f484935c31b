//! A record that is being written alone into the other bank.
ghost use Rattle.std.specs.Prelude.{IsTrue, ◌≡◌, ◌≤◌, ◌+◌};
ghost use Rattle.newt_spec_image.specs.Records.{bank_size};

use crate::Journal;
use crate::fresh::begin_bank;
use crate::piece::program_piece;
use crate::vote::cast_votes;
use newt_host::{Failed, Host};

/// A record that is being written alone into the other bank. It holds the journal until it is
/// finished.
#[derive(Drop)]
pub struct Switching {
    pub(crate) journal: Journal,
    pub(crate) len: u32,
    pub(crate) put: u32,
    ghost fits: { 21 + len ≤ bank_size journal.blocks },
    ghost within: { put ≤ len },
}

impl Switching {
    ghost use Rattle.std.specs.Prelude.{OnOk, IfOk, length, true};
    ghost use Rattle.newt_host.specs.Moments.{image, Leaves};
    ghost use Rattle.newt_spec_image.specs.Records.{bank_blocks};
    ghost use Rattle.newt_journal.specs.Journal.{Stands, VotesAgree};
    ghost use Rattle.newt_journal.specs.Journal.{reading, ReadsAs, ReadsAsEither};
    ghost use Rattle.newt_journal.specs.Switch.{IsSwitchOf};
    ghost use Rattle.newt_journal.specs.Draft.{IsBegun, IsSameRecord, HasPut, IsFinished};
    ghost use Rattle.newt_journal.specs.Draft.{outcome_of};
    ghost use Rattle.newt_journal.specs.declared.draft.Draft.TheVariants.{Switch};
    ghost use Rattle.newt_journal.specs.Bank.{bank_number, other_bank};
    ghost use Rattle.newt_journal.specs.Turns.{InTurn};
    ghost use Rattle.newt_journal.specs.Calls.{Programs, writing};

    /// Begins the record that alone will stand in the other bank.
    pub(crate) fn begin<H: Host>(
        journal: Journal,
        host: &mut H,
        len: u32,
    ) -> Result<Switching, Failed>
        requires fits { 21 + len ≤ bank_size journal.blocks }
        requires stands { Stands H.told journal (H.outside host.old) }
        requires alike { IsTrue H.told → VotesAgree journal
            (image journal.unit (H.outside host.old).now) }
        ensures begun { IfOk result (λ draft. IsBegun H.told journal len true (Switch draft)
            (H.outside host.old) (H.outside host.new)) }
        ensures writes { Programs H.told journal.unit (writing 21 (bank_blocks journal.blocks) 1)
            (ReadsAs (reading (image journal.unit (H.outside host.old).now))) result
            (H.outside host.old) (H.outside host.new) }
    {
        begin_bank(
            host,
            journal.unit,
            journal.bank.other(),
            len,
            journal.blocks,
        )?;
        Ok(Switching {
            journal,
            len,
            put: 0,
        })
    }

    /// Writes more of the payload.
    pub(crate) fn put<H: Host>(&mut self, host: &mut H, bytes: &[u8]) -> Result<(), Failed>
        requires within { self.old.put + length bytes.now ≤ self.old.len }
        requires draft { IsSwitchOf H.told self.old (H.outside host.old) }
        ensures record_of { IsSameRecord (Switch self.old) (Switch self.new) }
        ensures more { OnOk result (HasPut H.told bytes.now (Switch self.old) (Switch self.new)
            (H.outside host.old) (H.outside host.new)) }
        ensures writes { Programs H.told self.old.journal.unit (writing (length bytes.now) 0 0)
            (ReadsAs (reading (image self.old.journal.unit (H.outside host.old).now))) result
            (H.outside host.old) (H.outside host.new) }
    {
        let start = self.journal.bank.other().start(self.journal.blocks);
        program_piece(host, self.journal.unit, start + 21 + self.put, bytes)?;
        self.put += bytes.len() as u32;
        Ok(())
    }

    /// Commits the record: the votes turn to the other bank.
    pub(crate) fn finish<H: Host>(self, host: &mut H) -> Result<Journal, Failed>
        requires whole { self.put ≡ self.len }
        requires draft { IsSwitchOf H.told self (H.outside host.old) }
        ensures finished { IfOk result (λ journal. IsFinished H.told (Switch self) journal
            (H.outside host.old) (H.outside host.new)) }
        ensures writes { Programs H.told self.journal.unit (writing 3 3 7)
            (ReadsAsEither (reading (image self.journal.unit (H.outside host.old).now))
            (outcome_of (Switch self) (H.outside host.old))) result
            (H.outside host.old) (H.outside host.new) }
        ensures in_turn { IsTrue H.told → Leaves self.journal.unit
            (InTurn (bank_number (other_bank self.journal.bank)) 0 1 2
            (image self.journal.unit (H.outside host.old).now))
            (H.outside host.old).now (H.outside host.new).now }
    {
        let Switching { journal, len, .. } = self;
        let Journal {
            unit,
            blocks,
            bank: from,
            ..
        } = journal;
        let to = from.other();
        host.sync(unit)?;
        cast_votes(host, unit, to, blocks)?;
        Ok(Journal {
            unit,
            blocks,
            bank: to,
            end: to.start(blocks) + 21 + len,
            version: 2,
            closed: false,
        })
    }
}
