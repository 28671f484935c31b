//! A record that is being written after the others.
ghost use Rattle.std.specs.Prelude.{IsTrue, ◌≡◌, ◌≤◌, ◌<◌, ◌+◌};
ghost use Rattle.newt_journal.specs.Bank.{limit_of};

use crate::Journal;
use crate::piece::program_piece;
use newt_host::{Failed, Host};

/// A record that is being written after the others. It holds the journal until it is finished.
#[derive(Drop)]
pub struct Appending {
    pub(crate) journal: Journal,
    pub(crate) len: u32,
    pub(crate) put: u32,
    ghost fits: { journal.end + 5 + len ≤ limit_of journal.blocks journal.bank },
    ghost within: { put ≤ len },
}

impl Appending {
    ghost use Rattle.std.specs.Prelude.{OnOk, IfOk, length, false};
    ghost use Rattle.newt_host.specs.Moments.{image};
    ghost use Rattle.newt_spec_image.specs.Records.{tail};
    ghost use Rattle.newt_journal.specs.Journal.{room, Stands, reading, ReadsAs, ReadsAsEither};
    ghost use Rattle.newt_journal.specs.Appending.{IsAppendingOf};
    ghost use Rattle.newt_journal.specs.Draft.{IsBegun, IsSameRecord, HasPut, IsFinished};
    ghost use Rattle.newt_journal.specs.Draft.{outcome_of, rest_of};
    ghost use Rattle.newt_journal.specs.declared.draft.Draft.TheVariants.{Append};
    ghost use Rattle.newt_journal.specs.Calls.{Programs, writing};

    /// Begins a record of so many bytes: its length is written after a gate that stays FF.
    pub(crate) fn begin<H: Host>(
        journal: Journal,
        host: &mut H,
        len: u32,
    ) -> Result<Appending, Failed>
        requires some { 0 < len }
        requires fits { len ≤ room journal }
        requires stands { Stands H.told journal (H.outside host.old) }
        ensures begun { IfOk result (λ draft. IsBegun H.told journal len false (Append draft)
            (H.outside host.old) (H.outside host.new)) }
        ensures rest { IsTrue H.told → IfOk result (λ draft. 5 + len + rest_of (Append draft)
            ≡ length (tail (image journal.unit (H.outside host.old).now))) }
        ensures writes { Programs H.told journal.unit (writing 4 0 0)
            (ReadsAs (reading (image journal.unit (H.outside host.old).now))) result
            (H.outside host.old) (H.outside host.new) }
    {
        program_piece(host, journal.unit, journal.end + 1, &len.to_be_bytes())?;
        Ok(Appending {
            journal,
            len,
            put: 0,
        })
    }

    /// Writes more of the payload, after the gate that stays FF.
    pub(crate) fn put<H: Host>(&mut self, host: &mut H, bytes: &[u8]) -> Result<(), Failed>
        requires within { self.old.put + length bytes.now ≤ self.old.len }
        requires draft { IsAppendingOf H.told self.old (H.outside host.old) }
        ensures record_of { IsSameRecord (Append self.old) (Append self.new) }
        ensures more { OnOk result (HasPut H.told bytes.now (Append self.old) (Append self.new)
            (H.outside host.old) (H.outside host.new)) }
        ensures writes { Programs H.told self.old.journal.unit (writing (length bytes.now) 0 0)
            (ReadsAs (reading (image self.old.journal.unit (H.outside host.old).now))) result
            (H.outside host.old) (H.outside host.new) }
    {
        program_piece(
            host,
            self.journal.unit,
            self.journal.end + 5 + self.put,
            bytes,
        )?;
        self.put += bytes.len() as u32;
        Ok(())
    }

    /// Commits the record: once its payload is made sure of, its gate is opened.
    pub(crate) fn finish<H: Host>(self, host: &mut H) -> Result<Journal, Failed>
        requires whole { self.put ≡ self.len }
        requires draft { IsAppendingOf H.told self (H.outside host.old) }
        ensures finished { IfOk result (λ journal. IsFinished H.told (Append self) journal
            (H.outside host.old) (H.outside host.new)) }
        ensures writes { Programs H.told self.journal.unit (writing 1 0 2)
            (ReadsAsEither (reading (image self.journal.unit (H.outside host.old).now))
            (outcome_of (Append self) (H.outside host.old))) result
            (H.outside host.old) (H.outside host.new) }
    {
        let Appending { journal, len, .. } = self;
        let Journal {
            unit,
            blocks,
            bank,
            end,
            ..
        } = journal;
        host.sync(unit)?;
        program_piece(host, unit, end, &[0])?;
        host.sync(unit)?;
        Ok(Journal {
            unit,
            blocks,
            bank,
            end: end + 5 + len,
            version: 2,
            closed: false,
        })
    }
}
