//! The journal of a book is opened.
ghost use Rattle.std.specs.Prelude.{IsTrue, ◌≡◌, None, IfOk, IsErrOf};
ghost use Rattle.newt_host.specs.Moments.{image};
ghost use Rattle.newt_spec_image.specs.Pages.{pages as pages_of};
ghost use Rattle.newt_journal.specs.Calls.{MayHold};
ghost use Rattle.newt_journal.specs.Journal.{Stands, unit_under};
ghost use Rattle.newt_pagelog.specs.Placed.{ReadsBook};

use newt_host::{Host, Unit};
use newt_journal::{Journal, JournalFault};
use newt_pagebook::BookFault;

/// Opens the journal of a unit on which nothing is pending. It takes no memory.
pub fn open_journal<H: Host>(host: &mut H, unit: Unit) -> Result<Journal, BookFault>
    requires may_hold { MayHold H.told unit (H.outside host.old) }
    ensures journal { IfOk result (λ journal. Stands H.told journal (H.outside host.new)
        × (unit_under journal ≡ unit)) }
    ensures not_store { IsErrOf result BookFault.NotStore → IsTrue H.told
        → pages_of (image unit (H.outside host.old).now) ≡ None }
    ensures no_other { IsErrOf result BookFault.Memory → ⊥ }
    ensures reads { ReadsBook unit result (H.outside host.old) (H.outside host.new) }
{
    match Journal::open(host, unit) {
        Ok(journal) => Ok(journal),
        Err(JournalFault::NotStore) => Err(BookFault::NotStore),
        Err(JournalFault::Device) => Err(BookFault::Device),
    }
}
