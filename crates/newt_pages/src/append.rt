//! A batch is committed after the other records.
ghost use Rattle.std.specs.Prelude.{IsTrue, ℕ, List, ◌≡◌, ◌≤◌, ◌+◌, ◌*◌, IfOk};
ghost use Rattle.newt_host.specs.Moments.{image};
ghost use Rattle.newt_journal.specs.Journal.{room, unit_under};
ghost use Rattle.newt_pagebook.specs.Batch.{IsBatch};
ghost use Rattle.newt_pagelog.specs.Commits.{Commits, append_work};
ghost use Rattle.newt_pagelog.specs.Kept.{needed, payload_bytes};
ghost use Rattle.newt_pages.specs.Disk.{EachIsPageAtPlace, IsReadyFor, TakesOver};

use crate::table::{FIRST_PAGE, apply};
use newt_host::{Failed, Host};
use newt_journal::Journal;
use newt_pagebook::Batch;
use newt_pagelog::{Table, append_batch};

/// Appends a batch, and then notes where its pages stand.
pub(crate) fn commit_after<H: Host>(
    journal: Journal,
    host: &mut H,
    places: &mut Table<u32>,
    batch: &Batch,
) -> Result<Journal, Failed>
    requires ready { IsReadyFor H.told batch.now journal places.old (H.outside host.old) }
    requires batch { IsBatch batch.now }
    requires fits { payload_bytes (needed places.old.entries batch.now) ≤ room journal }
    ensures commits { Commits H.told journal (append_work batch.now) batch.now result
        (H.outside host.old) (H.outside host.new) }
    ensures takes { TakesOver H.told batch.now places.old.entries places.new.entries result
        (H.outside host.new) }
    // what was cached of the records before is still what stands there
    ensures caches { IsTrue H.told → IfOk result (λ after. (cached : List (ℕ × List ℕ))
        → EachIsPageAtPlace journal (image (unit_under journal) (H.outside host.old).now) cached
        → EachIsPageAtPlace after (image (unit_under journal) (H.outside host.new).now) cached) }
{
    let first = journal.end() + FIRST_PAGE;
    let journal = append_batch(journal, host, places, batch)?;
    apply(places, batch, first);
    Ok(journal)
}
