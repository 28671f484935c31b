//! A batch is committed: appended where the bank has room and is not closed, and else written with
//! all pages into the other bank.
ghost use Rattle.std.specs.Prelude.{◌≡◌, ◌≤◌, OnOk};
ghost use Rattle.std.specs.FinSet as set;
ghost use Rattle.newt_spec_image.specs.Pages.{after as pages_after};
ghost use Rattle.newt_journal.specs.Journal.{room, unit_under, blocks_under};
ghost use Rattle.newt_pagebook.specs.Batch.{IsBatch};
ghost use Rattle.newt_pagebook.specs.Book.{changed_numbers};
ghost use Rattle.newt_pagelog.specs.Commits.{AppendsWhereOpen, Commits, append_work, commit_work};
ghost use Rattle.newt_pagelog.specs.Commits.{switch_work};
ghost use Rattle.newt_pagelog.specs.Kept.{AreSound, map_of, needed, numbers_in, payload_bytes};
ghost use Rattle.newt_pageplain.specs.Plain.{IsReadyFor};

use crate::apply::{Kept, apply};
use crate::write::replace_all;
use newt_host::{Failed, Host};
use newt_journal::Journal;
use newt_pagebook::Batch;
use newt_pagelog::{append_batch, has_room};

/// Appends a batch, and then applies it to the pages in memory.
fn commit_after<H: Host>(
    journal: Journal,
    host: &mut H,
    pages: &mut Kept,
    batch: &Batch,
) -> Result<Journal, Failed>
    requires ready { IsReadyFor H.told batch.now journal pages.old (H.outside host.old) }
    requires batch { IsBatch batch.now }
    requires fits { payload_bytes (needed pages.old.entries batch.now) ≤ room journal }
    ensures commits { Commits H.told journal (append_work batch.now) batch.now result
        (H.outside host.old) (H.outside host.new) }
    ensures pages { OnOk result (map_of pages.new.entries
        ≡ pages_after batch.now (map_of pages.old.entries)) }
    ensures sound { AreSound pages.new.entries }
{
    let journal = append_batch(journal, host, pages, batch)?;
    apply(pages, batch);
    Ok(journal)
}

/// Applies a batch to the pages in memory, and then writes all of them into the other bank.
fn commit_beside<H: Host>(
    journal: Journal,
    host: &mut H,
    pages: &mut Kept,
    batch: &Batch,
) -> Result<Journal, Failed>
    requires ready { IsReadyFor H.told batch.now journal pages.old (H.outside host.old) }
    requires batch { IsBatch batch.now }
    ensures commits { Commits H.told journal (switch_work (blocks_under journal)
        (set.len (changed_numbers batch.now (numbers_in pages.old.entries)))) batch.now result
        (H.outside host.old) (H.outside host.new) }
    ensures pages { map_of pages.new.entries ≡ pages_after batch.now (map_of pages.old.entries) }
    ensures sound { AreSound pages.new.entries }
{
    apply(pages, batch);
    let journal = replace_all(journal, host, pages)?;
    Ok(journal)
}

/// Commits a batch after which no more pages are live than the unit takes.
pub(crate) fn commit_with<H: Host>(
    journal: Journal,
    host: &mut H,
    pages: &mut Kept,
    batch: &Batch,
) -> Result<Journal, Failed>
    requires ready { IsReadyFor H.told batch.now journal pages.old (H.outside host.old) }
    ensures commits { Commits H.told journal (commit_work (blocks_under journal) batch.now
        (set.len (changed_numbers batch.now (numbers_in pages.old.entries)))) batch.now result
        (H.outside host.old) (H.outside host.new) }
    ensures pages { OnOk result (map_of pages.new.entries
        ≡ pages_after batch.now (map_of pages.old.entries)) }
    ensures sound { AreSound pages.new.entries }
    ensures appends { AppendsWhereOpen H.told (unit_under journal) batch.now
        (H.outside host.old) (H.outside host.new) }
{
    if has_room(&journal, pages, batch) {
        commit_after(journal, host, pages, batch)
    } else {
        commit_beside(journal, host, pages, batch)
    }
}
