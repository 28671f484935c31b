//! A batch is committed: appended where the bank has room and is not closed, and else written with
//! all pages into the other bank.
ghost use Rattle.std.specs.Prelude.{IsTrue, ◌≡◌, IfOk};
ghost use Rattle.std.specs.FinSet as set;
ghost use Rattle.newt_host.specs.Moments.{image};
ghost use Rattle.newt_journal.specs.Journal.{unit_under, blocks_under};
ghost use Rattle.newt_pagebook.specs.Batch.{IsBatch};
ghost use Rattle.newt_pagebook.specs.Book.{changed_numbers};
ghost use Rattle.newt_pagelog.specs.Commits.{AppendsWhereOpen, Commits, commit_work, switch_work};
ghost use Rattle.newt_pagelog.specs.Kept.{numbers_in};
ghost use Rattle.newt_pages.specs.Disk.{EachIsPageAtPlace, IsReadyFor, TakesOver};

use crate::append::commit_after;
use crate::hand::{Cache, forget_all};
use crate::switch::replace_all;
use crate::table::{FIRST_PAGE, bound_of, move_pages, place_puts, remove_numbers, remove_puts};
use newt_host::{Failed, Host};
use newt_journal::Journal;
use newt_pagebook::Batch;
use newt_pagelog::{Table, has_room};

/// Writes all pages after a batch into the other bank, and then notes where they stand.
fn commit_beside<H: Host>(
    journal: Journal,
    host: &mut H,
    places: &mut Table<u32>,
    batch: &Batch,
    live: u16,
) -> Result<Journal, Failed>
    requires ready { IsReadyFor H.told batch.now journal places.old (H.outside host.old) }
    requires batch { IsBatch batch.now }
    requires live { live ≡ set.len (changed_numbers batch.now (numbers_in places.old.entries)) }
    ensures commits { Commits H.told journal (switch_work (blocks_under journal) live) batch.now
        result (H.outside host.old) (H.outside host.new) }
    ensures takes { TakesOver H.told batch.now places.old.entries places.new.entries result
        (H.outside host.new) }
{
    remove_puts(places, batch.puts());
    remove_numbers(places, batch.deletes());
    let left = usize::from(live) - batch.puts().len();
    let bound = bound_of(places, left);
    let journal = replace_all(journal, host, places, bound, batch.puts(), live)?;
    let next = move_pages(places, bound, journal.first() + FIRST_PAGE);
    place_puts(places, batch.puts(), next);
    Ok(journal)
}

/// Commits a batch after which so many pages are live, which is no more than the unit takes.
pub(crate) fn commit_with<H: Host>(
    journal: Journal,
    host: &mut H,
    places: &mut Table<u32>,
    cache: &mut Cache,
    batch: &Batch,
    live: u16,
) -> Result<Journal, Failed>
    requires ready { IsReadyFor H.told batch.now journal places.old (H.outside host.old) }
    requires caches { IsTrue H.told → EachIsPageAtPlace journal
        (image (unit_under journal) (H.outside host.old).now) cache.old.entries }
    requires live { live ≡ set.len (changed_numbers batch.now (numbers_in places.old.entries)) }
    ensures commits { Commits H.told journal (commit_work (blocks_under journal) batch.now
        (set.len (changed_numbers batch.now (numbers_in places.old.entries)))) batch.now result
        (H.outside host.old) (H.outside host.new) }
    ensures takes { TakesOver H.told batch.now places.old.entries places.new.entries result
        (H.outside host.new) }
    ensures caches { IsTrue H.told → IfOk result
        (λ after. EachIsPageAtPlace after
        (image (unit_under journal) (H.outside host.new).now) cache.new.entries) }
    ensures appends { AppendsWhereOpen H.told (unit_under journal) batch.now
        (H.outside host.old) (H.outside host.new) }
{
    if has_room(&journal, places, batch) {
        commit_after(journal, host, places, batch)
    } else {
        forget_all(cache);
        commit_beside(journal, host, places, batch, live)
    }
}
