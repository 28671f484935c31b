//! The page at hand.
ghost use Rattle.std.specs.Prelude.{IsTrue, ◌≡◌, [], IfOk};
ghost use Rattle.newt_host.specs.Moments.{image};
ghost use Rattle.newt_journal.specs.Calls.{Reads};
ghost use Rattle.newt_journal.specs.Journal.{Stands, unit_under};
ghost use Rattle.newt_pages.specs.Disk.{Brings, EachIsPageAtPlace, LiesAt, bytes_fetched, shown_in};

use lru::LruCache;
use newt_host::{Failed, Host};
use newt_journal::Journal;
use newt_pagebook::{Page, Use};

/// Pages that were read last, by their places on the device.
pub(crate) type Cache = LruCache<u32, Page>;

/// Which page is at hand.
#[derive(Clone, Copy)]
pub(crate) enum AtHand {
    Nothing,
    /// The one of this place, in the cache.
    Cached(u32),
    /// The spare one, which the cache did not take.
    Spare,
}

/// Brings the page at a place of the records to hand. One that is cached is not read again; another
/// one is read into the cache, or where it is used once or there is no memory for it there, into
/// the spare page.
pub(crate) fn bring<H: Host>(
    journal: &Journal,
    host: &mut H,
    at: u32,
    usage: Use,
    cache: &mut Cache,
    spare: &mut Page,
) -> Result<AtHand, Failed>
    requires lies { LiesAt journal.now at }
    requires stands { Stands H.told journal.now (H.outside host.old) }
    requires caches { IsTrue H.told → EachIsPageAtPlace journal.now
        (image (unit_under journal.now) (H.outside host.old).now) cache.old.entries }
    ensures brings { IfOk result (λ hand. Brings H.told journal.now at (H.outside host.old)
        (shown_in cache.new.entries spare.new hand)) }
    ensures caches { IsTrue H.told → EachIsPageAtPlace journal.now
        (image (unit_under journal.now) (H.outside host.old).now) cache.new.entries }
    // for a page that is cached nothing is fetched
    ensures reads { Reads (unit_under journal.now) (bytes_fetched at cache.old.entries) result
        (H.outside host.old) (H.outside host.new) }
{
    if cache.promote(&at) {
        return Ok(AtHand::Cached(at));
    }
    journal.read_at(host, at, spare)?;
    if matches!(usage, Use::Once) {
        return Ok(AtHand::Spare);
    }
    match cache.put(at, *spare) {
        Ok(_) => Ok(AtHand::Cached(at)),
        Err(_) => Ok(AtHand::Spare),
    }
}

/// Forgets all cached pages: in the other bank other pages stand at their places.
pub(crate) fn forget_all(cache: &mut Cache)
    ensures { cache.new.entries ≡ [] }
{
    cache.clear();
}
