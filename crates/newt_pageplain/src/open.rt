//! All pages of a journal are read.
ghost use Rattle.std.specs.Prelude.{IsTrue, ◌≡◌, ◌+◌, ◌≤◌, None, Some, IfOk, OnOk, IsErrOf};
ghost use Rattle.newt_host.specs.Moments.{image};
ghost use Rattle.newt_spec_image.specs.Pages.{pages as pages_of};
ghost use Rattle.newt_journal.specs.Calls.{Reads};
ghost use Rattle.newt_journal.specs.Journal.{Stands, unit_under, end_of};
ghost use Rattle.newt_journal.specs.Places.{first_place};
ghost use Rattle.newt_pagelog.specs.Kept.{AreSound, map_of, page_in};
ghost use Rattle.newt_pagelog.specs.Placed.{ArePlaced, ReadsBook, ReadsUnit, lifted, page_from};
ghost use Rattle.newt_pageplain.specs.Plain.{Lacks, TakesNumber};

use crate::apply::Kept;
use newt_host::{Failed, Host};
use newt_journal::Journal;
use newt_pagebook::{BookFault, Page};
use newt_pagelog::{Table, replay};
use std::alloc::Global;
use std::collections::HashMap;

/// Reads the page at a place.
fn read_page<H: Host>(journal: &Journal, host: &mut H, at: u32) -> Result<Page, Failed>
    requires low { first_place journal.now ≤ at }
    requires high { at + 512 ≤ end_of journal.now }
    requires stands { Stands H.told journal.now (H.outside host.old) }
    ensures page { IsTrue H.told → IfOk result
        (λ page. page ≡ page_from (image (unit_under journal.now) (H.outside host.old).now) at) }
    ensures reads { Reads (unit_under journal.now) 512 result
        (H.outside host.old) (H.outside host.new) }
{
    let mut page = [0; 512];
    journal.read_at(host, at, &mut page)?;
    Ok(page)
}

/// Reads the page of a number, if it has a place.
fn read_number<H: Host>(
    journal: &Journal,
    host: &mut H,
    places: &Table<u32>,
    number: u32,
    pages: &mut Kept,
) -> Result<(), BookFault>
    requires placed { ArePlaced journal.now places.now.entries }
    requires stands { Stands H.told journal.now (H.outside host.old) }
    requires lacks { Lacks number pages.old }
    ensures took { OnOk result (TakesNumber number places.now.entries pages.old pages.new) }
    ensures page { IsTrue H.told → OnOk result
        (page_in pages.new.entries number
        ≡ page_in (lifted (page_from (image (unit_under journal.now) (H.outside host.old).now))
        places.now.entries) number) }
    ensures reads { ReadsUnit (unit_under journal.now) result
        (H.outside host.old) (H.outside host.new) }
{
    match places.get(&number) {
        Some(place) => {
            let page = read_page(journal, host, *place)?;
            pages.insert(number, page)?;
            Ok(())
        }
        None => Ok(()),
    }
}

/// All pages that the records of a journal leave.
pub(crate) fn read_pages<H: Host>(
    alloc: Global,
    journal: &Journal,
    host: &mut H,
) -> Result<Kept, BookFault>
    requires { Stands H.told journal.now (H.outside host.old) }
    ensures sound { IfOk result (λ kept. AreSound kept.entries) }
    ensures pages { IsTrue H.told → IfOk result
        (λ kept. pages_of (image (unit_under journal.now) (H.outside host.old).now)
        ≡ Some (map_of kept.entries)) }
    ensures not_store { IsErrOf result BookFault.NotStore → IsTrue H.told
        → pages_of (image (unit_under journal.now) (H.outside host.old).now) ≡ None }
    ensures reads { ReadsBook (unit_under journal.now) result
        (H.outside host.old) (H.outside host.new) }
{
    let places = replay(alloc, journal, host)?;
    let mut pages = HashMap::new(alloc);
    for number in 0..65536 {
        read_number(journal, host, &places, number, &mut pages)?;
    }
    Ok(pages)
}
