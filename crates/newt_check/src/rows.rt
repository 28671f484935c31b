//! All rows, one after the other.
ghost use Rattle.std.specs.Prelude.{IsTrue, ◌≤◌, ℕ, List, IfOk};
ghost use Rattle.newt_host.specs.Moments.{image, IsDurable};
ghost use Rattle.newt_host.specs.Outside.{OnlyReads};
ghost use Rattle.newt_soupdir.specs.Bare.{bare_store};
ghost use Rattle.newt_spec_image.specs.Objects.{Objects as Texts};
ghost use Rattle.newt_spec_store.specs.Valid.{well_formed};
ghost use Rattle.newt_store_catalog.specs.Calls.{CanRead, Reads};
ghost use Rattle.newt_store_catalog.specs.Reading.{ReadEnds};
ghost use Rattle.newt_check.specs.Reports.{HasNoObjects, HasSoundRecords, IsReport};

use crate::bank::report_of_bank;
use crate::entries::{bad_record, find_root, nothing_seen};
use crate::larges::{count_odd, first_stray};
use crate::parts::broken_object;
use crate::report::Report;
use newt_host::{Host, Unit};
use newt_objects::{Objects, ScanFault, read_headers};
use newt_pagebook::{BookFault, PageBook, Stop, cap};
use newt_pages::DiskBook;
use newt_soupdir::Directory;
use newt_spec_check::Layer;
use newt_store_catalog::lies;
use std::alloc::Global;
use std::collections::BTreeMap;

/// What is said of pages that are no objects.
fn report_of_parts<P: PageBook, H: Host>(
    alloc: Global,
    host: &mut H,
    book: &mut P,
) -> Result<Report, Stop>
    requires stands { P.stands H.told book.old (H.outside host.old) }
    requires no_objects { IsTrue H.told
        → HasNoObjects (image (P.place book.old) (H.outside host.old).now) }
    ensures report { IsTrue H.told → IfOk result
        (λ report. IsReport report (image (P.place book.old) (H.outside host.old).now)) }
    ensures looks { OnlyReads (P.place book.old) (H.outside host.old) (H.outside host.new) }
    ensures ends { ReadEnds (P.place book.old) (H.outside host.old) (H.outside host.new) result }
{
    let headers = read_headers(alloc, host, book)?;
    match broken_object(alloc, &headers)? {
        Some(id) => Ok(Report::Damaged(Layer::Object, id)),
        None => Err(lies::<H>()),
    }
}

/// What is said of objects whose records are sound: of the large binaries and the cost.
fn report_of_store(
    directory: &Directory,
    ids: &[u32],
    counts: &BTreeMap<u32, bool>,
    blocks: u32,
    pages: u32,
) -> Report
    requires formed { IsTrue (well_formed (bare_store directory.now)) }
    requires enough { 13 ≤ blocks }
    requires few { blocks ≤ 4099 }
    ensures { (now : List ℕ) (texts : Texts)
        → HasSoundRecords now texts directory.now ids.now counts.now blocks pages
        → IsReport result now }
{
    if let Some(id) = first_stray(ids, counts) {
        return Report::Damaged(Layer::Large, id);
    }
    if pages > cap(blocks) {
        return Report::Damaged(Layer::Cost, pages);
    }
    let soups = directory.soups.list().len() as u32;
    Report::Clean(soups, count_odd(ids), pages)
}

/// What is said of the directory, the records of entries, the large binaries and the cost.
fn report_of_objects<P: PageBook, H: Host>(
    alloc: Global,
    host: &mut H,
    book: &mut P,
    objects: &Objects,
) -> Result<Report, Stop>
    requires can { CanRead P.place P.numbers P.stands H.told objects.now book.old
        (H.outside host.old) }
    ensures report { IsTrue H.told → IfOk result
        (λ report. IsReport report (image (P.place book.old) (H.outside host.old).now)) }
    ensures reads { Reads P.place P.numbers P.stands H.told objects.now book.old book.new
        (H.outside host.old) (H.outside host.new) result }
{
    let Some(directory) = find_root(alloc, host, book, objects)? else {
        return Ok(Report::Damaged(Layer::Directory, 0));
    };
    let ids = objects.ids_after(alloc, 0)?;
    let mut seen = nothing_seen(alloc);
    if let Some(id) = bad_record(alloc, host, book, objects, &directory, &ids, &mut seen)? {
        return Ok(Report::Damaged(Layer::Entry, id));
    }
    let blocks = host.blocks(book.unit());
    Ok(report_of_store(&directory, &ids, &seen.counts, blocks, book.live()))
}

/// What is said of an image that has pages.
fn report_of_book<P: PageBook, H: Host>(
    alloc: Global,
    host: &mut H,
    book: &mut P,
) -> Result<Report, Stop>
    requires stands { P.stands H.told book.old (H.outside host.old) }
    ensures report { IsTrue H.told → IfOk result
        (λ report. IsReport report (image (P.place book.old) (H.outside host.old).now)) }
    ensures looks { OnlyReads (P.place book.old) (H.outside host.old) (H.outside host.new) }
    ensures ends { ReadEnds (P.place book.old) (H.outside host.old) (H.outside host.new) result }
{
    match Objects::scan(alloc, host, book) {
        Ok(objects) => report_of_objects(alloc, host, book, &objects),
        Err(ScanFault::Bad) => report_of_parts(alloc, host, book),
        Err(ScanFault::Memory) => Err(Stop::Memory),
        Err(ScanFault::Device) => Err(Stop::Device(book.unit())),
    }
}

/// What is said of an image, over any book of pages.
fn check_with<P: PageBook, H: Host>(alloc: Global, host: &mut H, unit: Unit) -> Result<Report, Stop>
    requires enough { 13 ≤ (H.outside host.old).blocks unit }
    requires not_too_many { (H.outside host.old).blocks unit ≤ 4099 }
    requires at_rest { IsTrue H.told → IsDurable unit (H.outside host.old).now }
    ensures report { IsTrue H.told → IfOk result
        (λ report. IsReport report (image unit (H.outside host.old).now)) }
    ensures looks { OnlyReads unit (H.outside host.old) (H.outside host.new) }
    ensures ends { ReadEnds unit (H.outside host.old) (H.outside host.new) result }
{
    match P::open(alloc, host, unit) {
        Ok(book) => {
            let mut book: P = book;
            report_of_book(alloc, host, &mut book)
        }
        Err(BookFault::NotStore) => report_of_bank(alloc, host, unit),
        Err(BookFault::Memory) => Err(Stop::Memory),
        Err(BookFault::Device) => Err(Stop::Device(unit)),
    }
}

/// Looks one image through and writes nothing to it: the report is of the store that the image is
/// read as, or where it is read as none of the first row that holds of the table of damage. It
/// takes at most the memory of the tables of a store and of one object.
pub fn check<H: Host>(alloc: Global, host: &mut H, unit: Unit) -> Result<Report, Stop>
    requires enough { 13 ≤ (H.outside host.old).blocks unit }
    requires not_too_many { (H.outside host.old).blocks unit ≤ 4099 }
    requires at_rest { IsTrue H.told → IsDurable unit (H.outside host.old).now }
    ensures report { IsTrue H.told → IfOk result
        (λ report. IsReport report (image unit (H.outside host.old).now)) }
    ensures looks { OnlyReads unit (H.outside host.old) (H.outside host.new) }
    ensures ends { ReadEnds unit (H.outside host.old) (H.outside host.new) result }
{
    check_with::<DiskBook, H>(alloc, host, unit)
}
