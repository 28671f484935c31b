//! An entry is read, with its large binaries.
ghost use Rattle.std.specs.Prelude.{IsTrue, ◌≡◌, ◌*◌, true, IfOk, length, map as list_map};
ghost use Rattle.newt_host.specs.Moments.{image};
ghost use Rattle.newt_host.specs.Outside.{Spends};
ghost use Rattle.newt_objects.specs.Held.{held};
ghost use Rattle.newt_spec_image.specs.Objects.{pages_for};
ghost use Rattle.newt_spec_store.specs.Cost.{entry_pages};
ghost use Rattle.newt_spec_store.specs.Valid.{valid_entry};
ghost use Rattle.newt_store_catalog.specs.Calls.{AreThere, CanRead, HasEntry, IsRowOver, Reads};
ghost use Rattle.newt_store_catalog.specs.Calls.{ForEntry, ForLarges, ForObject, ReadsBytes};
ghost use Rattle.newt_store_catalog.specs.Calls.{ReadsEntry, ReadsLarges, ReadsRecord};
ghost use Rattle.newt_store_catalog.specs.Calls.{larges_pages, row_pages};
ghost use Rattle.newt_store_catalog.specs.Opening.{has_length};
ghost use Rattle.newt_store_change.specs.Entries.{plain_entry};

use crate::open::are_there;
use newt_entries::{EntryFault, EntryRow, LargeAt, read_entry, whole};
use newt_host::Host;
use newt_objects::Objects;
use newt_pagebook::{PageBook, Stop};
use newt_store_change::Entry;
use std::alloc::Global;

/// Why a reading ends where the device gave other bytes than were written. Over a host that tells
/// its bytes this is never called; over another it is want of memory, since no fault was counted.
pub fn lies<H: Host>() -> Stop
    requires { IsTrue H.told → ⊥ }
    ensures { result ≡ Stop.Memory }
{
    Stop::Memory
}

/// Reads the record of an entry. The objects of its large binaries are there.
pub fn read_row<P: PageBook, H: Host>(
    alloc: Global,
    host: &mut H,
    book: &mut P,
    objects: &Objects,
    id: u32,
) -> Result<EntryRow, Stop>
    requires can { CanRead P.place P.numbers P.stands H.told objects.now book.old
        (H.outside host.old) }
    requires entry { HasEntry H.told objects.now id
        (image (P.place book.old) (H.outside host.old).now) }
    ensures row { ForObject H.told (image (P.place book.old) (H.outside host.old).now) id
        (λ bytes. ReadsRecord (P.place book.old) bytes
        (H.outside host.old) (H.outside host.new) result) }
    ensures any { IfOk result (IsRowOver objects.now) }
    ensures pages { IfOk result (λ row. Spends (P.place book.old) 0 (512 * row_pages row)
        (H.outside host.old) (H.outside host.new)) }
    ensures reads { Reads P.place P.numbers P.stands H.told objects.now book.old book.new
        (H.outside host.old) (H.outside host.new) result }
{
    let bytes = objects.read(host, book, id)?;
    match read_entry(alloc, &bytes) {
        Ok(row) => {
            if !are_there(objects, row.larges.list()) {
                return Err(lies::<H>());
            }
            Ok(row)
        }
        Err(EntryFault::Bad) => Err(lies::<H>()),
        Err(EntryFault::Memory) => Err(Stop::Memory),
    }
}

/// Reads the bytes of a large binary.
fn read_large<P: PageBook, H: Host>(
    host: &mut H,
    book: &mut P,
    objects: &Objects,
    large: &LargeAt,
) -> Result<Vec<u8>, Stop>
    requires can { CanRead P.place P.numbers P.stands H.told objects.now book.old
        (H.outside host.old) }
    requires there { has_length (held objects.now) large.now ≡ true }
    ensures length { IfOk result (λ bytes. length bytes.items ≡ large.now.length) }
    ensures bytes { ForObject H.told (image (P.place book.old) (H.outside host.old).now)
        large.now.object (λ bytes. ReadsBytes (P.place book.old) bytes
        (H.outside host.old) (H.outside host.new) result) }
    ensures pages { Spends (P.place book.old) 0 (512 * pages_for large.now.length)
        (H.outside host.old) (H.outside host.new) }
    ensures reads { Reads P.place P.numbers P.stands H.told objects.now book.old book.new
        (H.outside host.old) (H.outside host.new) result }
{
    objects.read(host, book, large.object)
}

/// Reads the bytes of large binaries, one after the other.
fn read_larges<P: PageBook, H: Host>(
    alloc: Global,
    host: &mut H,
    book: &mut P,
    objects: &Objects,
    rows: &[LargeAt],
) -> Result<Vec<Vec<u8>>, Stop>
    requires can { CanRead P.place P.numbers P.stands H.told objects.now book.old
        (H.outside host.old) }
    requires there { AreThere objects.now rows.now }
    ensures lengths { IfOk result (λ larges.
        list_map (λ bytes. length bytes.items) larges.items ≡ list_map (λ l. l.length) rows.now) }
    ensures larges { ForLarges H.told (image (P.place book.old) (H.outside host.old).now) rows.now
        (λ bs. ReadsLarges (P.place book.old) bs
        (H.outside host.old) (H.outside host.new) result) }
    ensures pages { Spends (P.place book.old) 0 (512 * larges_pages rows.now)
        (H.outside host.old) (H.outside host.new) }
    ensures reads { Reads P.place P.numbers P.stands H.told objects.now book.old book.new
        (H.outside host.old) (H.outside host.new) result }
{
    let mut larges = Vec::new(alloc);
    let mut left = rows;
    while let [row, rest @ ..] = left {
        larges.push(read_large(host, book, objects, row)?)?;
        left = rest;
    }
    Ok(larges)
}

/// Reads an entry, whole.
pub fn read_whole<P: PageBook, H: Host>(
    alloc: Global,
    host: &mut H,
    book: &mut P,
    objects: &Objects,
    id: u32,
) -> Result<Entry, Stop>
    requires can { CanRead P.place P.numbers P.stands H.told objects.now book.old
        (H.outside host.old) }
    requires entry { HasEntry H.told objects.now id
        (image (P.place book.old) (H.outside host.old).now) }
    ensures entry { ForEntry H.told (image (P.place book.old) (H.outside host.old).now) id
        (λ e. ReadsEntry (P.place book.old) e (H.outside host.old) (H.outside host.new) result) }
    ensures valid { IfOk result (λ found. IsTrue (valid_entry (plain_entry found))) }
    ensures pages { IfOk result (λ found. Spends (P.place book.old) 0
        (512 * entry_pages (plain_entry found)) (H.outside host.old) (H.outside host.new)) }
    ensures reads { Reads P.place P.numbers P.stands H.told objects.now book.old book.new
        (H.outside host.old) (H.outside host.new) result }
{
    let row = read_row(alloc, host, book, objects, id)?;
    let larges = read_larges(alloc, host, book, objects, row.larges.list())?;
    let (uid, time) = (row.uid, row.time);
    let graph = whole(alloc, row, larges)?;
    Ok(Entry { uid, time, graph })
}
