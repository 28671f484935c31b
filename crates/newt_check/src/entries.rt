//! The rows of the directory and of the records of entries.
ghost use Rattle.std.specs.Prelude.{IsTrue, ◌≡◌, ◌+◌, ℕ, [], true, false, Some, None, IfOk, MatchOption};
ghost use Rattle.std.specs.FinMap as map;
ghost use Rattle.newt_host.specs.Moments.{image};
ghost use Rattle.newt_nsof_flat.specs.Stream.{stream_graph};
ghost use Rattle.newt_objects.specs.Extents.{IsNextIn};
ghost use Rattle.newt_objects.specs.Held.{held};
ghost use Rattle.newt_objects.specs.Listed.{AreNexts};
ghost use Rattle.newt_objects_commit.specs.Places.{place_of};
ghost use Rattle.newt_soupdir.specs.Bare.{bare_store};
ghost use Rattle.newt_spec_check.specs.Damage.{all_named, bad_entry, directory_in};
ghost use Rattle.newt_spec_image.specs.Records.{IsVersion, version};
ghost use Rattle.newt_spec_nsof.specs.Text.{AreBytes};
ghost use Rattle.newt_spec_store.specs.Lies.{directory_read, record_read};
ghost use Rattle.newt_entries.specs.Entry.{said};
ghost use Rattle.newt_spec_store.specs.Valid.{well_formed};
ghost use Rattle.newt_store_catalog.specs.Calls.{CanRead, IsDirectory, Reads};
ghost use Rattle.newt_store_catalog.specs.Opening.{OfObjects};
ghost use Rattle.newt_check.specs.Seen.{AreCounts, AreRecordBytes, HasSeen, IsBadRow, KeepsRow};

use crate::larges::count_names;
use newt_entries::{EntryFault, EntryRow, read_entry};
use newt_host::Host;
use newt_objects::Objects;
use newt_objects_commit::PlaceTable;
use newt_pagebook::{PageBook, Stop};
use newt_soupdir::{DirFault, Directory, read_directory};
use newt_store_catalog::{are_there, has_given};
use std::alloc::{AllocError, Global};
use std::collections::BTreeMap;

/// What is seen of the records of entries.
#[derive(Drop)]
pub(crate) struct Seen {
    /// The object of each entry's record.
    pub places: PlaceTable,
    /// The objects that records name: true where one is named once, false where it is again.
    pub counts: BTreeMap<u32, bool>,
}

/// Nothing is seen. It takes no memory.
pub(crate) fn nothing_seen(alloc: Global) -> Seen
    ensures places { (sig uid : ℕ) → place_of result.places sig uid ≡ None }
    ensures counts { AreCounts [] result.counts }
{
    Seen {
        places: PlaceTable::new(alloc),
        counts: BTreeMap::new(alloc),
    }
}

/// The directory that bytes are read as in the form of a version, or none.
fn directory_of(alloc: Global, bytes: &[u8], version: u16) -> Result<Option<Directory>, AllocError>
    requires { IsVersion version }
    ensures read { IfOk result (λ found. MatchOption found
        (directory_read stream_graph version bytes.now ≡ None)
        (λ directory. directory_read stream_graph version bytes.now
        ≡ Some (bare_store directory))) }
    ensures are_bytes { AreBytes bytes.now }
{
    match read_directory(alloc, bytes, version) {
        Ok(directory) => Ok(Some(directory)),
        Err(DirFault::Bad) => Ok(None),
        Err(DirFault::Memory) => Err(AllocError),
    }
}

/// The record that bytes are read as alone, or none.
fn record_of(alloc: Global, bytes: &[u8]) -> Result<Option<EntryRow>, AllocError>
    ensures read { IfOk result (λ found. MatchOption found
        (record_read stream_graph bytes.now ≡ None)
        (λ row. record_read stream_graph bytes.now ≡ Some (said row))) }
    ensures are_bytes { AreBytes bytes.now }
{
    match read_entry(alloc, bytes) {
        Ok(row) => Ok(Some(row)),
        Err(EntryFault::Bad) => Ok(None),
        Err(EntryFault::Memory) => Err(AllocError),
    }
}

/// The directory, or none where there is none.
pub(crate) fn find_root<P: PageBook, H: Host>(
    alloc: Global,
    host: &mut H,
    book: &mut P,
    objects: &Objects,
) -> Result<Option<Directory>, Stop>
    requires can { CanRead P.place P.numbers P.stands H.told objects.now book.old
        (H.outside host.old) }
    ensures root { let now = image (P.place book.old) (H.outside host.old).now in
        IfOk result (λ found. MatchOption found
        (OfObjects H.told now (λ texts. directory_in stream_graph (version now) (map.entries texts)
        ≡ None)) (IsDirectory H.told now)) }
    ensures reads { Reads P.place P.numbers P.stands H.told objects.now book.old book.new
        (H.outside host.old) (H.outside host.new) result }
{
    if objects.length(0).is_none() {
        return Ok(None);
    }
    let bytes = objects.read(host, book, 0)?;
    Ok(directory_of(alloc, &bytes, book.version())?)
}

/// Keeps what is seen of a record. False where its id is not given, its entry has a place, or one
/// of its large binaries is not there.
fn keep_row(
    objects: &Objects,
    directory: &Directory,
    seen: &mut Seen,
    row: &EntryRow,
    id: u32,
) -> Result<bool, AllocError>
    requires { IsTrue (well_formed (bare_store directory.now)) }
    ensures kept { IfOk result (λ good. good ≡ true
        → KeepsRow (held objects.now) (bare_store directory.now) id row.now
        (place_of seen.old.places) (place_of seen.new.places) seen.old.counts seen.new.counts) }
    ensures bad { IfOk result (λ good. good ≡ false → IsBadRow (held objects.now)
        (bare_store directory.now) row.now (place_of seen.old.places)) }
{
    if !has_given(directory, row) {
        return Ok(false);
    }
    if seen.places.insert(row.soup, row.uid, id)?.is_some() {
        return Ok(false);
    }
    if !are_there(objects, row.larges.list()) {
        return Ok(false);
    }
    count_names(&mut seen.counts, row.larges.list())?;
    Ok(true)
}

/// Looks at the next object. False where it has an odd id and is no record, or one that cannot be
/// kept.
fn see_object<P: PageBook, H: Host>(
    alloc: Global,
    host: &mut H,
    book: &mut P,
    objects: &Objects,
    directory: &Directory,
    seen: &mut Seen,
    last: u32,
    id: u32,
) -> Result<bool, Stop>
    requires can { CanRead P.place P.numbers P.stands H.told objects.now book.old
        (H.outside host.old) }
    requires root { IsDirectory H.told (image (P.place book.old) (H.outside host.old).now)
        directory.now }
    requires next { IsNextIn (held objects.now) (last + 1) (Some id) }
    requires seen { HasSeen H.told (image (P.place book.old) (H.outside host.old).now) last
        (bare_store directory.now) (place_of seen.old.places) seen.old.counts }
    ensures seen { IfOk result (λ good. good ≡ true
        → HasSeen H.told (image (P.place book.old) (H.outside host.old).now) id
        (bare_store directory.now) (place_of seen.new.places) seen.new.counts) }
    ensures bad { let now = image (P.place book.old) (H.outside host.old).now in
        IfOk result (λ good. good ≡ false → OfObjects H.told now
        (λ texts. bad_entry stream_graph (version now) (map.entries texts) ≡ Some id)) }
    ensures reads { Reads P.place P.numbers P.stands H.told objects.now book.old book.new
        (H.outside host.old) (H.outside host.new) result }
{
    if id % 2 == 0 {
        return Ok(true);
    }
    let bytes = objects.read(host, book, id)?;
    match record_of(alloc, &bytes)? {
        Some(row) => Ok(keep_row(objects, directory, seen, &row, id)?),
        None => Ok(false),
    }
}

/// The least odd id of an object that breaks a rule of records. Where there is none, what all
/// records name is counted.
pub(crate) fn bad_record<P: PageBook, H: Host>(
    alloc: Global,
    host: &mut H,
    book: &mut P,
    objects: &Objects,
    directory: &Directory,
    ids: &[u32],
    seen: &mut Seen,
) -> Result<Option<u32>, Stop>
    requires can { CanRead P.place P.numbers P.stands H.told objects.now book.old
        (H.outside host.old) }
    requires root { IsDirectory H.told (image (P.place book.old) (H.outside host.old).now)
        directory.now }
    requires ids { AreNexts (held objects.now) 1 ids.now }
    requires none { HasSeen H.told (image (P.place book.old) (H.outside host.old).now) 0
        (bare_store directory.now) (place_of seen.old.places) seen.old.counts }
    ensures row { let now = image (P.place book.old) (H.outside host.old).now in
        IfOk result (λ found. OfObjects H.told now
        (λ texts. found ≡ bad_entry stream_graph (version now) (map.entries texts))) }
    ensures counted { let now = image (P.place book.old) (H.outside host.old).now in
        IfOk result (λ found. found ≡ None → OfObjects H.told now
        (λ texts. AreCounts (all_named (map.entries texts)) seen.new.counts
        × AreRecordBytes texts)) }
    ensures reads { Reads P.place P.numbers P.stands H.told objects.now book.old book.new
        (H.outside host.old) (H.outside host.new) result }
{
    let mut last = 0;
    for id in ids {
        if !see_object(alloc, host, book, objects, directory, seen, last, *id)? {
            return Ok(Some(*id));
        }
        last = *id;
    }
    Ok(None)
}
