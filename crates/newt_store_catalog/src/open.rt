//! The store of an image is found.
ghost use Rattle.std.specs.Prelude.{IsTrue, ◌≡◌, ◌≢◌, ◌+◌, ◌%◌, ◌<◌, ◌≤◌, ℕ, [], true, false};
ghost use Rattle.std.specs.Prelude.{IsSome, Some, None, OnOk, IfOk, IsErrOf};
ghost use Rattle.std.specs.List.{list_all};
ghost use Rattle.newt_host.specs.Moments.{image, IsDurable};
ghost use Rattle.newt_spec_image.specs.Records.{IsVersion};
ghost use Rattle.newt_spec_nsof.specs.Text.{AreBytes};
ghost use Rattle.newt_objects.specs.Extents.{IsNextIn};
ghost use Rattle.newt_objects.specs.Held.{held};
ghost use Rattle.newt_laws_images.specs.Found.{HasGiven};
ghost use Rattle.newt_spec_graph.specs.Lists.{Among};
ghost use Rattle.newt_spec_store.specs.Store.{Store as PlainStore};
ghost use Rattle.newt_spec_store.specs.Lies.{directory_read, record_read};
ghost use Rattle.newt_spec_store.specs.Valid.{well_formed};
ghost use Rattle.newt_soupdir.specs.Bare.{bare_store};
ghost use Rattle.newt_nsof_flat.specs.Stream.{stream_graph};
ghost use Rattle.newt_entries.specs.Entry.{said};
ghost use Rattle.newt_objects_commit.specs.Commit.{AreKept};
ghost use Rattle.newt_objects_commit.specs.Names.{names_of};
ghost use Rattle.newt_objects_commit.specs.Places.{place_of};
ghost use Rattle.newt_store_catalog.specs.Calls.{CanRead, FindsAll, IsDirectory, IsFoundTo};
ghost use Rattle.newt_store_catalog.specs.Calls.{OpensCatalog, Searches};
ghost use Rattle.newt_store_catalog.specs.Gathering.{HasGathered, nothing};
ghost use Rattle.newt_store_catalog.specs.Readable.{readable};
ghost use Rattle.newt_store_catalog.specs.Reading.{BookReads, SearchEnds};
ghost use Rattle.newt_store_catalog.specs.Stands.{StandsFor, IsSound};
ghost use Rattle.newt_store_catalog.specs.Opening.{OfObjects, HasObject, IsRow, has_length};
ghost use Rattle.newt_store_catalog.specs.Opening.{objects_named, owner_of, OwnsThese, AreOwned};
ghost use Rattle.newt_store_catalog.specs.Opening.{FindsRow, IsNoRow};

use crate::catalog::Catalog;
use crate::gather::Gatherer;
use newt_entries::{EntryFault, EntryRow, LargeAt, read_entry};
use newt_host::{Host, Unit};
use newt_objects::{Objects, ScanFault};
use newt_objects_commit::{NameTable, PlaceTable};
use newt_pagebook::{BookFault, PageBook, Stop, cap};
use newt_soupdir::{DirFault, Directory, read_directory};
use std::alloc::{AllocError, Global};
use std::collections::BTreeMap;

/// Finds where the objects lie.
fn scan_objects<P: PageBook, H: Host>(
    alloc: Global,
    host: &mut H,
    book: &mut P,
) -> Result<Objects, BookFault>
    requires stands { P.stands H.told book.old (H.outside host.old) }
    ensures kept { IfOk result (λ objects.
        AreKept H.told objects (P.numbers book.new) (P.place book.new) (H.outside host.new)) }
    ensures reads { BookReads P.place P.numbers P.stands H.told book.old book.new
        (H.outside host.old) (H.outside host.new) }
    ensures ends { SearchEnds H.told (P.place book.old)
        (H.outside host.old) (H.outside host.new) result }
{
    match Objects::scan(alloc, host, book) {
        Ok(objects) => Ok(objects),
        Err(ScanFault::Bad) => Err(BookFault::NotStore),
        Err(ScanFault::Memory) => Err(BookFault::Memory),
        Err(ScanFault::Device) => Err(BookFault::Device),
    }
}

/// Reads the bytes of an object that is there.
fn read_object<P: PageBook, H: Host>(
    host: &mut H,
    book: &mut P,
    objects: &Objects,
    id: u32,
) -> Result<Vec<u8>, BookFault>
    requires can { CanRead P.place P.numbers P.stands H.told objects.now book.old
        (H.outside host.old) }
    requires there { IsSome (held objects.now id) }
    ensures bytes { let now = image (P.place book.old) (H.outside host.old).now in
        IfOk result (λ bytes. OfObjects H.told now (HasObject id bytes.items)) }
    ensures some { IsErrOf result BookFault.NotStore → ⊥ }
    ensures searches { Searches P.place P.numbers P.stands H.told objects.now book.old book.new
        (H.outside host.old) (H.outside host.new) result }
{
    match objects.read(host, book, id) {
        Ok(bytes) => Ok(bytes),
        Err(Stop::Memory) => Err(BookFault::Memory),
        Err(Stop::Device(_)) => Err(BookFault::Device),
    }
}

/// The directory that an object's bytes are read as, in the form of this version.
fn root_of(alloc: Global, bytes: &[u8], version: u16) -> Result<Directory, BookFault>
    requires { IsVersion version }
    ensures read { IfOk result (λ directory. directory_read stream_graph version bytes.now ≡ Some
        (bare_store directory)) }
    ensures are_bytes { OnOk result (AreBytes bytes.now) }
    ensures bad { IsErrOf result BookFault.NotStore → directory_read stream_graph version bytes.now
        ≡ None }
    ensures no_device { IsErrOf result BookFault.Device → ⊥ }
{
    match read_directory(alloc, bytes, version) {
        Ok(directory) => Ok(directory),
        Err(DirFault::Bad) => Err(BookFault::NotStore),
        Err(DirFault::Memory) => Err(BookFault::Memory),
    }
}

/// Reads the directory.
fn read_root<P: PageBook, H: Host>(
    alloc: Global,
    host: &mut H,
    book: &mut P,
    objects: &Objects,
) -> Result<Directory, BookFault>
    requires can { CanRead P.place P.numbers P.stands H.told objects.now book.old
        (H.outside host.old) }
    ensures root { IfOk result (IsDirectory H.told
        (image (P.place book.old) (H.outside host.old).now)) }
    ensures searches { Searches P.place P.numbers P.stands H.told objects.now book.old book.new
        (H.outside host.old) (H.outside host.new) result }
{
    if objects.length(0).is_none() {
        return Err(BookFault::NotStore);
    }
    let bytes = read_object(host, book, objects, 0)?;
    root_of(alloc, &bytes, book.version())
}

/// The record that an object's bytes are read as alone.
fn record_of(alloc: Global, bytes: &[u8]) -> Result<EntryRow, BookFault>
    ensures read { IfOk result (λ row. record_read stream_graph bytes.now ≡ Some (said row)) }
    ensures are_bytes { OnOk result (AreBytes bytes.now) }
    ensures bad { IsErrOf result BookFault.NotStore → record_read stream_graph bytes.now ≡ None }
    ensures no_device { IsErrOf result BookFault.Device → ⊥ }
{
    match read_entry(alloc, bytes) {
        Ok(row) => Ok(row),
        Err(EntryFault::Bad) => Err(BookFault::NotStore),
        Err(EntryFault::Memory) => Err(BookFault::Memory),
    }
}

/// Reads the record of an object that is there, with an odd id.
fn read_record<P: PageBook, H: Host>(
    alloc: Global,
    host: &mut H,
    book: &mut P,
    objects: &Objects,
    id: u32,
) -> Result<EntryRow, BookFault>
    requires can { CanRead P.place P.numbers P.stands H.told objects.now book.old
        (H.outside host.old) }
    requires there { IsSome (held objects.now id) }
    requires odd { id % 2 ≡ 1 }
    ensures row { let now = image (P.place book.old) (H.outside host.old).now in
        IfOk result (λ row. OfObjects H.told now (IsRow id row)) }
    ensures even { IfOk result (λ row.
        (o : ℕ) → Among (objects_named row.larges) o → (o % 2 ≡ 0) × (0 < o)) }
    ensures searches { Searches P.place P.numbers P.stands H.told objects.now book.old book.new
        (H.outside host.old) (H.outside host.new) result }
{
    let bytes = read_object(host, book, objects, id)?;
    record_of(alloc, &bytes)
}

/// Whether a soup of the directory has given this id.
pub fn has_given(directory: &Directory, row: &EntryRow) -> bool
    requires { IsTrue (well_formed (bare_store directory.now)) }
    ensures given { result ≡ true → HasGiven (bare_store directory.now) row.now.soup row.now.uid }
    ensures not_given { result ≡ false → HasGiven (bare_store directory.now) row.now.soup
        row.now.uid → ⊥ }
{
    match directory.soup_of(row.soup) {
        Some(soup) => row.uid.0 < soup.next_uid,
        None => false,
    }
}

/// Whether the object that a row names is there, with the row's length.
fn is_there(objects: &Objects, row: &LargeAt) -> bool
    ensures { result ≡ has_length (held objects.now) row.now }
{
    match objects.length(row.object) {
        Some(length) => length == row.length,
        None => false,
    }
}

/// Whether each object that rows name is there, with the row's length.
pub fn are_there(objects: &Objects, rows: &[LargeAt]) -> bool
    ensures { result ≡ list_all (λ row. has_length (held objects.now) row) rows.now }
{
    rows.iter().all(|row| is_there(objects, row))
}

/// The ids of the objects that rows name, in order.
fn named_by(alloc: Global, rows: &[LargeAt]) -> Result<Vec<u32>, AllocError>
    ensures { IfOk result (λ ids. ids.items ≡ objects_named rows.now) }
{
    let mut ids = Vec::new(alloc);
    for row in rows {
        ids.push(row.object)?;
    }
    Ok(ids)
}

/// Keeps the owner of an object, and answers the one that it had.
fn own(owners: &mut BTreeMap<u32, u32>, object: u32, id: u32) -> Result<Option<u32>, AllocError>
    ensures old { IfOk result (λ old. old ≡ owner_of owners.old object) }
    ensures owned { OnOk result (owner_of owners.new object ≡ Some id) }
    ensures others { OnOk result ((other : ℕ) → other ≢ object → owner_of owners.new other ≡
        owner_of owners.old other) }
{
    Ok(owners.insert(object, id)?)
}

/// Keeps the owner of these objects. Whether none of them had one, nor stands twice.
fn own_all(owners: &mut BTreeMap<u32, u32>, ids: &[u32], id: u32) -> Result<bool, AllocError>
    ensures owned { IfOk result (λ all. all ≡ true → OwnsThese ids.now id (owner_of owners.old)
        (owner_of owners.new)) }
    ensures are_owned { IfOk result (λ all. all ≡ false → AreOwned ids.now (owner_of owners.old)) }
{
    for object in ids {
        let old = own(owners, *object, id)?;
        if old.is_some() {
            return Ok(false);
        }
    }
    Ok(true)
}

/// Whether an object with an even id has an owner.
fn is_owned(owners: &BTreeMap<u32, u32>, id: u32) -> bool
    ensures owned { result ≡ true → id % 2 ≡ 0 → IsSome (owner_of owners.now id) }
    ensures not_owned { result ≡ false → (id % 2 ≡ 0) × (owner_of owners.now id ≡ None) }
{
    if id % 2 == 1 {
        return true;
    }
    owners.get(&id).is_some()
}

/// Whether each of these objects with an even id has an owner.
fn are_owned(ids: &[u32], owners: &BTreeMap<u32, u32>) -> bool
    ensures owned { result ≡ true → (id : ℕ) → Among ids.now id → id % 2 ≡ 0
        → IsSome (owner_of owners.now id) }
    ensures not_owned { result ≡ false → (id : ℕ) × Among ids.now id × (id % 2 ≡ 0) ×
        (owner_of owners.now id ≡ None) }
{
    for id in ids {
        if !is_owned(owners, *id) {
            return false;
        }
    }
    true
}

/// No owners. It takes no memory.
fn no_owners(alloc: Global) -> BTreeMap<u32, u32>
    ensures { (o : ℕ) → owner_of result o ≡ None }
{
    BTreeMap::new(alloc)
}

/// What is found of the records of entries.
#[derive(Drop)]
struct Finding {
    /// The object of each entry's record.
    places: PlaceTable,
    /// Which objects each record names.
    names: NameTable,
    /// By each object that a record names, the object of that record.
    owners: BTreeMap<u32, u32>,
}

/// Keeps which objects a record names, of which none were kept. Where it names none nothing is
/// kept.
fn keep_names(names: &mut NameTable, id: u32, ids: Vec<u32>) -> Result<(), AllocError>
    requires { names_of names.old id ≡ [] }
    ensures kept { OnOk result (names_of names.new id ≡ ids.items) }
    ensures others { OnOk result ((other : ℕ) → other ≢ id → names_of names.new other ≡ names_of
        names.old other) }
{
    if ids.is_empty() {
        return Ok(());
    }
    names.insert(id, ids)
}

/// Keeps what is found of the record of an entry. The entry must have no place yet, and its large
/// binaries must be there and be named by no other.
fn find_row(
    alloc: Global,
    objects: &Objects,
    directory: &Directory,
    finding: &mut Finding,
    row: &EntryRow,
    id: u32,
) -> Result<(), BookFault>
    requires formed { IsTrue (well_formed (bare_store directory.now)) }
    requires unnamed { names_of finding.old.names id ≡ [] }
    ensures found { OnOk result (FindsRow (held objects.now) (bare_store directory.now) id row.now
        (place_of finding.old.places) (names_of finding.old.names) (owner_of finding.old.owners)
        (place_of finding.new.places) (names_of finding.new.names) (owner_of finding.new.owners)) }
    ensures bad { IsErrOf result BookFault.NotStore
        → IsNoRow (held objects.now) (bare_store directory.now) row.now
        (place_of finding.old.places) (owner_of finding.old.owners) }
    ensures no_device { IsErrOf result BookFault.Device → ⊥ }
{
    if !has_given(directory, row) {
        return Err(BookFault::NotStore);
    }
    let old = finding.places.insert(row.soup, row.uid, id)?;
    if old.is_some() {
        return Err(BookFault::NotStore);
    }
    if !are_there(objects, row.larges.list()) {
        return Err(BookFault::NotStore);
    }
    let ids = named_by(alloc, row.larges.list())?;
    let are_free = own_all(&mut finding.owners, &ids, id)?;
    if !are_free {
        return Err(BookFault::NotStore);
    }
    Ok(keep_names(&mut finding.names, id, ids)?)
}

/// Keeps what is found of the next object. One with an odd id must be a record of an entry that has
/// no place yet, and whose large binaries are there and are named by no other; its entry is told.
fn find_object<P: PageBook, G: Gatherer, H: Host>(
    alloc: Global,
    host: &mut H,
    book: &mut P,
    objects: &Objects,
    directory: &Directory,
    finding: &mut Finding,
    gatherer: &mut G,
    last: u32,
    id: u32,
) -> Result<(), BookFault>
    requires can { CanRead P.place P.numbers P.stands H.told objects.now book.old
        (H.outside host.old) }
    requires root { IsDirectory H.told (image (P.place book.old) (H.outside host.old).now)
        directory.now }
    requires next { IsNextIn (held objects.now) (last + 1) (Some id) }
    requires found { IsFoundTo H.told (image (P.place book.old) (H.outside host.old).now)
        (held objects.now) directory.now last (place_of finding.old.places)
        (names_of finding.old.names) (owner_of finding.old.owners) }
    requires gathered { OfObjects H.told (image (P.place book.old) (H.outside host.old).now)
        (HasGathered G.gathers (bare_store directory.now) (place_of finding.old.places)
        gatherer.old) }
    ensures found { OnOk result (IsFoundTo H.told
        (image (P.place book.old) (H.outside host.old).now)
        (held objects.now) directory.now id (place_of finding.new.places)
        (names_of finding.new.names) (owner_of finding.new.owners)) }
    ensures gathered { OnOk result (OfObjects H.told
        (image (P.place book.old) (H.outside host.old).now) (HasGathered G.gathers
        (bare_store directory.now) (place_of finding.new.places) gatherer.new)) }
    ensures searches { Searches P.place P.numbers P.stands H.told objects.now book.old book.new
        (H.outside host.old) (H.outside host.new) result }
{
    if id % 2 == 0 {
        return Ok(());
    }
    let row = read_record(alloc, host, book, objects, id)?;
    find_row(alloc, objects, directory, finding, &row, id)?;
    Ok(gatherer.gather(row.soup, row.uid, &row.skeleton)?)
}

/// Finds the objects of all records of entries, and which objects they name: each with an even id
/// above 0 must be named. All entries are told.
fn find_records<P: PageBook, G: Gatherer, H: Host>(
    alloc: Global,
    host: &mut H,
    book: &mut P,
    objects: &Objects,
    directory: &Directory,
    gatherer: &mut G,
) -> Result<Finding, BookFault>
    requires can { CanRead P.place P.numbers P.stands H.told objects.now book.old
        (H.outside host.old) }
    requires root { IsDirectory H.told (image (P.place book.old) (H.outside host.old).now)
        directory.now }
    requires begun { G.gathers (bare_store directory.now) nothing gatherer.old }
    ensures found { IfOk result (λ finding. FindsAll H.told
        (image (P.place book.old) (H.outside host.old).now) (held objects.now) directory.now
        (place_of finding.places) (names_of finding.names)) }
    ensures gathered { IfOk result (λ finding. OfObjects H.told
        (image (P.place book.old) (H.outside host.old).now) (HasGathered G.gathers
        (bare_store directory.now) (place_of finding.places) gatherer.new)) }
    ensures searches { Searches P.place P.numbers P.stands H.told objects.now book.old book.new
        (H.outside host.old) (H.outside host.new) result }
{
    let places = PlaceTable::new(alloc);
    let names = NameTable::new(alloc);
    let owners = no_owners(alloc);
    let mut finding = Finding {
        places,
        names,
        owners,
    };
    let ids = objects.ids_after(alloc, 0)?;
    let mut last = 0;
    for id in &ids {
        find_object(
            alloc,
            host,
            book,
            objects,
            directory,
            &mut finding,
            gatherer,
            last,
            *id,
        )?;
        last = *id;
    }
    if !are_owned(&ids, &finding.owners) {
        return Err(BookFault::NotStore);
    }
    Ok(finding)
}

/// Finds the store that the objects of an open book write down, and tells its entries.
fn find_catalog<P: PageBook, G: Gatherer, H: Host>(
    alloc: Global,
    host: &mut H,
    book: &mut P,
) -> Result<(Catalog, G), BookFault>
    requires stands { P.stands H.told book.old (H.outside host.old) }
    ensures sound { IfOk result (λ found.
        IsSound H.told found.0 (P.numbers book.new) (P.place book.new) (H.outside host.new)) }
    ensures found { let now = image (P.place book.old) (H.outside host.old).now in
        IsTrue H.told → IfOk result (λ found.
        (s : PlainStore) × (readable now ≡ Some s) × StandsFor found.0 s now) }
    ensures gathered { IfOk result (λ found. OfObjects H.told
        (image (P.place book.old) (H.outside host.old).now) (HasGathered G.gathers
        (bare_store found.0.directory) (place_of found.0.places) found.1)) }
    ensures reads { BookReads P.place P.numbers P.stands H.told book.old book.new
        (H.outside host.old) (H.outside host.new) }
    ensures ends { SearchEnds H.told (P.place book.old)
        (H.outside host.old) (H.outside host.new) result }
{
    let objects = scan_objects(alloc, host, book)?;
    let directory = read_root(alloc, host, book, &objects)?;
    let mut gatherer = G::begin(alloc, &directory)?;
    let finding = find_records(alloc, host, book, &objects, &directory, &mut gatherer)?;
    if cap(host.blocks(book.unit())) < book.live() {
        return Err(BookFault::NotStore);
    }
    let catalog = Catalog {
        objects,
        directory,
        places: finding.places,
        names: finding.names,
        hint: 0,
    };
    Ok((catalog, gatherer))
}

/// Opens the book of a unit, and finds the store that its objects write down. Each entry's record
/// is read once, and told.
pub fn open_catalog<P: PageBook, G: Gatherer, H: Host>(
    alloc: Global,
    host: &mut H,
    unit: Unit,
) -> Result<(P, Catalog, G), BookFault>
    requires enough { 13 ≤ (H.outside host.old).blocks unit }
    requires not_too_many { (H.outside host.old).blocks unit ≤ 4099 }
    requires at_rest { IsTrue H.told → IsDurable unit (H.outside host.old).now }
    ensures { OpensCatalog P.place P.numbers P.stands G.gathers H.told unit
        (H.outside host.old) (H.outside host.new) result }
{
    let mut book: P = P::open(alloc, host, unit)?;
    let (catalog, gatherer) = find_catalog::<P, G, H>(alloc, host, &mut book)?;
    Ok((book, catalog, gatherer))
}
