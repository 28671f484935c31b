//! A change is written, and the memory follows.
ghost use Rattle.std.specs.Prelude.{IsTrue, ◌≡◌, ◌≢◌, ◌++◌, [], ℕ, true, false, Some, None, OnOk};
ghost use Rattle.std.specs.Prelude.{IfOk};
ghost use Rattle.newt_soupdir.specs.Bare.{bare_store};
ghost use Rattle.newt_soupdir.specs.declared.rows.Directory.{Directory as Dir};
ghost use Rattle.newt_spec_graph.specs.Lists.{Among};
ghost use Rattle.newt_spec_store.specs.Valid.{well_formed};
ghost use Rattle.newt_objects_commit.specs.Batch.{AreOnce, CanBePlanned, bytes_if};
ghost use Rattle.newt_objects_commit.specs.Batch.{large_ids};
ghost use Rattle.newt_objects_commit.specs.Calls.{CommitsObjects};
ghost use Rattle.newt_objects_commit.specs.Commit.{AreKept};
ghost use Rattle.newt_objects_commit.specs.Names.{names_of, IsReady};
ghost use Rattle.newt_objects_commit.specs.Places.{place_of};
ghost use Rattle.newt_objects_commit.specs.declared.batch.NewEntry.{NewEntry as NewOne};
ghost use Rattle.newt_store_catalog.specs.Stands.{IsSound};
ghost use Rattle.newt_store.specs.Calls.{LeavesStore};
ghost use Rattle.newt_store.specs.Next.{Goes, IsNew, IsNextOf, all_gone, names_replaced};
ghost use Rattle.newt_store.specs.Next.{directory_after, next_bytes, written_bytes};
ghost use Rattle.newt_store.specs.Writes.{FollowsNames, FollowsPlaces, MakesNext, TurnsUnit};
ghost use Rattle.newt_store.specs.Writes.{WritesObjects};

use crate::next::{Gone, Next};
use crate::plan::ids_of;
use newt_base::Refusal;
use newt_host::Host;
use newt_objects::Objects;
use newt_objects_commit::{NameTable, NewEntry, PlaceTable, commit_plans, plan_objects};
use newt_pagebook::{Batch, PageBook};
use newt_soupdir::{Directory, write_directory};
use newt_store_catalog::Catalog;
use newt_store_change::StoreFault;
use std::alloc::{AllocError, Global};

/// The one object, or none.
fn one_object(alloc: Global, found: Option<u32>) -> Result<Vec<u32>, AllocError>
    ensures real { IfOk result (λ ids. (id : ℕ) → Among ids.items id → found ≡ Some id) }
    ensures all { IfOk result (λ ids. (id : ℕ) → found ≡ Some id → Among ids.items id) }
    ensures once { IfOk result (λ ids. AreOnce ids.items) }
{
    let mut ids = Vec::new(alloc);
    let Some(id) = found else {
        return Ok(ids);
    };
    ids.push(id)?;
    Ok(ids)
}

/// The objects of the records of the entries that go.
fn gone_records(alloc: Global, places: &PlaceTable, gone: Gone) -> Result<Vec<u32>, AllocError>
    requires { (sig uid other_sig other_uid id : ℕ) → place_of places.now sig uid ≡ Some id
        → place_of places.now other_sig other_uid ≡ Some id
        → (sig ≡ other_sig) × (uid ≡ other_uid) }
    ensures real { IfOk result (λ ids. (id : ℕ) → Among ids.items id → (sig : ℕ) × (uid : ℕ) × Goes
        gone sig uid × (place_of places.now sig uid ≡ Some id)) }
    ensures all { IfOk result (λ ids. (sig uid id : ℕ) → Goes gone sig uid → place_of places.now sig
        uid ≡ Some id → Among ids.items id) }
    ensures once { IfOk result (λ ids. AreOnce ids.items) }
{
    match gone {
        Gone::Nothing => Ok(Vec::new(alloc)),
        Gone::OneEntry(sig, uid) => one_object(alloc, places.get(sig, uid)),
        Gone::AllOf(sig) => {
            let ids = places.objects_of(alloc, sig)?;
            Ok(ids)
        }
    }
}

/// Appends what a record that is put over another names no more.
fn append_replaced(
    names: &NameTable,
    entry: &Option<NewEntry>,
    ids: &mut Vec<u32>,
) -> Result<(), AllocError>
    ensures { OnOk result (ids.new.items ≡ ids.old.items ++ names_replaced (names_of names.now)
        entry.now) }
{
    match entry {
        Some(e) => names.append(e.id, ids),
        None => Ok(()),
    }
}

/// The objects that go: the records of the entries that go, and what these and a record that is put
/// over another name no more.
fn gone_objects(
    alloc: Global,
    names: &NameTable,
    records: &[u32],
    entry: &Option<NewEntry>,
) -> Result<Vec<u32>, AllocError>
    ensures { IfOk result (λ ids. ids.items ≡ all_gone (names_of names.now) records.now entry.now) }
{
    let mut ids = Vec::new(alloc);
    for id in records {
        ids.push(*id)?;
        names.append(*id, &mut ids)?;
    }
    append_replaced(names, entry, &mut ids)?;
    Ok(ids)
}

/// What the record of the new entry names, nothing where there is none.
fn new_names(alloc: Global, entry: &Option<NewEntry>) -> Result<Vec<u32>, AllocError>
    ensures { IfOk result (λ ids. (e : NewOne) → entry.now ≡ Some e → ids.items ≡ large_ids e) }
{
    match entry {
        Some(e) => ids_of(alloc, &e.larges),
        None => Ok(Vec::new(alloc)),
    }
}

/// What a change takes from memory before it is written: the records that go, all objects that go,
/// and what the record of the new entry names.
#[derive(Drop)]
struct Gathered {
    records: Vec<u32>,
    gone: Vec<u32>,
    named: Vec<u32>,
}

/// Gathers what a change takes from memory.
fn gather(
    alloc: Global,
    places: &PlaceTable,
    names: &NameTable,
    next: &Next,
) -> Result<Gathered, AllocError>
    requires { (sig uid other_sig other_uid id : ℕ) → place_of places.now sig uid ≡ Some id
        → place_of places.now other_sig other_uid ≡ Some id
        → (sig ≡ other_sig) × (uid ≡ other_uid) }
    ensures real { IfOk result (λ g. (id : ℕ) → Among g.records.items id → (sig : ℕ) × (uid : ℕ) ×
        Goes next.now.gone sig uid × (place_of places.now sig uid ≡ Some id)) }
    ensures all { IfOk result (λ g. (sig uid id : ℕ) → Goes next.now.gone sig uid → place_of
        places.now sig uid ≡ Some id → Among g.records.items id) }
    ensures once { IfOk result (λ g. AreOnce g.records.items) }
    ensures gone { IfOk result (λ g. g.gone.items ≡ all_gone (names_of names.now) g.records.items
        next.now.entry) }
    ensures named { IfOk result (λ g. (e : NewOne) → next.now.entry ≡ Some e → g.named.items ≡
        large_ids e) }
{
    let records = gone_records(alloc, places, next.gone)?;
    let gone = gone_objects(alloc, names, &records, &next.entry)?;
    let named = new_names(alloc, &next.entry)?;
    Ok(Gathered {
        records,
        gone,
        named,
    })
}

/// Takes the memory that the names of the new entry need.
fn prepare_names(
    alloc: Global,
    names: &mut NameTable,
    entry: &Option<NewEntry>,
) -> Result<(), AllocError>
    ensures same { (r : ℕ) → names_of names.new r ≡ names_of names.old r }
    ensures ready { OnOk result ((e : NewOne) → entry.now ≡ Some e → IsReady names.new e.id) }
{
    match entry {
        Some(e) => names.prepare(alloc, e.id),
        None => Ok(()),
    }
}

/// Forgets what the records of the entries that go name.
fn forget_names(names: &mut NameTable, records: &[u32])
    ensures gone { (r : ℕ) → Among records.now r → names_of names.new r ≡ [] }
    ensures others { (r : ℕ) → (Among records.now r → ⊥)
        → names_of names.new r ≡ names_of names.old r }
    ensures ready { (r : ℕ) → (Among records.now r → ⊥) → IsReady names.old r
        → IsReady names.new r }
{
    for id in records {
        names.remove(*id);
    }
}

/// Keeps what the record of the new entry names, if there is one.
fn name_new(names: &mut NameTable, entry: &Option<NewEntry>, ids: Vec<u32>)
    requires ready { (e : NewOne) → entry.now ≡ Some e → IsReady names.old e.id }
    ensures named { (e : NewOne) → entry.now ≡ Some e → names_of names.new e.id ≡ ids.items }
    ensures others { (r : ℕ) → ((e : NewOne) → entry.now ≡ Some e → e.id ≢ r)
        → names_of names.new r ≡ names_of names.old r }
{
    if let Some(e) = entry {
        names.set(e.id, ids);
    }
}

/// Forgets the places of the entries that go.
fn forget_gone(places: &mut PlaceTable, gone: Gone)
    ensures { FollowsPlaces gone (place_of places.old) (place_of places.new) }
{
    match gone {
        Gone::Nothing => {}
        Gone::OneEntry(sig, uid) => places.remove(sig, uid),
        Gone::AllOf(sig) => places.remove_soup(sig),
    }
}

/// Keeps the place of the new entry, if there is one.
fn keep_new(places: &mut PlaceTable, entry: &Option<NewEntry>) -> Result<(), AllocError>
    ensures kept { OnOk result ((e : NewOne) → entry.now ≡ Some e → place_of places.new e.sig e.uid
        ≡ Some e.id) }
    ensures others { OnOk result ((sig uid : ℕ) → (IsNew entry.now sig uid → ⊥) → place_of
        places.new sig uid ≡ place_of places.old sig uid) }
{
    if let Some(e) = entry {
        let _old = places.insert(e.sig, e.uid, e.id)?;
    }
    Ok(())
}

/// Whether the new entry has its place already, since it is put in the place of another.
fn is_placed(places: &PlaceTable, entry: &Option<NewEntry>) -> bool
    ensures placed { result ≡ true → (e : NewOne) → entry.now ≡ Some e
        → place_of places.now e.sig e.uid ≡ Some e.id }
    ensures not_placed { result ≡ false → (e : NewOne) → entry.now ≡ Some e
        → place_of places.now e.sig e.uid ≢ Some e.id }
{
    match entry {
        Some(e) => places.get(e.sig, e.uid) == Some(e.id),
        None => false,
    }
}

/// Forgets the place of the new entry, if there is one that had no place before.
fn forget_new(places: &mut PlaceTable, entry: &Option<NewEntry>, was_placed: bool)
    ensures gone { was_placed ≡ false → (sig uid : ℕ) → IsNew entry.now sig uid
        → place_of places.new sig uid ≡ None }
    ensures stays { was_placed ≡ true → (sig uid : ℕ)
        → place_of places.new sig uid ≡ place_of places.old sig uid }
    ensures others { (sig uid : ℕ) → (IsNew entry.now sig uid → ⊥)
        → place_of places.new sig uid ≡ place_of places.old sig uid }
{
    if was_placed {
        return;
    }
    if let Some(e) = entry {
        places.remove(e.sig, e.uid);
    }
}

/// Where the search for a free object id goes on.
fn hint_after(entry: &Option<NewEntry>, was_placed: bool, hint: u32) -> u32 {
    match entry {
        Some(e) if !was_placed => e.id / 2 + 1,
        _ => hint,
    }
}

/// The directory becomes the one that was written, if it does not stay.
fn follow_directory(directory: &mut Directory, written: Option<Directory>)
    ensures { directory.new ≡ directory_after directory.old written }
{
    if let Some(new) = written {
        *directory = new;
    }
}

/// The memory follows what was written: the entries that go have no places, and their records name
/// nothing; the new entry's record names its large binaries; the directory is the new one, if there
/// is one. Answers the change's answer.
fn follow_written(
    names: &mut NameTable,
    places: &mut PlaceTable,
    directory: &mut Directory,
    next: Next,
    gathered: Gathered,
) -> u32
    requires ready { (e : NewOne) → next.entry ≡ Some e → IsReady names.old e.id }
    requires stays { (e : NewOne) → next.entry ≡ Some e →
        Among gathered.records.items e.id → ⊥ }
    ensures answer { result ≡ next.answer }
    ensures directory { directory.new ≡ directory_after directory.old next.directory }
    ensures places { FollowsPlaces next.gone (place_of places.old) (place_of places.new) }
    ensures names { FollowsNames next.entry gathered.records.items gathered.named.items
        (names_of names.old) (names_of names.new) }
{
    forget_names(names, &gathered.records);
    name_new(names, &next.entry, gathered.named);
    forget_gone(places, next.gone);
    follow_directory(directory, next.directory);
    next.answer
}

/// The bytes of the directory, if it is written.
fn directory_text(
    alloc: Global,
    directory: &Option<Directory>,
) -> Result<Option<Vec<u8>>, AllocError>
    requires formed { (d : Dir) → directory.now ≡ Some d → IsTrue (well_formed (bare_store d)) }
    ensures { IfOk result (λ bytes. bytes_if bytes ≡ written_bytes directory.now) }
{
    match directory {
        Some(written) => {
            let bytes = write_directory(alloc, written)?;
            Ok(Some(bytes))
        }
        None => Ok(None),
    }
}

/// Writes what a change makes, as one batch: the directory, if it does not stay, the new entry's
/// record and large binaries, and no object that goes.
fn write_next<P: PageBook, H: Host>(
    alloc: Global,
    host: &mut H,
    book: &mut P,
    objects: &mut Objects,
    next: &Next,
    gone: &[u32],
) -> Result<(), StoreFault>
    requires stands { P.stands H.told book.old (H.outside host.old) }
    requires kept { AreKept H.told objects.old (P.numbers book.old) (P.place book.old)
        (H.outside host.old) }
    requires formed { (d : Dir) → next.now.directory ≡ Some d
        → IsTrue (well_formed (bare_store d)) }
    requires can { CanBePlanned objects.old next.now.entry gone.now }
    ensures commits { CommitsObjects P.place P.numbers P.stands H.told objects.new
        (next_bytes next.now objects.old gone.now) 0 book.old book.new
        (H.outside host.old) (H.outside host.new) result }
    ensures writes { WritesObjects H.told (P.place book.old) next.now gone.now
        objects.old objects.new (H.outside host.old) (H.outside host.new) result }
{
    let bytes = directory_text(alloc, &next.directory)?;
    let mut batch = Batch::new(alloc);
    plan_objects(objects, &bytes, &next.entry, gone, &mut batch)?;
    match commit_plans(host, book, objects, &batch) {
        Ok(()) => Ok(()),
        Err(fault) => Err(fault),
    }
}

/// Makes of a store what was planned, and answers the change's answer. Full where it would cost
/// more pages than the unit has. All memory is taken before anything is written.
pub(crate) fn carry_out<P: PageBook, H: Host>(
    alloc: Global,
    host: &mut H,
    book: &mut P,
    catalog: &mut Catalog,
    next: Next,
) -> Result<u32, StoreFault>
    requires stands { P.stands H.told book.old (H.outside host.old) }
    requires sound { IsSound H.told catalog.old (P.numbers book.old) (P.place book.old)
        (H.outside host.old) }
    requires next { IsNextOf catalog.old next }
    ensures leaves { LeavesStore P.place P.numbers P.stands H.told catalog.new book.old book.new
        (H.outside host.old) (H.outside host.new) result }
    ensures makes { MakesNext H.told (P.place book.old) next catalog.old catalog.new
        (H.outside host.old) (H.outside host.new) result }
    ensures unit { TurnsUnit H.told (P.place book.old) next catalog.old
        (H.outside host.old) (H.outside host.new) }
{
    let gathered = gather(alloc, &catalog.places, &catalog.names, &next)?;
    prepare_names(alloc, &mut catalog.names, &next.entry)?;
    let was_placed = is_placed(&catalog.places, &next.entry);
    keep_new(&mut catalog.places, &next.entry)?;
    match write_next(
        alloc,
        host,
        book,
        &mut catalog.objects,
        &next,
        &gathered.gone,
    ) {
        Ok(()) => {
            catalog.hint = hint_after(&next.entry, was_placed, catalog.hint);
            let answer = follow_written(
                &mut catalog.names,
                &mut catalog.places,
                &mut catalog.directory,
                next,
                gathered,
            );
            Ok(answer)
        }
        Err(fault) => {
            forget_new(&mut catalog.places, &next.entry, was_placed);
            Err(fault)
        }
    }
}
