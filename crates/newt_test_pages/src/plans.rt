//! Objects by plans: what is put is read back, also when the card is opened again. A table is
//! played on both books. A row is one of these:
//!
//! - `put ID SIZE`, `delete ID`: an object comes, in the place of another of its id, or goes.
//! - `forget`: three plans are made and each is forgotten: to put the object 7 again, to put the
//!   object 9, and to delete the object 8.
//! - `live PAGES`: so many pages are live.
//! - `next FROM PAGE`: the first page from a number on.
//! - `held ID:SIZE ..`: these objects are there, and no others, also when the card is opened again.
ghost use Rattle.std.specs.Prelude.{◌≡◌, ◌<◌, ◌^◌, ℕ, [], true, length, OnOk, IfOk};
ghost use Rattle.newt_test_pages.specs.Changes.{AreAtRest, AreStill};
ghost use Rattle.newt_host.specs.Outside.{Outside};
ghost use Rattle.newt_memhost.specs.Outside.{outside_of};
ghost use Rattle.newt_pagebook.specs.Book.{Numbers};

use crate::card::{expect, fresh, numbers, opened};
use crate::changes::{assert_kept, delete, delete_plan, put, put_plan, scanned};
use crate::objects::text;
use newt_memhost::MemHost;
use newt_objects::Objects;
use newt_pagebook::{Batch, PageBook};
use newt_pageplain::PlainBook;
use newt_pages::DiskBook;
use std::alloc::{AllocError, Global};
use std::process::Abort;
use std::test::Fail;

/// Plans to put an object, and forgets the plan.
fn put_and_forget(
    alloc: Global,
    objects: &mut Objects,
    id: u32,
    bytes: &[u8],
) -> Result<(), AllocError>
    requires none { objects.old.plans ≡ [] }
    requires short { length bytes.now < 2 ^ 32 }
    ensures { OnOk result (AreStill objects.old objects.new) }
{
    let _batch = put_plan(alloc, objects, id, bytes)?;
    objects.forget();
    Ok(())
}

/// Plans to delete an object that is there, and forgets the plan.
fn delete_and_forget(
    rt: &impl Abort,
    alloc: Global,
    objects: &mut Objects,
    id: u32,
) -> Result<(), AllocError>
    requires { objects.old.plans ≡ [] }
    ensures { OnOk result (AreStill objects.old objects.new) }
{
    assert!(rt; objects.length(id).is_some());
    let _batch = delete_plan(alloc, objects, id)?;
    objects.forget();
    Ok(())
}

/// Plans to put an object again, to put another, and to delete one, and forgets each plan.
fn plan_and_forget(rt: &impl Abort, alloc: Global, objects: &mut Objects) -> Result<(), Fail>
    requires { objects.old.plans ≡ [] }
    ensures { OnOk result ((numbers : Numbers) (unit : ℕ) (outside : Outside) → AreAtRest
        objects.old numbers unit outside → AreAtRest objects.new numbers unit outside) }
{
    let bytes = text(alloc, 400)?;
    put_and_forget(alloc, objects, 7, &bytes)?;
    put_and_forget(alloc, objects, 9, &bytes)?;
    delete_and_forget(rt, alloc, objects, 8)?;
    Ok(())
}

/// The objects of a row, each with its size.
fn objects_of(alloc: Global, words: &str) -> Result<Vec<(u8, u32)>, AllocError> {
    let mut all = Vec::new(alloc);
    for word in words.split_whitespace() {
        let (id, size) = word.split_once(':').unwrap_or((word, ""));
        let id: u8 = id.parse().unwrap_or(0);
        let size: u32 = size.parse().unwrap_or(0);
        all.push((id, size))?;
    }
    Ok(all)
}

/// Looks for what a row says of pages or objects, and changes nothing.
fn look<P: PageBook>(
    rt: &impl Abort,
    alloc: Global,
    host: &mut MemHost,
    book: &mut P,
    objects: &Objects,
    row: &str,
) -> Result<(), Fail>
    requires book { P.stands true book.old (outside_of host.old) × (P.place book.old ≡ 0) }
    requires objects { AreAtRest objects.now (P.numbers book.old) 0 (outside_of host.old) }
    ensures book { OnOk result (P.stands true book.new (outside_of host.new) ×
        (P.place book.new ≡ 0)) }
    ensures objects { OnOk result (AreAtRest objects.now (P.numbers book.new) 0
        (outside_of host.new)) }
{
    let (word, rest) = row.split_once(' ').unwrap_or((row, ""));
    let (one, other, _, _) = numbers(rest);
    match word {
        "live" => expect(book.live() == one, row),
        "next" => expect(book.next_page(one) == Some(other), row),
        "held" => assert_kept(rt, alloc, host, book, objects, &objects_of(alloc, rest)?),
        _ => Err(Fail::new("no row")),
    }
}

/// Plays one row.
fn play_row<P: PageBook>(
    rt: &impl Abort,
    alloc: Global,
    host: &mut MemHost,
    book: &mut P,
    objects: &mut Objects,
    row: &str,
) -> Result<(), Fail>
    requires book { P.stands true book.old (outside_of host.old) × (P.place book.old ≡ 0) }
    requires objects { AreAtRest objects.old (P.numbers book.old) 0 (outside_of host.old) }
    ensures book { OnOk result (P.stands true book.new (outside_of host.new) ×
        (P.place book.new ≡ 0)) }
    ensures objects { OnOk result (AreAtRest objects.new (P.numbers book.new) 0
        (outside_of host.new)) }
{
    let (word, rest) = row.split_once(' ').unwrap_or((row, ""));
    let (id, size, _, _) = numbers(rest);
    match word {
        "put" => put(alloc, host, book, objects, (id % 256) as u8, size),
        "delete" => delete(rt, alloc, host, book, objects, id),
        "forget" => {
            plan_and_forget(rt, alloc, objects)?;
            Ok(())
        }
        _ => look(rt, alloc, host, book, objects, row),
    }
}

/// Plays the rows of a table, one after another.
fn play_rows<P: PageBook>(
    rt: &impl Abort,
    alloc: Global,
    host: &mut MemHost,
    book: &mut P,
    objects: &mut Objects,
    table: &str,
) -> Result<(), Fail>
    requires book { P.stands true book.old (outside_of host.old) × (P.place book.old ≡ 0) }
    requires objects { AreAtRest objects.old (P.numbers book.old) 0 (outside_of host.old) }
{
    for row in table.lines() {
        play_row(rt, alloc, host, book, objects, row)?;
    }
    Ok(())
}

/// Plays a table on a card of so many blocks.
fn play<P: PageBook>(rt: &impl Abort, alloc: Global, blocks: u32, table: &str) -> Result<(), Fail> {
    let mut host = fresh::<P>(rt, alloc, blocks)?;
    let mut book: P = opened(rt, alloc, &mut host)?;
    let mut objects = scanned(alloc, &mut host, &mut book)?;
    play_rows(rt, alloc, &mut host, &mut book, &mut objects, table)
}

/// The same with each book.
fn play_both(rt: &impl Abort, alloc: Global, blocks: u32, table: &str) -> Result<(), Fail> {
    play::<PlainBook>(rt, alloc, blocks, table)?;
    play::<DiskBook>(rt, alloc, blocks, table)
}

/// Each object is put into a batch of its own, and is there beside the others.
const PUTS: &str = "put 3 0
put 5 1
put 6 500
put 8 501
put 9 1000000
live 2005
held 3:0 5:1 6:500 8:501 9:1000000";

/// What is put again is there instead: no part of the longer object is left.
const SHORTER: &str = "put 7 1200
put 8 501
live 5
put 7 400
live 3
held 7:400 8:501";

/// A deleted object's pages are gone, and their numbers are given again.
const DELETES: &str = "put 7 1200
put 8 501
delete 7
next 0 3
held 8:501
put 9 501
next 2 3
held 8:501 9:501";

/// What is forgotten was never there, and may be planned again.
const FORGOTTEN: &str = "put 7 1200
put 8 501
forget
held 7:1200 8:501
put 9 400
held 7:1200 8:501 9:400";

#[test]
fn objects_are_put_and_found_again(rt: HostRuntime) -> Result<(), Fail> {
    play_both(&rt, rt.alloc(), 520, PUTS)
}

#[test]
fn a_shorter_object_leaves_no_old_part(rt: HostRuntime) -> Result<(), Fail> {
    play_both(&rt, rt.alloc(), 13, SHORTER)
}

#[test]
fn a_deleted_object_is_gone(rt: HostRuntime) -> Result<(), Fail> {
    play_both(&rt, rt.alloc(), 13, DELETES)
}

#[test]
fn a_forgotten_plan_changes_nothing(rt: HostRuntime) -> Result<(), Fail> {
    play_both(&rt, rt.alloc(), 13, FORGOTTEN)
}

/// The batch with one put and one delete.
fn begun(alloc: Global) -> Result<Batch, AllocError>
    ensures { IfOk result (λ batch. length batch.puts < 2 ^ 32) }
{
    let mut batch = Batch::new(alloc);
    batch.put(5, &[0; 512])?;
    batch.delete(9)?;
    Ok(batch)
}

/// The numbers of the pages that are put for an object of so many bytes, after those of the batch;
/// none where there are too few page numbers.
fn numbers_for(alloc: Global, size: u32) -> Result<Option<Vec<u32>>, AllocError> {
    let bytes = text(alloc, size)?;
    let mut objects = Objects::empty(alloc);
    let mut batch = begun(alloc)?;
    match objects.plan_put(7, &bytes, &mut batch) {
        Ok(()) => Ok(Some(put_numbers(alloc, &batch)?)),
        Err(_) => Ok(None),
    }
}

fn put_numbers(alloc: Global, batch: &Batch) -> Result<Vec<u32>, AllocError> {
    let mut numbers = Vec::new(alloc);
    for put in batch.puts() {
        numbers.push(put.0)?;
    }
    Ok(numbers)
}

/// The same, where there are enough page numbers.
fn numbers_given(alloc: Global, size: u32) -> Result<Vec<u32>, Fail> {
    Ok(numbers_for(alloc, size)?.ok_or("the object is not planned")?)
}

fn assert_few(rt: &impl Abort, numbers: &[u32]) {
    assert!(rt; numbers == [5, 0, 1, 2, 3, 4, 6, 7, 8, 10, 11].as_slice());
}

fn assert_all(rt: &impl Abort, numbers: &[u32]) {
    assert!(rt; numbers.len() == 65_535 && numbers.last() == Some(&65_535));
}

#[test]
fn every_page_number_is_given(rt: HostRuntime) -> Result<(), Fail> {
    let alloc = rt.alloc();
    assert_few(&rt, &numbers_given(alloc, 5_000)?);
    assert_all(&rt, &numbers_given(alloc, 65_534 * 500)?);
    assert!(&rt; numbers_for(alloc, 65_534 * 500 + 1)?.is_none());
    Ok(())
}
