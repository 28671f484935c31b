//! A store restored to a unit from the stream of its backup, and the reply.
ghost use Rattle.std.specs.Prelude.{◌≡◌, ◌≤◌, ℕ, List, IsTrue, IfOk, IfErr, Ok, Err, None, is_some};
ghost use Rattle.newt_host.specs.Meanings.{device_on};
ghost use Rattle.newt_host.specs.Moments.{IsDurable, image};
ghost use Rattle.newt_host.specs.Outside.{OnlyReads};
ghost use Rattle.newt_nsof_read.specs.Reading.{decoded};
ghost use Rattle.newt_store_catalog.specs.Readable.{readable};
ghost use Rattle.newt_store_catalog.specs.Reading.{ReadEnds};
ghost use Rattle.newt_backup.specs.Contents.{AreKept, store_in};
ghost use Rattle.newt_store_backup.specs.Restored.{IsAsked, IsDone, MayTake, RestoresStore};
ghost use Rattle.newt_store_backup.specs.Restored.{Restores, refused_on, restored_text};

use crate::restore::{fits_on, restore_store};
use newt_backup::{BackupFault, FullEntry, read_backup};
use newt_base::Refusal;
use newt_graph::Graph;
use newt_host::{Host, Unit};
use newt_nsof_read::{NsofFault, decode};
use newt_pagebook::{BookFault, LEAST_BLOCKS, MOST_BLOCKS, PageBook, Stop};
use newt_reply::{Reply, write_reply};
use newt_soupdir::Directory;
use newt_store::Store;
use std::alloc::{AllocError, Global};

/// The directory and the entries of the store that has a graph as its backup, or that none has.
fn read_graph(
    alloc: Global,
    graph: Graph,
) -> Result<Result<(Directory, Vec<FullEntry>), Refusal>, AllocError>
    ensures kept { IfOk result (λ read. IfOk read (λ x. AreKept x.0 x.1.items)) }
    ensures found { IfOk result (λ read. IfOk read (λ x.
        IsAsked (Ok graph) (Ok (store_in x.0 x.1.items)))) }
    ensures bad { IfOk result (λ read. IfErr read (λ refusal. IsAsked (Ok graph) (Err refusal))) }
{
    match read_backup(alloc, &graph) {
        Ok(contents) => Ok(Ok(contents)),
        Err(BackupFault::Bad) => Ok(Err(Refusal::Backup)),
        Err(BackupFault::Memory) => Err(AllocError),
    }
}

/// The directory and the entries of the store whose backup an input spells, or why there is none.
/// Input and graph are let go before they are used.
fn read_input(
    alloc: Global,
    input: Vec<u8>,
) -> Result<Result<(Directory, Vec<FullEntry>), Refusal>, AllocError>
    ensures kept { IfOk result (λ read. IfOk read (λ x. AreKept x.0 x.1.items)) }
    ensures found { IfOk result (λ read. IfOk read (λ x.
        IsAsked (decoded input.items) (Ok (store_in x.0 x.1.items)))) }
    ensures bad { IfOk result (λ read. IfErr read (λ refusal.
        IsAsked (decoded input.items) (Err refusal))) }
{
    match decode(alloc, &input) {
        Ok(graph) => read_graph(alloc, graph),
        Err(NsofFault::Malformed) => Ok(Err(Refusal::Malformed)),
        Err(NsofFault::Compressed) => Ok(Err(Refusal::Compressed)),
        Err(NsofFault::Memory) => Err(AllocError),
    }
}

/// Whether a unit has a readable store.
fn has_store<P: PageBook, H: Host>(alloc: Global, host: &mut H, unit: Unit) -> Result<bool, Stop>
    requires enough { 13 ≤ (H.outside host.old).blocks unit }
    requires not_too_many { (H.outside host.old).blocks unit ≤ 4099 }
    requires at_rest { IsTrue H.told → IsDurable unit (H.outside host.old).now }
    ensures found { IsTrue H.told → IfOk result (λ yes.
        yes ≡ is_some (readable (image unit (H.outside host.old).now))) }
    ensures looks { OnlyReads unit (H.outside host.old) (H.outside host.new) }
    ensures ends { ReadEnds unit (H.outside host.old) (H.outside host.new) result }
{
    match Store::<P>::open(alloc, host, unit) {
        Ok(_) => Ok(true),
        Err(BookFault::NotStore) => Ok(false),
        Err(BookFault::Memory) => Err(Stop::Memory),
        Err(BookFault::Device) => Err(Stop::Device(unit)),
    }
}

/// Why a store is not restored to a unit, if it is not.
fn refusal_on<P: PageBook, H: Host>(
    alloc: Global,
    host: &mut H,
    unit: Unit,
    is_attached: bool,
    directory: &Directory,
    entries: &[FullEntry],
) -> Result<Option<Refusal>, Stop>
    requires attached { is_attached ≡ is_some ((H.outside host.old).card unit) }
    requires at_rest { IsTrue H.told → IsDurable unit (H.outside host.old).now }
    requires kept { AreKept directory.now entries.now }
    ensures refusal { IsTrue H.told → IfOk result (λ refusal. refusal
        ≡ refused_on (store_in directory.now entries.now) (device_on unit (H.outside host.old))) }
    ensures none { result ≡ Ok None
        → MayTake ((H.outside host.old).blocks unit) (store_in directory.now entries.now) }
    ensures looks { OnlyReads unit (H.outside host.old) (H.outside host.new) }
    ensures ends { ReadEnds unit (H.outside host.old) (H.outside host.new) result }
{
    if !is_attached {
        return Ok(Some(Refusal::Unit));
    }
    let blocks = host.blocks(unit);
    if blocks < LEAST_BLOCKS || MOST_BLOCKS < blocks {
        return Ok(Some(Refusal::Blocks));
    }
    if has_store::<P, H>(alloc, host, unit)? {
        return Ok(Some(Refusal::Store));
    }
    if !fits_on(alloc, directory, entries, blocks)? {
        return Ok(Some(Refusal::Full));
    }
    Ok(None)
}

/// The line of a refusal.
fn refused_line(alloc: Global, refusal: Refusal) -> Result<Vec<u8>, AllocError>
    ensures { IfOk result (λ text. text.items ≡ restored_text (Err refusal)) }
{
    write_reply(alloc, &Reply::Refused(refusal))
}

/// The line of a restored store: its signature and its name.
fn restored_line(
    alloc: Global,
    directory: &Directory,
    entries: &[FullEntry],
) -> Result<Vec<u8>, AllocError>
    ensures { IfOk result (λ text. text.items
        ≡ restored_text (Ok (store_in directory.now entries.now))) }
{
    let name = directory.name.copy()?;
    write_reply(alloc, &Reply::Store(directory.sig, name))
}

/// Restores a store to a unit that takes it, and answers its line, for which memory is there before
/// anything happens.
fn restore_here<P: PageBook, H: Host>(
    alloc: Global,
    host: &mut H,
    unit: Unit,
    directory: &Directory,
    entries: &[FullEntry],
) -> Result<Vec<u8>, Stop>
    requires kept { AreKept directory.now entries.now }
    requires may { MayTake ((H.outside host.old).blocks unit)
        (store_in directory.now entries.now) }
    ensures text { IfOk result (λ text. text.items
        ≡ restored_text (Ok (store_in directory.now entries.now))) }
    ensures restores { RestoresStore H.told unit (store_in directory.now entries.now)
        (H.outside host.old) (H.outside host.new) result }
{
    let text = restored_line(alloc, directory, entries)?;
    restore_store::<P, H>(alloc, host, unit, directory, entries)?;
    Ok(text)
}

/// Restores a store to a unit, if it is not refused there, and answers the line.
fn restore_to<P: PageBook, H: Host>(
    alloc: Global,
    host: &mut H,
    unit: Unit,
    is_attached: bool,
    directory: &Directory,
    entries: &[FullEntry],
) -> Result<Vec<u8>, Stop>
    requires attached { is_attached ≡ is_some ((H.outside host.old).card unit) }
    requires at_rest { IsTrue H.told → IsDurable unit (H.outside host.old).now }
    requires kept { AreKept directory.now entries.now }
    ensures done { (input : List ℕ)
        → IsAsked (decoded input) (Ok (store_in directory.now entries.now)) → IsTrue H.told
        → IfOk result (λ text. IsDone input unit
        (H.outside host.old) (H.outside host.new) text.items) }
    ensures restores { (input : List ℕ)
        → IsAsked (decoded input) (Ok (store_in directory.now entries.now))
        → Restores H.told unit input (H.outside host.old) (H.outside host.new) result }
{
    match refusal_on::<P, H>(alloc, host, unit, is_attached, directory, entries)? {
        Some(refusal) => Ok(refused_line(alloc, refusal)?),
        None => restore_here::<P, H>(alloc, host, unit, directory, entries),
    }
}

/// Restores the store whose backup an input spells to a unit, and answers the line of the store, or
/// why it is not restored: the input is no stream, or no backup; the unit has no device, or one of
/// fewer than 13 or more than 4,099 blocks; it has a readable store; the store does not fit on it.
pub fn restore_text<P: PageBook, H: Host>(
    alloc: Global,
    host: &mut H,
    unit: Unit,
    is_attached: bool,
    input: Vec<u8>,
) -> Result<Vec<u8>, Stop>
    requires attached { is_attached ≡ is_some ((H.outside host.old).card unit) }
    requires at_rest { IsTrue H.told → IsDurable unit (H.outside host.old).now }
    ensures done { IsTrue H.told → IfOk result (λ text. IsDone input.items unit
        (H.outside host.old) (H.outside host.new) text.items) }
    ensures restores { Restores H.told unit input.items
        (H.outside host.old) (H.outside host.new) result }
{
    match read_input(alloc, input)? {
        Ok((directory, entries)) => {
            restore_to::<P, H>(alloc, host, unit, is_attached, &directory, &entries)
        }
        Err(refusal) => Ok(refused_line(alloc, refusal)?),
    }
}
