//! What a store has, as one text.
ghost use Rattle.std.specs.Prelude.{true};
ghost use Rattle.newt_host.specs.Moments.{IsDurable};
ghost use Rattle.newt_memhost.specs.Outside.{outside_of};
ghost use Rattle.newt_store.specs.Calls.{IsOpen};

use crate::card::{found, host_of};
use crate::digits::used;
use newt_base::{Sig, Uid, hex_text};
use newt_memhost::MemHost;
use newt_nsof_write::encode_flat;
use newt_pagebook::PageBook;
use newt_soupdir::{Directory, SoupRow};
use newt_store::{Entry, Store};
use std::alloc::{AllocError, Global};
use std::test::Fail;

/// Appends the row of a store or a soup: its name, its signature, and the next number that it
/// gives.
fn push_named(
    alloc: Global,
    text: &mut Vec<u8>,
    name: &[u8],
    sig: u32,
    next: u32,
) -> Result<(), AllocError> {
    text.extend_from_slice(name)?;
    let numbers = format!(in alloc; " {sig} {next}")?;
    text.extend_from_slice(numbers.as_bytes())
}

/// Appends the info frame of a soup, if it has one.
fn push_info(alloc: Global, text: &mut Vec<u8>, soup: &SoupRow) -> Result<(), AllocError> {
    let Some(graph) = &soup.info else {
        return Ok(());
    };
    text.extend_from_slice(b" info ")?;
    push_digits(alloc, text, &encode_flat(alloc, graph)?)
}

/// The rows of a directory.
fn directory_text(alloc: Global, directory: &Directory) -> Result<Vec<u8>, AllocError> {
    let mut text = Vec::new(alloc);
    let name = directory.name.list();
    push_named(alloc, &mut text, name, directory.sig.0, directory.next_soup)?;
    for soup in directory.soups.list() {
        text.extend_from_slice(b"; ")?;
        push_named(
            alloc,
            &mut text,
            soup.name.list(),
            soup.sig.0,
            soup.next_uid,
        )?;
        push_info(alloc, &mut text, soup)?;
    }
    Ok(text)
}

/// The signatures of the soups of a directory, with their next ids.
fn soups_of(alloc: Global, directory: &Directory) -> Result<Vec<(Sig, u32)>, AllocError> {
    let mut soups = Vec::new(alloc);
    for soup in directory.soups.list() {
        soups.push((soup.sig, soup.next_uid))?;
    }
    Ok(soups)
}

/// Appends bytes in digits; where many zeros stand at the end, with their number.
fn push_digits(alloc: Global, text: &mut Vec<u8>, bytes: &[u8]) -> Result<(), AllocError> {
    let used = used(bytes, 0);
    let zeros = bytes.len().saturating_sub(used);
    if zeros < 16 {
        return text.extend_from_slice(&hex_text(alloc, bytes)?);
    }
    text.extend_from_slice(&hex_text(alloc, bytes.get(..used).unwrap_or(bytes))?)?;
    let end = format!(in alloc; " 00*{zeros}")?;
    text.extend_from_slice(end.as_bytes())
}

/// Appends the row of an entry: the signature of its soup, its id, its minute and its flat text.
fn push_row(alloc: Global, text: &mut Vec<u8>, soup: Sig, entry: &Entry) -> Result<(), Fail> {
    let sig = soup.0;
    let uid = entry.uid.0;
    let time = entry.time;
    let numbers = format!(in alloc; "; {sig} {uid} {time} ")?;
    text.extend_from_slice(numbers.as_bytes())?;
    push_digits(alloc, text, &encode_flat(alloc, &entry.graph)?)?;
    Ok(())
}

/// Appends the row of what was read as an entry of this id, or of none.
fn push_read(
    alloc: Global,
    text: &mut Vec<u8>,
    soup: Sig,
    uid: Uid,
    is_there: bool,
    entry: &Option<Entry>,
) -> Result<(), Fail> {
    match entry {
        Some(entry) if is_there && entry.uid == uid => push_row(alloc, text, soup, entry),
        None if !is_there => Ok(()),
        _ => Err(Fail::new("an entry is there and not there, or has another id")),
    }
}

/// Appends the row of an entry that is there.
fn push_entry<P: PageBook>(
    alloc: Global,
    host: &mut MemHost,
    store: &mut Store<P>,
    soup: Sig,
    uid: u32,
    text: &mut Vec<u8>,
) -> Result<(), Fail>
    requires is_open { IsOpen P.place P.numbers P.stands true store.old (outside_of host.old) }
    ensures is_open { IsOpen P.place P.numbers P.stands true store.new (outside_of host.new) }
{
    let is_there = store.has(soup, Uid(uid));
    let entry = store.entry(host, soup, Uid(uid))?;
    push_read(alloc, text, soup, Uid(uid), is_there, &entry)
}

/// Appends the rows of the entries of a soup.
fn push_entries<P: PageBook>(
    alloc: Global,
    host: &mut MemHost,
    store: &mut Store<P>,
    soup: (Sig, u32),
    text: &mut Vec<u8>,
) -> Result<(), Fail>
    requires is_open { IsOpen P.place P.numbers P.stands true store.old (outside_of host.old) }
    ensures is_open { IsOpen P.place P.numbers P.stands true store.new (outside_of host.new) }
{
    for uid in 0..soup.1.min(64) {
        push_entry(alloc, host, store, soup.0, uid, text)?;
    }
    Ok(())
}

/// What a store has: a row for the store, one for each soup, and one for each entry with an id
/// below 64, with `; ` between them.
pub(crate) fn contents<P: PageBook>(
    alloc: Global,
    host: &mut MemHost,
    store: &mut Store<P>,
) -> Result<Vec<u8>, Fail>
    requires is_open { IsOpen P.place P.numbers P.stands true store.old (outside_of host.old) }
    ensures is_open { IsOpen P.place P.numbers P.stands true store.new (outside_of host.new) }
{
    let mut text = directory_text(alloc, store.directory())?;
    for soup in soups_of(alloc, store.directory())? {
        push_entries(alloc, host, store, soup, &mut text)?;
    }
    Ok(text)
}

/// What the store of the card has, or `no store`.
fn contents_in<P: PageBook>(alloc: Global, host: &mut MemHost) -> Result<Vec<u8>, Fail>
    requires { IsDurable 0 (outside_of host.old).now }
{
    let store: Option<Store<P>> = found(alloc, host)?;
    match store {
        Some(store) => {
            let mut store = store;
            contents(alloc, host, &mut store)
        }
        None => Ok(b"no store".to_vec(alloc)?),
    }
}

/// What the store on a card of these bytes has, or `no store` where they are none.
pub(crate) fn contents_on<P: PageBook>(alloc: Global, bytes: &[u8]) -> Result<Vec<u8>, Fail> {
    let mut host = host_of(alloc, bytes)?;
    contents_in::<P>(alloc, &mut host)
}
