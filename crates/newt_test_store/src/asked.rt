//! What a table asks of the soups of a store.

use newt_base::{Sig, Uid};
use newt_pagebook::PageBook;
use newt_soupdir::Directory;
use newt_store::Store;
use std::alloc::{AllocError, Global};
use std::test::Fail;

/// How many indexes a soup has, and how many tags.
fn declared(directory: &Directory, soup: Sig) -> (usize, usize) {
    match directory.soup_of(soup) {
        Some(row) => match &row.tags {
            Some(tags) => (row.specs.list().len(), tags.symbols().len()),
            None => (row.specs.list().len(), 0),
        },
        None => (0, 0),
    }
}

/// The reply to each question.
fn has<P: PageBook>(
    alloc: Global,
    store: &Store<P>,
    soup: Sig,
    uid: &str,
) -> Result<Vec<u8>, Fail> {
    let has = store.has(soup, Uid(uid.parse()?));
    Ok(format!(in alloc; "{has}")?.into_bytes())
}

fn count<P: PageBook>(alloc: Global, store: &Store<P>, soup: Sig) -> Result<Vec<u8>, AllocError> {
    let count = store.count(soup);
    Ok(format!(in alloc; "{count}")?.into_bytes())
}

fn uids<P: PageBook>(alloc: Global, store: &Store<P>, soup: Sig) -> Result<Vec<u8>, AllocError> {
    let uids = store.uids(soup)?;
    Ok(format!(in alloc; "{uids:?}")?.into_bytes())
}

fn numbers(alloc: Global, directory: &Directory, soup: Sig) -> Result<Vec<u8>, AllocError> {
    let (indexes, tags) = declared(directory, soup);
    Ok(format!(in alloc; "{indexes} {tags}")?.into_bytes())
}

/// The reply to a question about a soup.
pub(crate) fn asked<P: PageBook>(
    alloc: Global,
    store: &Store<P>,
    word: &str,
    rest: &str,
) -> Result<Vec<u8>, Fail> {
    let (soup, rest) = rest.split_once(' ').unwrap_or((rest, ""));
    let soup = Sig(soup.parse()?);
    match word {
        "has" => has(alloc, store, soup, rest),
        "count" => Ok(count(alloc, store, soup)?),
        "uids" => Ok(uids(alloc, store, soup)?),
        _ => Ok(numbers(alloc, store.directory(), soup)?),
    }
}
