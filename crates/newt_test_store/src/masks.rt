//! The masks of entries, as a text.
use newt_base::{Sig, Uid};
use newt_engine_card::Card;
use newt_pagebook::PageBook;
use newt_store_indexed::IndexedStore;
use std::alloc::Global;
use std::test::Fail;

/// The masks of the first so many ids of a soup.
pub(crate) fn masks_text<P: PageBook>(
    alloc: Global,
    store: &IndexedStore<P>,
    soup: u32,
    count: u32,
) -> Result<String, Fail> {
    let mut masks = Vec::new(alloc);
    for uid in 0..count {
        masks.push(store.mask(Sig(soup), Uid(uid)))?;
    }
    Ok(format!(in alloc; "{masks:?}")?)
}
