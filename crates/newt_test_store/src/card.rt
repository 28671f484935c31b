//! One card in memory, attached as unit 0, and the store on it.
ghost use Rattle.std.specs.Prelude.{true, IfOk, IfSome, IsSome, IsTrue, OnOk};
ghost use Rattle.newt_host.specs.Moments.{IsDurable};
ghost use Rattle.newt_memhost.specs.Outside.{outside_of};
ghost use Rattle.newt_store.specs.Calls.{IsOpen};

use newt_base::{Name, Sig};
use newt_host::{Host, Unit};
use newt_memhost::MemHost;
use newt_pagebook::{BookFault, PageBook};
use newt_store::Store;
use std::alloc::Global;
use std::test::Fail;

/// The unit of the card.
pub(crate) const CARD: Unit = Unit(0);

/// A host with one card of these bytes, which are whole blocks.
pub(crate) fn host_of(alloc: Global, bytes: &[u8]) -> Result<MemHost, Fail>
    ensures { IfOk result (λ host. IsDurable 0 (outside_of host).now) }
{
    if bytes.len() % 4096 != 0 {
        return Err(Fail::new("no whole blocks"));
    }
    let mut host = MemHost::new(alloc);
    host.device("card", bytes)?;
    if !host.attach(CARD, "card") {
        return Err(Fail::new("the card is not attached"));
    }
    Ok(host)
}

/// Whether the unit has a card.
pub(crate) fn has_card(host: &MemHost) -> bool
    ensures { IsTrue result → IsSome ((outside_of host.now).card 0) }
{
    host.blocks(CARD) > 0
}

/// The bytes of the card.
pub(crate) fn card_bytes(alloc: Global, host: &MemHost) -> Result<Vec<u8>, Fail> {
    if !has_card(host) {
        return Err(Fail::new("no card"));
    }
    Ok(host.bytes(CARD).to_vec(alloc)?)
}

/// The card is formatted as the store `Internal` of signature 7.
fn format_card<P: PageBook>(alloc: Global, host: &mut MemHost) -> Result<(), Fail>
    ensures { OnOk result (IsDurable 0 (outside_of host.new).now) }
{
    if host.blocks(CARD) < 13 || host.blocks(CARD) > 4099 {
        return Err(Fail::new("too few blocks, or too many"));
    }
    let name = Name::read(alloc, b"Internal")?;
    Store::<P>::format(alloc, host, CARD, &name, Sig(7))?;
    Ok(())
}

/// A host with a card of so many blocks of zeros.
fn zeroed(alloc: Global, blocks: u32) -> Result<MemHost, Fail> {
    let bytes = vec![in alloc; 0; blocks as usize * 4096]?;
    host_of(alloc, &bytes)
}

/// A host whose card has so many blocks, formatted as the store `Internal` of signature 7.
pub(crate) fn formatted<P: PageBook>(alloc: Global, blocks: u32) -> Result<MemHost, Fail>
    ensures { IfOk result (λ host. IsDurable 0 (outside_of host).now) }
{
    let mut host = zeroed(alloc, blocks)?;
    format_card::<P>(alloc, &mut host)?;
    Ok(host)
}

/// The store of the card, if there is one.
pub(crate) fn found<P: PageBook>(
    alloc: Global,
    host: &mut MemHost,
) -> Result<Option<Store<P>>, Fail>
    requires { IsDurable 0 (outside_of host.old).now }
    ensures { IfOk result (λ found. IfSome found (λ store.
        IsOpen P.place P.numbers P.stands true store (outside_of host.new))) }
{
    if host.blocks(CARD) < 13 || host.blocks(CARD) > 4099 {
        return Err(Fail::new("too few blocks, or too many"));
    }
    match Store::open(alloc, host, CARD) {
        Ok(store) => Ok(Some(store)),
        Err(BookFault::NotStore) => Ok(None),
        Err(fault) => Err(Fail::from(fault)),
    }
}

/// The store of the card.
pub(crate) fn opened<P: PageBook>(alloc: Global, host: &mut MemHost) -> Result<Store<P>, Fail>
    requires { IsDurable 0 (outside_of host.old).now }
    ensures { IfOk result (λ store. IsOpen P.place P.numbers P.stands true store
        (outside_of host.new)) }
{
    match found(alloc, host)? {
        Some(store) => Ok(store),
        None => Err(Fail::new("no store")),
    }
}
