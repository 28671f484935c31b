//! One card in memory, attached as unit 0.
ghost use Rattle.std.specs.Prelude.{◌≡◌, true, IfOk, IfSome, IsSome, IsTrue};
ghost use Rattle.newt_host.specs.Moments.{IsDurable};
ghost use Rattle.newt_memhost.specs.Outside.{outside_of};
ghost use Rattle.newt_journal.specs.Journal.{Stands};

use crate::records::{Held, held_by};
use crate::row_fault::RowFault;
use newt_host::{Host, Unit};
use newt_journal::{Journal, JournalFault};
use newt_memhost::MemHost;
use std::alloc::Global;
use std::process::Abort;

/// The unit of the card.
pub(crate) const CARD: Unit = Unit(0);

/// A host with one card of these bytes.
pub(crate) fn host_of(rt: &impl Abort, alloc: Global, bytes: &[u8]) -> MemHost
    ensures { IsDurable 0 (outside_of result).now }
{
    assert!(rt; bytes.len() % 4096 == 0);
    let mut host = MemHost::new(alloc);
    assert!(rt; host.device("card", bytes).is_ok());
    assert!(rt; host.attach(CARD, "card"));
    host
}

/// Whether the unit has a card.
pub(crate) fn has_card(host: &MemHost) -> bool
    ensures { IsTrue result → IsSome ((outside_of host.now).card 0) }
{
    host.blocks(CARD) > 0
}

/// How many blocks of the card were erased, and how often it was synced.
#[derive(Clone, Copy, Default)]
pub(crate) struct Wear {
    pub(crate) erased: u64,
    pub(crate) synced: u64,
}

/// The same counts by now.
pub(crate) fn wear_of(host: &MemHost) -> Wear {
    if !has_card(host) {
        return Wear::default();
    }
    Wear {
        erased: host.erased(CARD),
        synced: host.synced(CARD),
    }
}

/// The journal of the card; none where it holds no records.
pub(crate) fn opened(host: &mut MemHost) -> Result<Option<Journal>, RowFault>
    requires { IsDurable 0 (outside_of host.old).now }
    ensures { IfOk result (λ found. IfSome found (λ journal. Stands true journal
        (outside_of host.new) × (journal.unit ≡ 0))) }
{
    if host.blocks(CARD) < 13 || host.blocks(CARD) > 4099 {
        return Err(RowFault::Row);
    }
    match Journal::open(host, CARD) {
        Ok(journal) => Ok(Some(journal)),
        Err(JournalFault::NotStore) => Ok(None),
        Err(JournalFault::Device) => Err(RowFault::Device),
    }
}

/// What stands on a card; none where it holds no journal.
fn held_in(alloc: Global, host: &mut MemHost) -> Result<Option<Held>, RowFault>
    requires { IsDurable 0 (outside_of host.old).now }
{
    match opened(host)? {
        Some(journal) => Ok(Some(held_by(alloc, &journal, host)?)),
        None => Ok(None),
    }
}

/// The same for these bytes.
pub(crate) fn held_on(
    rt: &impl Abort,
    alloc: Global,
    bytes: &[u8],
) -> Result<Option<Held>, RowFault> {
    let mut host = host_of(rt, alloc, bytes);
    held_in(alloc, &mut host)
}
