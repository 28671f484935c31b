//! The counts of a unit.
ghost use Rattle.std.specs.Prelude.{◌≡◌, ◌+◌, ◌<◌, ◌^◌, IsTrue, IsFalse, OnOk, OnErr};
ghost use Rattle.newt_host.specs.Outside.{fetching, one_erase, one_sync, programming};
ghost use Rattle.newt_host_files.specs.Cards.{CardStops, CountsOnCard};

use crate::card::{Card, count};
use newt_host::Failed;

/// Keeps whether a call on the unit was done; one that was not is another fault.
fn touched(card: &mut Card, done: bool) -> Result<(), Failed>
    ensures card { CountsOnCard (fetching 0) card.old card.new }
    ensures faults { CardStops result card.old card.new }
    ensures done { IsTrue done → OnErr result ⊥ }
    ensures failed { IsFalse done → OnOk result ⊥ }
{
    card.broken = !done;
    if !done {
        count(&mut card.faults);
        return Err(Failed);
    }
    Ok(())
}

/// Counts a call that was to fetch so many bytes; one that was not done is another fault.
pub(crate) fn fetched(card: &mut Card, bytes: u64, done: bool) -> Result<(), Failed>
    ensures card { CountsOnCard (fetching bytes) card.old card.new }
    ensures faults { CardStops result card.old card.new }
    ensures done { IsTrue done → OnErr result ⊥ }
    ensures failed { IsFalse done → OnOk result ⊥ }
    ensures count { card.old.fetched + bytes < 2 ^ 64
        → card.new.fetched ≡ card.old.fetched + bytes }
{
    card.fetched = card.fetched.saturating_add(bytes);
    touched(card, done)
}

/// The same for a call that was to program so many bytes.
pub(crate) fn programmed(card: &mut Card, bytes: u64, done: bool) -> Result<(), Failed>
    ensures card { CountsOnCard (programming bytes) card.old card.new }
    ensures faults { CardStops result card.old card.new }
    ensures done { IsTrue done → OnErr result ⊥ }
    ensures failed { IsFalse done → OnOk result ⊥ }
    ensures count { card.old.programmed + bytes < 2 ^ 64
        → card.new.programmed ≡ card.old.programmed + bytes }
{
    card.programmed = card.programmed.saturating_add(bytes);
    touched(card, done)
}

/// The same for a call that was to erase a block.
pub(crate) fn erased(card: &mut Card, done: bool) -> Result<(), Failed>
    ensures card { CountsOnCard one_erase card.old card.new }
    ensures faults { CardStops result card.old card.new }
    ensures done { IsTrue done → OnErr result ⊥ }
    ensures failed { IsFalse done → OnOk result ⊥ }
    ensures count { card.old.erased + 1 < 2 ^ 64 → card.new.erased ≡ card.old.erased + 1 }
{
    card.erased = card.erased.saturating_add(1);
    touched(card, done)
}

/// The same for a sync.
pub(crate) fn synced(card: &mut Card, done: bool) -> Result<(), Failed>
    ensures card { CountsOnCard one_sync card.old card.new }
    ensures faults { CardStops result card.old card.new }
    ensures done { IsTrue done → OnErr result ⊥ }
    ensures failed { IsFalse done → OnOk result ⊥ }
    ensures count { card.old.synced + 1 < 2 ^ 64 → card.new.synced ≡ card.old.synced + 1 }
{
    card.synced = card.synced.saturating_add(1);
    touched(card, done)
}
