//! Calls on one unit that has a device.
ghost use Rattle.std.specs.Prelude.{◌≡◌, ◌+◌, ◌*◌, ◌≤◌, ◌<◌, ◌⊎◌, [], Some, true, length, take};
ghost use Rattle.std.specs.Prelude.{drop, OnOk};
ghost use Rattle.newt_host.specs.Moments.{changes};
ghost use Rattle.newt_host.specs.Outside.{Syncs, blank, fetching, one_erase, one_sync, programming};
ghost use Rattle.newt_memhost.specs.Calls.{Keeps, OnCard, PutsBytes};
ghost use Rattle.newt_memhost.specs.Cards.{StandsAs};
ghost use Rattle.newt_memhost.specs.Happened.{after, bytes_of, counts};
ghost use Rattle.newt_memhost.specs.Log.{HasRoom, now_of};
ghost use Rattle.newt_memhost.specs.Past.{unit_at};

use crate::card::Card;
use crate::faults::count;
use crate::happened::Happened;
use crate::log::Log;
use newt_host::{Failed, Unit};

/// Keeps a call that writes nothing.
pub(crate) fn keep(
    log: &mut Log,
    waiting: usize,
    fails: bool,
    entry: Happened,
) -> Result<(), Failed>
    requires call { counts entry ≡ 1 }
    requires quiet { bytes_of entry ≡ 0 }
    requires waits { HasRoom waiting 0 log.old }
    ensures event { (now_of log.new ≡ now_of log.old)
        ⊎ (now_of log.new ≡ after entry [] (now_of log.old)) }
    ensures kept { Keeps waiting 0 (unit_at (Some entry)) fails (HasRoom (waiting + 1) 0 log.old)
        result log.old log.new }
{
    if !log.reserve(waiting + 1, 0) {
        return Err(Failed);
    }
    log.add(entry, &[]);
    if fails {
        return Err(Failed);
    }
    Ok(())
}

/// Puts bytes into a range of the card; where the call fails, only into the log.
fn write(
    card: &mut Card,
    log: &mut Log,
    waiting: usize,
    fails: bool,
    unit: Unit,
    at: usize,
    bytes: &[u8],
) -> Result<(), Failed>
    requires inside { at + length bytes.now ≤ length card.old.held.items }
    requires waits { HasRoom waiting 0 log.old }
    ensures put { PutsBytes unit at (length bytes.now) bytes.now result
        card.old card.new log.old log.new }
    ensures kept { Keeps waiting (length bytes.now) (Some unit) fails
        (HasRoom (waiting + 1) (length bytes.now) log.old) result log.old log.new }
    ensures card { OnCard (fetching 0) result card.old card.new }
{
    if !log.reserve(waiting + 1, bytes.len()) {
        count(&mut card.faults);
        card.broken = true;
        return Err(Failed);
    }
    let end = at + bytes.len();
    if fails {
        log.add(Happened::Write(unit, at, bytes.len()), &card.held[at..end]);
        count(&mut card.faults);
        card.broken = true;
        return Err(Failed);
    }
    log.add(Happened::Write(unit, at, bytes.len()), bytes);
    card.held[at..end].copy_from_slice(bytes);
    card.broken = false;
    Ok(())
}

/// Programs a range, whatever it reads.
pub(crate) fn program(
    card: &mut Card,
    log: &mut Log,
    waiting: usize,
    fails: bool,
    unit: Unit,
    at: usize,
    bytes: &[u8],
) -> Result<(), Failed>
    requires inside { at + length bytes.now ≤ length card.old.held.items }
    requires waits { HasRoom waiting 0 log.old }
    ensures put { PutsBytes unit at (length bytes.now) bytes.now result
        card.old card.new log.old log.new }
    ensures kept { Keeps waiting (length bytes.now) (Some unit) fails
        (HasRoom (waiting + 1) (length bytes.now) log.old) result log.old log.new }
    ensures card { OnCard (programming (length bytes.now)) result card.old card.new }
{
    write(card, log, waiting, fails, unit, at, bytes)?;
    card.programmed = card.programmed.saturating_add(bytes.len() as u64);
    Ok(())
}

/// Erases a block.
pub(crate) fn erase(
    card: &mut Card,
    log: &mut Log,
    waiting: usize,
    fails: bool,
    unit: Unit,
    block: usize,
) -> Result<(), Failed>
    requires inside { block * 4096 + 4096 ≤ length card.old.held.items }
    requires waits { HasRoom waiting 0 log.old }
    ensures put { PutsBytes unit (block * 4096) 4096 (blank 4096) result
        card.old card.new log.old log.new }
    ensures kept { Keeps waiting 4096 (Some unit) fails
        (HasRoom (waiting + 1) 4096 log.old) result log.old log.new }
    ensures card { OnCard one_erase result card.old card.new }
{
    card.erased = card.erased.saturating_add(1);
    write(card, log, waiting, fails, unit, block * 4096, &[255; 4096])
}

/// Makes what the unit reads durable.
pub(crate) fn sync(
    card: &mut Card,
    log: &mut Log,
    waiting: usize,
    fails: bool,
    unit: Unit,
) -> Result<(), Failed>
    requires { HasRoom waiting 0 log.old }
    ensures event { Syncs unit result (now_of log.old) (now_of log.new) }
    ensures stands { StandsAs true card.old (changes unit (now_of log.old))
        → StandsAs true card.new (changes unit (now_of log.new)) }
    ensures kept { Keeps waiting 0 (Some unit) fails
        (HasRoom (waiting + 1) 0 log.old) result log.old log.new }
    ensures card { OnCard one_sync result card.old card.new }
{
    card.synced = card.synced.saturating_add(1);
    if !log.reserve(waiting + 1, 0) {
        count(&mut card.faults);
        card.broken = true;
        return Err(Failed);
    }
    log.add(Happened::Sync(unit, !fails), &[]);
    if fails {
        count(&mut card.faults);
        card.broken = true;
        return Err(Failed);
    }
    card.broken = false;
    Ok(())
}

/// Fills a buffer with what a range holds.
pub(crate) fn read(
    card: &mut Card,
    log: &mut Log,
    waiting: usize,
    fails: bool,
    unit: Unit,
    at: usize,
    buf: &mut [u8],
) -> Result<(), Failed>
    requires inside { at + length buf.old ≤ length card.old.held.items }
    requires waits { HasRoom waiting 0 log.old }
    ensures bytes { OnOk result (buf.new ≡ take (length buf.old) (drop at card.old.held.items)) }
    ensures moment { now_of log.new ≡ now_of log.old }
    ensures held { card.new.held.items ≡ card.old.held.items }
    ensures kept { Keeps waiting 0 (Some unit) fails
        (HasRoom (waiting + 1) 0 log.old) result log.old log.new }
    ensures card { OnCard (fetching (length buf.old)) result card.old card.new }
{
    if keep(log, waiting, fails, Happened::Read(unit)).is_err() {
        count(&mut card.faults);
        card.broken = true;
        return Err(Failed);
    }
    let end = at + buf.len();
    buf.copy_from_slice(&card.held[at..end]);
    card.fetched = card.fetched.saturating_add(buf.len() as u64);
    card.broken = false;
    Ok(())
}
