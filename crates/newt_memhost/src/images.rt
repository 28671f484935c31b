//! The image that a pick chooses, built from the log.
ghost use Rattle.std.specs.Prelude.{◌≡◌, ◌+◌, ◌≤◌, OnOk, IfOk, length};
ghost use Rattle.newt_host.specs.Moments.{changes, output};
ghost use Rattle.newt_memhost.specs.Happened.{moment_of, total};
ghost use Rattle.newt_memhost.specs.Past.{chosen, picked};
ghost use Rattle.newt_memhost.specs.Images.{FitsIn, HasPast, torn_after, whole_after};

use crate::happened::Happened;
use crate::past::Pick;
use newt_host::Unit;
use std::alloc::{AllocError, Global};

/// Chooses what is left of a range that now reads like this.
fn choose(pick: Pick, left: &mut Vec<u8>, at: usize, now: &[u8])
    requires { at + length now.now ≤ length left.old.items }
    ensures { left.new.items ≡ chosen pick at now.now left.old.items }
{
    let end = at + now.len();
    match pick {
        Pick::Old => {}
        Pick::New => left[at..end].copy_from_slice(now),
        Pick::Half => {
            let half = now.len() / 2;
            left[at..at + half].copy_from_slice(&now[..half]);
        }
        Pick::Fill(byte) => left[at..end].fill(byte),
    }
}

/// Other bytes in place of all that there are.
fn restart(image: &mut Vec<u8>, bytes: &[u8]) -> Result<(), AllocError>
    ensures { OnOk result (image.new.items ≡ bytes.now) }
{
    image.clear();
    image.extend_from_slice(bytes)
}

/// Goes on by one entry with its bytes: changes the image as it reads, and the one that the pick
/// chooses.
fn go_on(
    entry: &Happened,
    bytes: &[u8],
    unit: Unit,
    pick: Pick,
    whole: &mut Vec<u8>,
    torn: &mut Vec<u8>,
) -> Result<(), AllocError>
    requires whole { FitsIn unit entry.now bytes.now whole.old.items }
    requires torn { FitsIn unit entry.now bytes.now torn.old.items }
    requires sizes { length torn.old.items ≡ length whole.old.items }
    ensures whole { OnOk result (whole.new.items ≡ whole_after unit entry.now bytes.now
        whole.old.items) }
    ensures torn { OnOk result (torn.new.items ≡ torn_after unit pick entry.now bytes.now
        whole.old.items torn.old.items) }
{
    match entry {
        Happened::Attach(u, first) if u.0 == unit.0 => {
            restart(whole, first)?;
            restart(torn, first)
        }
        Happened::Write(u, at, _) if u.0 == unit.0 => {
            choose(Pick::New, whole, *at, bytes);
            choose(pick, torn, *at, bytes);
            Ok(())
        }
        Happened::Sync(u, true) if u.0 == unit.0 => {
            torn.copy_from_slice(whole);
            Ok(())
        }
        _ => Ok(()),
    }
}

/// An image that a crash might have left, and the length of the output then.
#[derive(Debug, Drop)]
pub struct Crash {
    pub image: Vec<u8>,
    pub out: u64,
}

/// What a pick chooses at the end of a log.
pub(crate) fn build(
    alloc: Global,
    log: &[Happened],
    store: &[u8],
    unit: Unit,
    pick: Pick,
) -> Result<Crash, AllocError>
    requires stored { total log.now ≤ length store.now }
    requires past { HasPast unit (moment_of log.now store.now) }
    ensures image { IfOk result (λ crash. crash.image.items ≡ picked pick
        (changes unit (moment_of log.now store.now))) }
    ensures out { IfOk result (λ crash. crash.out ≡ length (output (moment_of log.now store.now))) }
{
    let mut whole = Vec::new(alloc);
    let mut torn = Vec::new(alloc);
    let mut used = 0;
    let mut out = 0;
    for entry in log {
        let end = used + entry.bytes();
        go_on(entry, &store[used..end], unit, pick, &mut whole, &mut torn)?;
        used = end;
        out += entry.printed() as u64;
    }
    Ok(Crash { image: torn, out })
}
