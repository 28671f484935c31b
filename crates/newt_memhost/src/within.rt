//! The log at one of its calls.
ghost use Rattle.std.specs.Prelude.{◌≡◌, ◌<◌, IfOk, length};
ghost use Rattle.newt_host.specs.Moments.{MayLeave, changes, output, taken};
ghost use Rattle.newt_memhost.specs.Images.{HasPast};
ghost use Rattle.newt_memhost.specs.Log.{now_of};
ghost use Rattle.newt_memhost.specs.Past.{call_at, picked, unit_at};
ghost use Rattle.newt_memhost.specs.Within.{moment_before, moment_within};

use crate::images::{Crash, build};
use crate::log::Log;
use crate::past::{Pick, end_of, place_of, printed_in, taken_in};
use newt_host::Unit;
use std::alloc::{AllocError, Global};

/// What a pick chooses for a crash within a call.
pub(crate) fn image_within(
    alloc: Global,
    log: &Log,
    unit: Unit,
    call: u64,
    pick: Pick,
) -> Result<Crash, AllocError>
    requires { HasPast unit (now_of log.now) }
    ensures image { IfOk result (λ crash. crash.image.items ≡ picked pick
        (changes unit (moment_within call log.now))) }
    ensures left { IfOk result (λ crash. 0 < length (changes unit (moment_within call log.now)) →
        MayLeave unit (moment_within call log.now) crash.image.items) }
    ensures out { IfOk result (λ crash. crash.out ≡ length (output (moment_within call log.now))) }
{
    let entries = log.entries.as_slice();
    let through = &entries[..end_of(entries, call)];
    build(alloc, through, &log.store, unit, pick)
}

/// The unit that a call was on.
pub(crate) fn unit_within(log: &Log, call: u64) -> Option<Unit>
    ensures { result ≡ unit_at (call_at call log.now.entries.items) }
{
    let entries = log.entries.as_slice();
    let place = place_of(entries, call);
    if place < entries.len() {
        entries[place].unit()
    } else {
        None
    }
}

/// The length of the output when a call began.
pub(crate) fn printed_before(log: &Log, call: u64) -> u64
    ensures { result ≡ length (output (moment_before call log.now)) }
{
    let entries = log.entries.as_slice();
    printed_in(&entries[..place_of(entries, call)])
}

/// How much of the input was taken when a call began.
pub(crate) fn taken_before(log: &Log, call: u64) -> u64
    ensures { result ≡ length (taken (moment_before call log.now)) }
{
    let entries = log.entries.as_slice();
    taken_in(&entries[..place_of(entries, call)])
}
