//! Devices that no unit has yet, and how a unit gets one.
ghost use Rattle.std.specs.Prelude.{◌≡◌, ◌<◌, None, MatchOption, vec_len};
ghost use Rattle.std.specs.Prelude.{vec_capacity};
ghost use Rattle.newt_memhost.specs.Cards.{free_device};
ghost use Rattle.newt_memhost.specs.Calls.{HasMoved, IsPlaceOf, LogsAttach};

use crate::card::{Card, Device};
use crate::log::Log;
use newt_host::Unit;

/// The place of the first device of a name.
pub(crate) fn find(shelf: &[Device], name: &[u8]) -> Option<usize>
    ensures { MatchOption result (free_device name.now shelf.now ≡ None)
        (IsPlaceOf name.now shelf.now) }
{
    for (place, device) in shelf.iter().enumerate() {
        if device.name.as_slice() == name {
            return Some(place);
        }
    }
    None
}

/// Gives a device to a unit that has none.
pub(crate) fn give(card: &mut Card, log: &mut Log, unit: Unit, device: Device)
    requires { vec_len log.old.entries < vec_capacity log.old.entries }
    ensures card { HasMoved device card.old card.new }
    ensures logs { LogsAttach unit device.first.items log.old log.new }
{
    let Device {
        name,
        first,
        held,
        logged,
    } = device;
    log.attach(unit, logged);
    *card = Card {
        attached: true,
        name,
        first,
        held,
        faults: card.faults,
        programmed: card.programmed,
        fetched: card.fetched,
        erased: card.erased,
        synced: card.synced,
        broken: card.broken,
    };
}
