//! Devices, and the units that have them.
ghost use Rattle.std.specs.Prelude.{◌≡◌, ◌*◌, ◌/◌, ◌<◌, ◌^◌, IfOk, length};

use std::alloc::{AllocError, Global};

/// A device that no unit has yet: its name and its bytes. A copy of them to be written and one for
/// the log are at hand, so that an attach takes no memory.
#[derive(Drop)]
pub(crate) struct Device {
    pub(crate) name: Vec<u8>,
    pub(crate) first: Vec<u8>,
    pub(crate) held: Vec<u8>,
    pub(crate) logged: Vec<u8>,
    ghost held_is: { held.items ≡ first.items },
    ghost logged_is: { logged.items ≡ first.items },
    ghost whole: { length first.items ≡ length first.items / 4096 * 4096 },
    ghost few: { length first.items / 4096 < 2 ^ 32 },
}

impl Device {
    /// A device of these bytes.
    pub(crate) fn new(alloc: Global, name: &str, bytes: &[u8]) -> Result<Self, AllocError>
        requires whole { length bytes.now ≡ length bytes.now / 4096 * 4096 }
        requires few { length bytes.now / 4096 < 2 ^ 32 }
        ensures name { IfOk result (λ device. device.name.items ≡ name.now) }
        ensures first { IfOk result (λ device. device.first.items ≡ bytes.now) }
    {
        Ok(Device {
            name: name.as_bytes().to_vec(alloc)?,
            first: bytes.to_vec(alloc)?,
            held: bytes.to_vec(alloc)?,
            logged: bytes.to_vec(alloc)?,
        })
    }
}

/// A unit: the bytes of its device at the attach and now, and its counts. Without a device it has
/// no bytes.
#[derive(Drop)]
pub(crate) struct Card {
    pub(crate) attached: bool,
    pub(crate) name: Vec<u8>,
    pub(crate) first: Vec<u8>,
    pub(crate) held: Vec<u8>,
    pub(crate) faults: u64,
    pub(crate) programmed: u64,
    pub(crate) fetched: u64,
    pub(crate) erased: u64,
    pub(crate) synced: u64,
    /// Whether the last call failed.
    pub(crate) broken: bool,
    ghost size: { length held.items ≡ length first.items },
    ghost whole: { length first.items ≡ length first.items / 4096 * 4096 },
    ghost few: { length first.items / 4096 < 2 ^ 32 },
}

impl Card {
    ghost use Rattle.newt_memhost.specs.Cards.{IsEmpty};

    /// A unit without a device.
    pub(crate) fn new(alloc: Global) -> Self
        ensures { IsEmpty result }
    {
        Card {
            attached: false,
            name: Vec::new(alloc),
            first: Vec::new(alloc),
            held: Vec::new(alloc),
            faults: 0,
            programmed: 0,
            fetched: 0,
            erased: 0,
            synced: 0,
            broken: false,
        }
    }
}
