//! One card in memory, attached as unit 0, and one call on it at a time.
ghost use Rattle.std.specs.Prelude.{IfOk, IsSome};
ghost use Rattle.newt_memhost.specs.Outside.{outside_of};

use newt_host::{Failed, Host, Unit};
use newt_memhost::MemHost;
use std::alloc::Global;
use std::process::Abort;
use std::test::Fail;

/// The unit of the card.
pub(crate) const CARD: Unit = Unit(0);

/// Asserts that what is wanted of this call or count holds.
pub(crate) fn check(rt: &impl Abort, holds: bool, what: &str) {
    assert!(rt; holds, "{what}");
}

/// The same for the call of a number.
pub(crate) fn check_at(rt: &impl Abort, holds: bool, call: u64) {
    assert!(rt; holds, "at {call}");
}

/// A host with one card of these bytes.
pub(crate) fn host_of(rt: &impl Abort, alloc: Global, bytes: &[u8]) -> Result<MemHost, Fail>
    ensures { IfOk result (λ host. IsSome ((outside_of host).card 0)) }
{
    assert!(rt; bytes.len() % 4096 == 0);
    let mut host = MemHost::new(alloc);
    host.device("card", bytes)?;
    assert!(rt; host.attach(CARD, "card"));
    Ok(host)
}

/// One `read_in` of a buffer of eight bytes, and the number of bytes that it gave.
pub(crate) fn take(host: &mut MemHost) -> Result<usize, Failed>
    requires { IsSome ((outside_of host.old).card 0) }
    ensures { IsSome ((outside_of host.new).card 0) }
{
    host.read_in(&mut [0; 8])
}

/// One `write_out`.
pub(crate) fn print(host: &mut MemHost, bytes: &[u8]) -> Result<usize, Failed>
    requires { IsSome ((outside_of host.old).card 0) }
    ensures { IsSome ((outside_of host.new).card 0) }
{
    host.write_out(bytes)
}

/// One `read` of eight bytes.
pub(crate) fn read(rt: &impl Abort, host: &mut MemHost, at: u32) -> Result<(), Failed>
    requires { IsSome ((outside_of host.old).card 0) }
    ensures { IsSome ((outside_of host.new).card 0) }
{
    assert!(rt; at as u64 + 8 <= host.blocks(CARD) as u64 * 4096);
    host.read(CARD, at, &mut [0; 8])
}

/// One `erase`.
pub(crate) fn erase(rt: &impl Abort, host: &mut MemHost, block: u32) -> Result<(), Failed>
    requires { IsSome ((outside_of host.old).card 0) }
    ensures { IsSome ((outside_of host.new).card 0) }
{
    assert!(rt; block < host.blocks(CARD));
    host.erase(CARD, block)
}

/// One `sync`.
pub(crate) fn sync(host: &mut MemHost) -> Result<(), Failed>
    requires { IsSome ((outside_of host.old).card 0) }
    ensures { IsSome ((outside_of host.new).card 0) }
{
    host.sync(CARD)
}
