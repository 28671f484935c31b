//! Each pick at each call of one run, the calls that are to fail, and the unit and the output of
//! each call.
ghost use Rattle.std.specs.Prelude.{IfOk, IsSome};
ghost use Rattle.newt_memhost.specs.Outside.{outside_of};

use crate::steps::{CARD, check, check_at, erase, host_of, print, read, sync, take};
use newt_host::Host;
use newt_memhost::{MemHost, Pick};
use std::alloc::{AllocError, Global};
use std::process::Abort;
use std::test::Fail;

/// The bytes of two blocks.
fn two_blocks(alloc: Global) -> Result<Vec<u8>, AllocError> {
    let mut bytes = Vec::new(alloc);
    bytes.resize(8192, 7)?;
    Ok(bytes)
}

/// An input of two bytes; the calls 3 and 7 are to fail.
fn prepare(host: &mut MemHost) -> Result<(), AllocError>
    requires { IsSome ((outside_of host.old).card 0) }
    ensures { IsSome ((outside_of host.new).card 0) }
{
    host.input(b"ab")?;
    host.fail(3)?;
    host.fail(7)
}

/// A card of two blocks, prepared.
fn prepared(rt: &impl Abort, alloc: Global) -> Result<MemHost, Fail>
    ensures { IfOk result (λ host. IsSome ((outside_of host).card 0)) }
{
    let mut host = host_of(rt, alloc, &two_blocks(alloc)?)?;
    check(rt, host.blocks(CARD) == 2, "two blocks");
    prepare(&mut host)?;
    Ok(host)
}

/// The first block is erased and synced, and the second is to be erased.
fn first_calls(rt: &impl Abort, host: &mut MemHost)
    requires { IsSome ((outside_of host.old).card 0) }
    ensures { IsSome ((outside_of host.new).card 0) }
{
    check(rt, take(host) == Ok(2), "the call 0");
    check(rt, erase(rt, host, 0).is_ok(), "the call 1");
    check(rt, print(host, b"x") == Ok(1), "the call 2");
    check(rt, erase(rt, host, 1).is_err(), "the call 3");
    check(rt, sync(host).is_ok(), "the call 4");
}

/// The second block is erased, and is to be synced.
fn later_calls(rt: &impl Abort, host: &mut MemHost)
    requires { IsSome ((outside_of host.old).card 0) }
    ensures { IsSome ((outside_of host.new).card 0) }
{
    check(rt, read(rt, host, 8000).is_ok(), "the call 5");
    check(rt, erase(rt, host, 1).is_ok(), "the call 6");
    check(rt, sync(host).is_err(), "the call 7");
    check(rt, print(host, b"yz") == Ok(2), "the call 8");
}

/// The byte that stands at both of these places.
fn byte_at(rt: &impl Abort, image: &[u8], first: usize, last: usize) -> u8 {
    assert!(rt; first < image.len() && last < image.len());
    check(rt, image[first] == image[last], "one byte at both ends");
    image[first]
}

/// The byte of each half of both blocks, which is the same at both of its ends.
fn shown(rt: &impl Abort, image: &[u8]) -> [u8; 4] {
    assert!(rt; image.len() == 8192);
    [
        byte_at(rt, image, 0, 2047),
        byte_at(rt, image, 2048, 4095),
        byte_at(rt, image, 4096, 6143),
        byte_at(rt, image, 6144, 8191),
    ]
}

/// What a crash within a call leaves by one pick: the length of the output, and the bytes of the
/// image.
fn left(rt: &impl Abort, host: &MemHost, call: u64, pick: Pick) -> Result<(u64, [u8; 4]), Fail>
    requires { IsSome ((outside_of host.now).card 0) }
{
    assert!(rt; call < host.calls());
    let crash = host.images(CARD, call, pick)?;
    Ok((crash.out, shown(rt, &crash.image)))
}

/// The same by each pick.
fn all_left(rt: &impl Abort, host: &MemHost, call: u64) -> Result<[(u64, [u8; 4]); 4], Fail>
    requires { IsSome ((outside_of host.now).card 0) }
{
    Ok([
        left(rt, host, call, Pick::Old)?,
        left(rt, host, call, Pick::New)?,
        left(rt, host, call, Pick::Half)?,
        left(rt, host, call, Pick::Fill(9))?,
    ])
}

/// What the host tells of one call: its unit, the length of the output at its beginning, and what
/// each pick leaves.
fn told(rt: &impl Abort, alloc: Global, host: &MemHost, call: u64) -> Result<String, Fail>
    requires { IsSome ((outside_of host.now).card 0) }
{
    assert!(rt; call < host.calls());
    let unit = host.unit_of(call);
    let before = host.out_before(call);
    let left = all_left(rt, host, call)?;
    Ok(format!(in alloc; "{unit:?} {before} {left:?}")?)
}

/// What the host tells of each call, and what each pick leaves: the old bytes, the new ones, half
/// of what is new, and bytes of 9 in its place.
const CALLS: &str =
    "None 0 [(0, [7, 7, 7, 7]), (0, [7, 7, 7, 7]), (0, [7, 7, 7, 7]), (0, [7, 7, 7, 7])]
Some(Unit(0)) 0 [(0, [7, 7, 7, 7]), (0, [255, 255, 7, 7]), (0, [255, 7, 7, 7]), (0, [9, 9, 7, 7])]
None 0 [(1, [7, 7, 7, 7]), (1, [255, 255, 7, 7]), (1, [255, 7, 7, 7]), (1, [9, 9, 7, 7])]
Some(Unit(0)) 1 [(1, [7, 7, 7, 7]), (1, [255, 255, 7, 7]), (1, [255, 7, 7, 7]), (1, [9, 9, 9, 9])]
Some(Unit(0)) 1 [(1, [7, 7, 7, 7]), (1, [255, 255, 7, 7]), (1, [255, 7, 7, 7]), (1, [9, 9, 9, 9])]
Some(Unit(0)) 1 [(1, [255, 255, 7, 7]), (1, [255, 255, 7, 7]), (1, [255, 255, 7, 7]), (1, [255, 255, 7, 7])]
Some(Unit(0)) 1 [(1, [255, 255, 7, 7]), (1, [255, 255, 255, 255]), (1, [255, 255, 255, 7]), (1, [255, 255, 9, 9])]
Some(Unit(0)) 1 [(1, [255, 255, 7, 7]), (1, [255, 255, 255, 255]), (1, [255, 255, 255, 7]), (1, [255, 255, 9, 9])]
None 1 [(3, [255, 255, 7, 7]), (3, [255, 255, 255, 255]), (3, [255, 255, 255, 7]), (3, [255, 255, 9, 9])]";

fn expect_told(
    rt: &impl Abort,
    alloc: Global,
    host: &MemHost,
    call: u64,
    row: &str,
) -> Result<(), Fail>
    requires { IsSome ((outside_of host.now).card 0) }
{
    let told = told(rt, alloc, host, call)?;
    check_at(rt, told.as_str() == row, call);
    Ok(())
}

fn expect_calls(rt: &impl Abort, alloc: Global, host: &MemHost) -> Result<(), Fail>
    requires { IsSome ((outside_of host.now).card 0) }
{
    let mut call: u64 = 0;
    for row in CALLS.lines() {
        expect_told(rt, alloc, host, call, row)?;
        call = call.saturating_add(1);
    }
    Ok(())
}

#[test]
fn each_pick_at_each_call(rt: HostRuntime) -> Result<(), Fail> {
    let mut host = prepared(&rt, rt.alloc())?;
    first_calls(&rt, &mut host);
    later_calls(&rt, &mut host);
    check(&rt, host.calls() == 9, "nine calls");
    expect_calls(&rt, rt.alloc(), &host)
}
