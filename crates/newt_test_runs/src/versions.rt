//! Images of version 1 and of version 2: what mounts, what the first change does, and what a stop
//! within it leaves.

use newt_host::Unit;
use newt_memhost::Pick;
use newt_test_scripts::{
    Counts, Looks, blocks, expect, expect_safe, image, looks_by_line, run_over, run_table_on,
};
use newt_test_tables::bytes_of;
use std::alloc::Global;
use std::process::Abort;
use std::test::Fail;

/// A fresh store in version 1, as the program made it then.
pub(crate) const FRESH: &str = "
00 FF*4095
00 FF*4095
00 FF*4095
4E53544F5245 0001 0000000000000000
00 00000208 0001 0000
00000000 00000000 00000000 00000010
  08496E7465726E616C00000007000000
  00*484
FF*19939
00*20480
";

/// It mounts, and no byte of it has changed.
const MOUNTS: &str = "
mount 0 => ok 7 Internal
soups 0 => ok
";

/// The first change goes to the other bank, in version 2.
const CHANGES: &str = "
mount 0 => ok 7 Internal
soup 0 S => ok 0
";

/// What the other bank begins with: a header of version 2, and a record of one page.
const SWITCHED: &str = "
4E53544F5245 0002 0000000000000000
00 00000208 0001 0000
";

/// Where the other bank of 13 blocks begins.
const OTHER_BANK: usize = 32_768;

/// Info frames.
const INFOS: &str = "
format 0 Internal 7 => ok
mount 0 => ok 7 Internal
soup 0 S => ok 0
info 0 S => ok nil
info 0 S {ver: 2} => ok
info 0 S => ok {ver: 2}
info 0 S 5 => error 44 info
info 0 S <<w:*4>> => error 44 info
info 0 S {b: <<w:*4>>} => error 44 info
info 0 S => ok {ver: 2}
info 0 S nil => ok
info 0 S => ok nil
info 0 S {b: <x:~00*3985~>} => ok
info 0 S {b: <x:~00*3986~>} => error 34 size
info 0 S {b: <x:~00*4000~>} => error 34 size
unmount 0 => ok
mount 0 => ok 7 Internal
info 0 S {ver: 3} => ok
info 0 S => ok {ver: 3}
drop 0 S => ok
soup 0 S => ok 1
info 0 S => ok nil
";

/// An image of version 1 that the program made then, record by record, with all kinds of entries,
/// indexes and tags. Each page goes on with zeros.
pub(crate) const BEFORE: &str = "
00 FF*4095
00 FF*4095
00 FF*4095
4E53544F5245 0001 0000000000000000

00 00000208 0001 0000
00000000 00000000 00000000 00000010
  08496E7465726E616C00000007000000
  00*484

00 0000020C 0001 0001
00000001 00000000 00000000 0000001A
  08496E7465726E616C0000000700010101530000000000000000
  00*474
  00000000

00 0000020C 0001 0001
00000000 00000000 00000000 00000028
  08496E7465726E616C000000070002020153000000000000000005546F20446F0001000000000000
  00*460
  00000001

00 0000020C 0001 0001
00000001 00000000 00000000 0000002E
  08496E7465726E616C0000000700020201530000000000000101000001016B0005546F20446F0001000000000000
  00*454
  00000000

00 0000020C 0001 0001
00000000 00000000 00000000 00000040
  08496E7465726E616C0000000700020201530000000000000201000001016B03010102016E0178030001016C02000101
  630005546F20446F0001000000000000
  00*436
  00000001

00 0000020C 0001 0001
00000001 00000000 00000000 00000053
  08496E7465726E616C0000000700020201530000000000000201000001016B03010102016E0178030001016C02000101
  630101066C6162656C730204776F726B04686F6D6505546F20446F0001000000000000
  00*417
  00000000

00 00000410 0002 0001
00000000 00000000 00000000 00000053
  08496E7465726E616C0000000700020201530000000000010201000001016B03010102016E0178030001016C02000101
  630101066C6162656C730204776F726B04686F6D6505546F20446F0001000000000000
  00*417
00000002 00000003 00000000 0000004B
  00000000000000000000000A02060507016B07016C07016E07016307066C6162656C7308080041006400610000070162
  060107017800FFFFFFFFEC016104010704776F726B0704686F6D65
  00*425
  00000001

00 00000614 0003 0001
00000001 00000000 00000000 00000053
  08496E7465726E616C0000000700020201530000000000020201000001016B03010102016E0178030001016C02000101
  630101066C6162656C730204776F726B04686F6D6505546F20446F0001000000000000
  00*417
00000003 00000005 00000000 00000083
  00000001000000010000000A02060607016B07017207017607017407017A070166080E006C006F006E00650020D80000
  00030207017801020C0704776176650000000000000000000000000000000000001A0A06040703746F7007046C656674
  0706626F74746F6D0705726967687400040008000C00100000000A0000000200000003
  00*369
00000004 00000002 00000000 00000003
  414243
  00*497
  00000000

00 00000410 0002 0001
00000000 00000000 00000000 00000053
  08496E7465726E616C0000000700020201530000000000020201000001016B03010102016E0178030001016C02000101
  630101066C6162656C730204776F726B04686F6D6505546F20446F0001000000010000
  00*417
00000005 00000007 00000000 0000002D
  00010000000000000000000A020602070473656C6607046C697374060107026D65090305030004050100080600
  00*455
  00000001

00 00000410 0002 0001
00000001 00000000 00000000 00000053
  08496E7465726E616C0000000700020201530000000000030201000001016B03010102016E0178030001016C02000101
  630101066C6162656C730204776F726B04686F6D6505546F20446F0001000000010000
  00*417
00000006 00000009 00000000 0000000F
  00000000000000020000000A020600
  00*485
  00000000

00 00000210 0001 0002
00000000 00000000 00000000 00000053
  08496E7465726E616C0000000700020201530000000000030201000001016B03010102016E0178030001016C02000101
  630101066C6162656C730204776F726B04686F6D6505546F20446F0001000000010000
  00*417
  00000001
  00000006
FF*12065
00*20480
";

/// What it has.
const KEPT: &str = "
mount 0 => ok 7 Internal
soups 0 => ok S 0 2, \"To Do\" 1 1
indexes 0 S => ok k:string:ascend, n.x:int:descend l:symbol:ascend c:char:ascend
tags 0 S => ok labels work home
indexes 0 \"To Do\" => ok
tags 0 \"To Do\" => ok
info 0 S => ok nil
info 0 \"To Do\" => ok nil
get 0 S 0 => ok 10 {k: \"Ada\", l: 'b, n: {x: -5}, c: $a, labels: [work: 'home]}
getx 0 S 1 => ok 10 02060607016B07017207017607017407017A070166080E006C006F006E00650020D8000000030207017801020C0704776176650000000003000000000000000000000000414243001A0A0B01020304
get 0 S 1 => ok 10 {k: \"lone \\uD800\", r: <x:0102>, v: <<wave:414243>>, t: true, z: nil, f: {top: 1, left: 2, bottom: 3, right: 4}}
get 0 \"To Do\" 0 => ok 10 {self: #0={me: #0#}, list: [1, [2], {}]}
vread 0 S 1 v 1 2 => ok 4243
query 0 S {indexPath: 'k, beginKey: \"a\"} => ok 0
entry 0 => ok 0 0 10 {k: \"Ada\", l: 'b, n: {x: -5}, c: $a, labels: [work: 'home]}
next 0 => ok 0 1 10 {k: \"lone \\uD800\", r: <x:0102>, v: <<wave:414243>>, t: true, z: nil, f: {top: 1, left: 2, bottom: 3, right: 4}}
next 0 => ok nil
query 0 S {indexPath: [[pathExpr: 'n, 'x], 'l, 'c], tagSpec: {all: 'home}} => ok 1
entry 1 => ok 0 0 10 {k: \"Ada\", l: 'b, n: {x: -5}, c: $a, labels: [work: 'home]}
alias 0 \"To Do\" 0 => ok [alias: 7, 1, 0]
";

/// It goes on as any other store.
pub(crate) const GOES_ON: &str = "
mount 0 => ok 7 Internal
info 0 S {ver: 2} => ok
set 0 S 0 k \"Eve\" => ok
vwrite 0 S 1 v 0 FF => ok
add 0 S {k: \"new\"} => ok 3
soup 0 Third => ok 2
unmount 0 => ok
mount 0 => ok 7 Internal
soups 0 => ok S 0 3, \"To Do\" 1 1, Third 2 0
info 0 S => ok {ver: 2}
info 0 Third => ok nil
get 0 S 0 => ok 0 {k: \"Eve\", l: 'b, n: {x: -5}, c: $a, labels: [work: 'home]}
vread 0 S 1 v 0 3 => ok FF4243
get 0 \"To Do\" 0 => ok 10 {self: #0={me: #0#}, list: [1, [2], {}]}
get 0 S 3 => ok 0 {k: \"new\"}
tags 0 S => ok labels work home
indexes 0 S => ok k:string:ascend, n.x:int:descend l:symbol:ascend c:char:ascend
";

/// What the first of two devices of 13 blocks holds after a table, where it held these bytes and
/// the other one is blank.
fn left_by(alloc: Global, table: &str, bytes: &[u8]) -> Result<Vec<u8>, Fail> {
    let blank = blocks(alloc, 13)?;
    let host = run_table_on(alloc, "run a b", table, bytes, &blank)?;
    image(alloc, &host, Unit(0))
}

/// A table changes no byte of an image.
fn expect_kept(alloc: Global, table: &str, bytes: &[u8]) -> Result<(), Fail> {
    if left_by(alloc, table, bytes)?.as_slice() != bytes {
        return Err(Fail::new("the image is changed"));
    }
    Ok(())
}

#[test]
fn a_mount_of_an_old_image_changes_no_byte(rt: HostRuntime) -> Result<(), Fail> {
    let alloc = rt.alloc();
    expect_kept(alloc, MOUNTS, &bytes_of(alloc, FRESH)?)
}

/// All votes are for the other bank, which begins with these bytes.
fn is_switched(image: &[u8], bank: &[u8]) -> bool {
    let votes = [image.get(0), image.get(4096), image.get(8192)];
    let other = image.get(OTHER_BANK..).unwrap_or(&[]);
    votes == [Some(&1), Some(&1), Some(&1)] && other.starts_with(bank)
}

#[test]
fn the_first_change_of_an_old_image_goes_to_the_other_bank(rt: HostRuntime) -> Result<(), Fail> {
    let alloc = rt.alloc();
    let left = left_by(alloc, CHANGES, &bytes_of(alloc, FRESH)?)?;
    assert!(rt; is_switched(&left, &bytes_of(alloc, SWITCHED)?));
    Ok(())
}

#[test]
fn keeps_what_an_old_image_has(rt: HostRuntime) -> Result<(), Fail> {
    let alloc = rt.alloc();
    let before = bytes_of(alloc, BEFORE)?;
    expect_kept(alloc, KEPT, &before)?;
    left_by(alloc, GOES_ON, &before)?;
    Ok(())
}

#[test]
fn a_soup_has_an_info_frame_or_none(rt: HostRuntime) -> Result<(), Fail> {
    expect(rt.alloc(), "run a", INFOS)
}

/// What is tried of each call.
const PICKS: [Pick; 6] = [
    Pick::Old,
    Pick::New,
    Pick::Half,
    Pick::Fill(0),
    Pick::Fill(1),
    Pick::Fill(255),
];

/// A first change of an old image, and what is asked after a stop.
const FIRST: &[u8] = b"mount 0\ninfo 0 S {ver: 2}\n";

const ASK: &[u8] = b"mount 0
soups 0
indexes 0 S
tags 0 S
info 0 S
getx 0 S 0
getx 0 S 1
getx 0 \"To Do\" 0
soup 0 Next
add 0 S {}
add 0 \"To Do\" {}
add 0 Next {}
";

/// The version of the bank after so many lines.
fn version_after(looks: &Looks, lines: usize) -> u8 {
    match looks.next_runs.get(lines) {
        Some(next_run) => next_run.version,
        None => 0,
    }
}

/// A stop at each device call of the first change leaves the store before it, in version 1, or the
/// store after it, in version 2.
#[test]
fn a_stop_within_the_first_change_loses_nothing(rt: HostRuntime) -> Result<(), Fail> {
    let alloc = rt.alloc();
    let (before, blank) = (bytes_of(alloc, BEFORE)?, blocks(alloc, 13)?);
    let looks = looks_by_line(alloc, FIRST, [&before, &blank], ASK, Unit(0))?;
    assert!(rt; [version_after(&looks, 1), version_after(&looks, 2)] == [1, 2]);
    let host = run_over(alloc, "run a b", FIRST, &before, &blank)?;
    let mut counts = Counts::none();
    for pick in PICKS {
        counts.add(expect_safe(alloc, &host, Unit(0), pick, ASK, &looks)?);
    }
    counts.expect(828, 81)
}
