//! Small rectangles. What is answered has them; what is kept and what is counted is the flat text,
//! which has none.

use crate::trial::{expect_lines, expect_outputs};
use newt_host::Unit;
use newt_test_scripts::{blocks, expect, expect_over, image, run_table_on};
use newt_test_tables::bytes_of;
use std::process::Abort;
use std::test::Fail;

/// Streams with frames of four sides, and literals, which have no other form for them.
const TEXTS: &str = "
nsof 020B01020304 => ok 020B01020304
nsof 0206040703746F7007046C6566740706626F74746F6D0705726967687400040008000C0010 => ok 020B01020304
nsof 0205020B010203040703746F70 => ok 0205020B010203040703746F70
nsof 0205030B010203040703746F700902 => ok 0205030B010203040703746F700902
nsof 0205020B010203040901 => ok 0205020B010203040901
nsof 0206040703546F7007046C6566740706626F74746F6D0705726967687400040008000C0010 => ok 0206040703546F7007046C6566740706626F74746F6D0705726967687400040008000C0010
nsof 0206040703746F7007046C6566740706626F74746F6D0705726967687400FF000003FC0008000C0010 => ok 020BFF020304
nsof 0206040703746F7007046C6566740706626F74746F6D0705726967687400FF000004000008000C0010 => ok 0206040703746F7007046C6566740706626F74746F6D0705726967687400FF000004000008000C0010
nsof 0205020703546F700B01020304 => ok 0205020703546F700B01020304
nsof 0205020B010203040703544F50 => ok 0205020B010203040703746F70
nsof 02040107016306040703746F7007046C6566740706626F74746F6D0705726967687400040008000C0010 => ok 0204010701630B01020304
nsof 02~0501*199~06040703746F7007046C6566740706626F74746F6D0705726967687400040008000C0010 => ok 02~0501*199~0B01020304
nsof 02~0501*200~0B01020304 => error 1 malformed
nsof 020B010203 => error 1 malformed
lit {top: 1, left: 2, bottom: 3, right: 4} => ok {top: 1, left: 2, bottom: 3, right: 4}
lit ['TOP, #1={top: 1, left: 2, bottom: 3, right: 4}, #1#] => ok ['TOP, #0={TOP: 1, left: 2, bottom: 3, right: 4}, #0#]
";

#[test]
fn answers_rectangles(rt: HostRuntime) -> Result<(), Fail> {
    expect_lines(rt.alloc(), TEXTS)
}

#[test]
fn shows_rectangles(rt: HostRuntime) -> Result<(), Fail> {
    let cases: &[(&[u8], &[u8])] = &[
        (
            b"\x02\x0B\x01\x02\x03\xFF",
            b"ok {top: 1, left: 2, bottom: 3, right: 255}\n",
        ),
        (b"\x02\x0B\x01\x02\x03", b"error 1 malformed\n"),
    ];
    expect_outputs(rt.alloc(), "show", cases)
}

#[test]
fn packs_rectangles(rt: HostRuntime) -> Result<(), Fail> {
    let cases: &[(&[u8], &[u8])] = &[
        (
            b"{top: 1, left: 2, bottom: 3, right: 255}",
            b"\x02\x0B\x01\x02\x03\xFF",
        ),
        (
            b"['Top, {top: 1, left: 2, bottom: 3, right: 4}]",
            b"\x02\x05\x02\x07\x03Top\x0B\x01\x02\x03\x04",
        ),
        (
            b"{top: 1, left: 2, bottom: 3, right: -1}",
            b"\x02\x06\x04\x07\x03top\x07\x04left\x07\x06bottom\x07\x05right\x00\x04\x00\x08\x00\x0C\x00\xFF\xFF\xFF\xFF\xFC",
        ),
    ];
    expect_outputs(rt.alloc(), "pack", cases)
}

/// Entries with rectangles, which are changed into other frames and back.
const ENTRIES: &str = "
format 0 Internal 7 => ok
mount 0 => ok 7 Internal
soup 0 S => ok 0
addx 0 S 02060107017206040703746F7007046C6566740706626F74746F6D0705726967687400040008000C0010 => ok 0
addx 0 S 020B00FF00FF => ok 1
add 0 S {at: #0={top: 1, left: 2, bottom: 3, right: 4}, also: #0#, of: 'top, is: 'top} => ok 2
add 0 S {Top: 1, left: 2, bottom: 3, right: 4} => ok 3
add 0 S {r: {top: 1, left: 2, bottom: 3, right: 4}, v: <<wave:414243>>} => ok 4
getx 0 S 0 => ok 0 0206010701720B01020304
getx 0 S 1 => ok 0 020B00FF00FF
getx 0 S 2 => ok 0 020604070261740704616C736F07026F66070269730B0102030409050703746F700906
getx 0 S 3 => ok 0 0206040703546F7007046C6566740706626F74746F6D0705726967687400040008000C0010
getx 0 S 4 => ok 0 0206020701720701760B010203040C0704776176650000000003000000000000000000000000414243
vread 0 S 4 v 1 2 => ok 4243
set 0 S 1 right 256 => ok
getx 0 S 1 => ok 0 0206040703746F7007046C6566740706626F74746F6D07057269676874000000FF000003FC000000FF00000400
set 0 S 1 right 5 => ok
getx 0 S 1 => ok 0 020B00FF0005
set 0 S 0 Top 6 => ok
getx 0 S 0 => ok 0 0206020701720703746F700B010203040018
change 0 S 3 {x: {top: 0, left: 0, bottom: 0, right: 0}} => ok
unmount 0 => ok
mount 0 => ok 7 Internal
get 0 S 0 => ok 0 {r: {top: 1, left: 2, bottom: 3, right: 4}, top: 6}
getx 0 S 1 => ok 0 020B00FF0005
getx 0 S 3 => ok 0 0206010701780B00000000
getx 0 S 4 => ok 0 0206020701720701760B010203040C0704776176650000000003000000000000000000000000414243
";

#[test]
fn answers_entries_with_rectangles(rt: HostRuntime) -> Result<(), Fail> {
    expect(rt.alloc(), "run a", ENTRIES)
}

/// A flat text has at most 64,000 bytes, and the written text may have more or fewer.
const SIZES: &str = "
format 0 Internal 7 => ok
mount 0 => ok 7 Internal
soup 0 S => ok 0
addx 0 S 02060107016105FF00000DE2~0B01020304*3554~ => error 34 size
addx 0 S 02060107016105FF00000DE1~0B01020304*3553~ => ok 0
set 0 S 0 b {top: 1, left: 2, bottom: 3, right: 4} => error 34 size
getx 0 S 0 => ok 0 02060107016105FF00000DE1~0B01020304*3553~
set 0 S 0 b 1 => ok
getx 0 S 0 => ok 0 02060207016107016205FF00000DE1~0B01020304*3553~0004
remove 0 S 0 => ok
addx 0 S 02060107016105FF00002BF406040703746F7007046C6566740706626F74746F6D0705726967687400040008000C0010~0500*251~~0904*11000~ => ok 1
getx 0 S 1 => ok 0 02060107016105FF00002BF40B01020304~0500*251~0703746F70~09FF000000FF*10999~
unmount 0 => ok
mount 0 => ok 7 Internal
getx 0 S 1 => ok 0 02060107016105FF00002BF40B01020304~0500*251~0703746F70~09FF000000FF*10999~
";

#[test]
fn counts_the_flat_text(rt: HostRuntime) -> Result<(), Fail> {
    expect_over(rt.alloc(), "run a", SIZES, 60)
}

/// The flat text of the second entry takes 55 pages, of which a unit of 13 blocks has 37; the
/// written text would take 16.
const PAGES: &str = "
format 0 Internal 7 => ok
mount 0 => ok 7 Internal
soup 0 S => ok 0
addx 0 S 02060107016105FF000003E8~0B01020304*1000~ => ok 0
remove 0 S 0 => ok
addx 0 S 02060107016105FF000005DC~0B01020304*1500~ => error 33 full
";

#[test]
fn takes_pages_for_the_flat_text(rt: HostRuntime) -> Result<(), Fail> {
    expect(rt.alloc(), "run a", PAGES)
}

/// An image from before streams were written with small rectangles, record by record: a store, a
/// soup, and three entries, the third with a large binary. Each page goes on with zeros.
const BEFORE: &str = "
00 FF*4095
00 FF*4095
00 FF*4095
4E53544F5245 0001 0000000000000000

00 00000208 0001 0000
00000000 00000000 00000000 00000010
  08496E7465726E616C00000007000000
  00*484

00 00000208 0001 0000
00000000 00000000 00000000 0000001A
  08496E7465726E616C0000000700010101530000000000000000
  00*474

00 0000040C 0002 0000
00000000 00000000 00000000 0000001A
  08496E7465726E616C0000000700010101530000000000010000
  00*474
00000001 00000001 00000000 0000003D
  00000000000000000000000A0206020702617407026F6606040703746F7007046C6566740706626F74746F6D0705726967687400040008000C00100904
  00*439

00 0000040C 0002 0000
00000000 00000000 00000000 0000001A
  08496E7465726E616C0000000700010101530000000000020000
  00*474
00000002 00000003 00000000 00000039
  00000000000000010000000A0206040703746F7007046C6566740706626F74746F6D070572696768740000000000FF000003FC00FF000003FC
  00*443

00 00000610 0003 0000
00000000 00000000 00000000 0000001A
  08496E7465726E616C0000000700010101530000000000030000
  00*474
00000003 00000005 00000000 0000007D
  00000001000000020000000A020602070173070176050407044C65667406040703746F7009040706626F74746F6D0705726967687400040008000C00FF000004000604090609040907090800040008000C00FF000003FC09050C07047761766500000000000000000000000000000000000000000A0000000200000003
  00*375
00000004 00000002 00000000 00000003
  414243
  00*497
FF*36255
";

/// What it has.
const KEPT: &str = "
mount 0 => ok 7 Internal
soups 0 => ok S 0 3
get 0 S 0 => ok 10 {at: {top: 1, left: 2, bottom: 3, right: 4}, of: 'top}
get 0 S 1 => ok 10 {top: 0, left: 0, bottom: 255, right: 255}
get 0 S 2 => ok 10 {s: ['Left, #0={top: 1, Left: 2, bottom: 3, right: 256}, {top: 1, Left: 2, bottom: 3, right: 255}, #0#], v: <<wave:414243>>}
getx 0 S 0 => ok 10 0206020702617407026F660B010203040703746F70
getx 0 S 1 => ok 10 020B0000FFFF
getx 0 S 2 => ok 10 020602070173070176050407044C65667406040703746F7009040706626F74746F6D0705726967687400040008000C00FF000004000B010203FF09050C0704776176650000000003000000000000000000000000414243
vread 0 S 2 v 1 2 => ok 4243
";

/// It goes on as any other store.
const GOES_ON: &str = "
mount 0 => ok 7 Internal
set 0 S 1 bottom 7 => ok
set 0 S 2 s nil => ok
vwrite 0 S 2 v 0 FF => ok
add 0 S {top: 1, left: 2, bottom: 3, right: 4} => ok 3
unmount 0 => ok
mount 0 => ok 7 Internal
getx 0 S 0 => ok 10 0206020702617407026F660B010203040703746F70
getx 0 S 1 => ok 0 020B000007FF
getx 0 S 2 => ok 0 0206020701730701760A0C0704776176650000000003000000000000000000000000FF4243
getx 0 S 3 => ok 0 020B01020304
";

#[test]
fn mounts_an_image_from_before(rt: HostRuntime) -> Result<(), Fail> {
    let alloc = rt.alloc();
    let (before, blank) = (bytes_of(alloc, BEFORE)?, blocks(alloc, 13)?);
    let host = run_table_on(alloc, "run a b", KEPT, &before, &blank)?;
    assert!(rt; image(alloc, &host, Unit(0))?.as_slice() == before.as_slice());
    run_table_on(alloc, "run a b", GOES_ON, &before, &blank)?;
    Ok(())
}
