//! Large binaries that are read, overwritten, shared and placed, with replies that were written by
//! hand.

use newt_test_scripts::expect;
use std::test::Fail;

/// A large binary of three pages is overwritten where two pages meet, and read at its edges.
const PATCHED: &str = "
format 0 A 7 => ok
mount 0 => ok 7 A
soup 0 S => ok 0
add 0 S {v: <<wave:*1200>>} => ok 0
vwrite 0 S 0 v 499 4142 => ok
vread 0 S 0 v 498 4 => ok 00414200
vread 0 S 0 v 1200 0 => ok
vread 0 S 0 v 1199 2 => error 39 range
vread 0 S 0 v 1199 1 => ok 00
vread 0 S 0 v 1201 0 => error 39 range
vwrite 0 S 0 v 1200 => ok
vwrite 0 S 0 v 1201 => error 39 range
vwrite 0 S 0 v 1199 4142 => error 39 range
vwrite 0 S 0 v 1199 43 => ok
vread 0 S 0 v 1196 4 => ok 00000043
vwrite 0 S 0 v 0 ff => ok
vread 0 S 0 v 0 2 => ok FF00
vread 0 S 0 V 499 2 => ok 4142
vread 0 S 0 v 0 0 => ok
unmount 0 => ok
mount 0 => ok 7 A
vread 0 S 0 v 498 4 => ok 00414200
vread 0 S 0 v 1198 2 => ok 0043
soups 0 => ok S 0 1
";

#[test]
fn reads_and_overwrites_across_pages(rt: HostRuntime) -> Result<(), Fail> {
    expect(rt.alloc(), "run a b", PATCHED)
}

/// One large binary in two slots is one object: what is written through one slot shows through the
/// other.
const SHARED: &str = "
format 0 A 7 => ok
mount 0 => ok 7 A
soup 0 S => ok 0
add 0 S {a: #1=<<x:0011>>, b: #1#} => ok 0
add 0 S {a: <<x:0011>>, b: <<x:0011>>} => ok 1
get 0 S 0 => ok 0 {a: #0=<<x:0011>>, b: #0#}
vwrite 0 S 0 a 0 AA => ok
vread 0 S 0 b 0 2 => ok AA11
vwrite 0 S 0 b 1 BB => ok
get 0 S 0 => ok 0 {a: #0=<<x:AABB>>, b: #0#}
vwrite 0 S 1 a 0 AA => ok
get 0 S 1 => ok 0 {a: <<x:AA11>>, b: <<x:0011>>}
set 0 S 0 a nil => ok
get 0 S 0 => ok 0 {a: nil, b: <<x:AABB>>}
set 0 S 0 f {c: 'X} => ok
get 0 S 0 => ok 0 {a: nil, b: <<x:AABB>>, f: {c: 'x}}
copy 0 S 1 0 S => ok 2
vwrite 0 S 2 b 0 CCDD => ok
get 0 S 1 => ok 0 {a: <<x:AA11>>, b: <<x:0011>>}
get 0 S 2 => ok 0 {a: <<x:AA11>>, b: <<x:CCDD>>}
";

#[test]
fn shares_a_large_binary(rt: HostRuntime) -> Result<(), Fail> {
    expect(rt.alloc(), "run a b", SHARED)
}

/// Large binaries in every place of a graph, as literals and as streams.
const PLACED: &str = "
lit <<wave:*3>> => ok <<wave:000000>>
lit <<wave:>> => ok <<wave:>>
lit <<wave:*0>> => ok <<wave:>>
lit <<|a b|:0a>> => ok <<|a b|:0A>>
lit <<wave:*1000001>> => error 3 literal
lit <<wave:0>> => error 3 literal
format 0 A 7 => ok
mount 0 => ok 7 A
soup 0 S => ok 0
add 0 S <<wave:00>> => error 37 notframe
add 0 S {v: <<wave:4142>>} => ok 0
getx 0 S 0 => ok 0 0206010701760C07047761766500000000020000000000000000000000004142
addx 0 S 0206010701760C0704776176650000000002000000000000000000000000434445 => error 1 malformed
addx 0 S 0206010701760C0704776176650000000002000000020000000000000000616243FF => ok 1
get 0 S 1 => ok 0 {v: <<wave:43FF>>}
addx 0 S 0206010701760C07047761766501000000020000000000000000000000004142 => error 2 compressed
add 0 S {f: {g: <<V:01>>}, v: [<<w:02>>, [<<w:>>]], v: nil} => error 3 literal
add 0 S {f: {g: <<V:01>>}, v: [<<w:02>>, [<<w:>>]]} => ok 2
get 0 S 2 => ok 0 {f: {g: <<V:01>>}, V: [<<w:02>>, [<<w:>>]]}
vwrite 0 S 2 f.g 0 7F => ok
vread 0 S 2 F.G 0 1 => ok 7F
vread 0 S 2 v 0 0 => error 38 path
get 0 S 2 => ok 0 {f: {g: <<V:7F>>}, V: [<<w:02>>, [<<w:>>]]}
add 0 S {e: <<w:>>, me: #1={up: #1#, v: <<w:05>>}} => ok 3
vread 0 S 3 e 0 0 => ok
vread 0 S 3 e 0 1 => error 39 range
vwrite 0 S 3 e 0 => ok
vwrite 0 S 3 me.up.up.up.up.up.up.v 0 06 => ok
get 0 S 3 => ok 0 {e: <<w:>>, me: #0={up: #0#, v: <<w:06>>}}
unmount 0 => ok
mount 0 => ok 7 A
get 0 S 2 => ok 0 {f: {g: <<V:7F>>}, V: [<<w:02>>, [<<w:>>]]}
get 0 S 3 => ok 0 {e: <<w:>>, me: #0={up: #0#, v: <<w:06>>}}
";

#[test]
fn takes_large_binaries_in_every_place(rt: HostRuntime) -> Result<(), Fail> {
    expect(rt.alloc(), "run a b", PLACED)
}
