//! Runs whose calls move one byte at a time.

use newt_test_scripts::{expect_end, lines_of, over_blank};
use newt_top::Status;
use std::alloc::Global;
use std::test::Fail;

/// Lines without devices, a unit that is formatted and mounted, and a walk over entries that go.
const TABLES: [&str; 3] = [
    "nsof 0206010701610004 => ok 0206010701610004",
    "
mount 0 => error 22 nostore
format 0 Internal 7 => ok
mount 0 => ok 7 Internal
mount 0 => error 21 mounted
format 0 Again 8 => error 21 mounted
unmount 0 => ok
format 0 Again 8 => error 26 store
mount 1 => error 20 unit
",
    "
format 0 Internal 7 => ok
mount 0 => ok 7 Internal
soup 0 S => ok 0
index 0 S k:string:ascend => ok
add 0 S {k: \"a\"} => ok 0
add 0 S {k: \"b\"} => ok 1
add 0 S {k: \"c\"} => ok 2
query 0 S {indexPath: 'k} => ok 0
next 0 => ok 0 1 0 {k: \"b\"}
remove 0 S 1 => ok
entry 0 => ok deleted
next 0 => ok 0 2 0 {k: \"c\"}
prev 0 => ok 0 0 0 {k: \"a\"}
prev 0 => ok nil
which 0 => ok begin
",
];

/// A table is run over a unit, with calls that move at most `piece` bytes.
fn expect_in_pieces(alloc: Global, table: &str, piece: u32) -> Result<(), Fail> {
    let (script, output) = lines_of(alloc, table)?;
    let mut host = over_blank(alloc, &script)?;
    host.piece(piece.max(1));
    expect_end(alloc, "run a", &mut host, Status::Ok, &output)
}

#[test]
fn a_byte_at_a_time_gives_the_same(rt: HostRuntime) -> Result<(), Fail> {
    for table in TABLES {
        for piece in [1u32, 3, u32::MAX] {
            expect_in_pieces(rt.alloc(), table, piece)?;
        }
    }
    Ok(())
}
