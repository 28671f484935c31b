//! How many pages entries with large binaries take: a unit of 13 blocks has 38, of which the
//! directory takes one.

use newt_test_scripts::expect;
use std::test::Fail;

/// One page and three: 1 + 9 * 4 + 1 are all pages.
const FOUR_EACH: &str = "
format 0 A 7 => ok
mount 0 => ok 7 A
soup 0 S => ok 0
add 0 S {v: <<wave:*1200>>} => ok 0
add 0 S {v: <<wave:*1200>>} => ok 1
add 0 S {v: <<wave:*1200>>} => ok 2
add 0 S {v: <<wave:*1200>>} => ok 3
add 0 S {v: <<wave:*1200>>} => ok 4
add 0 S {v: <<wave:*1200>>} => ok 5
add 0 S {v: <<wave:*1200>>} => ok 6
add 0 S {v: <<wave:*1200>>} => ok 7
add 0 S {v: <<wave:*1200>>} => ok 8
add 0 S {v: <<wave:*1200>>} => error 33 full
add 0 S {} => ok 9
add 0 S {} => error 33 full
vwrite 0 S 8 v 0 41 => ok
set 0 S 8 v nil => ok
add 0 S {v: <<wave:*1000>>} => ok 10
add 0 S {} => error 33 full
set 0 S 10 v <<wave:*1001>> => error 33 full
set 0 S 10 v <<wave:*1000>> => ok
";

#[test]
fn counts_the_page_of_an_entry_and_those_of_its_large_binary(rt: HostRuntime) -> Result<(), Fail> {
    expect(rt.alloc(), "run a b", FOUR_EACH)
}

/// An entry that is removed gives its four pages back, and so does a soup that is dropped.
const GIVEN_BACK: &str = "
format 0 A 7 => ok
mount 0 => ok 7 A
soup 0 S => ok 0
add 0 S {v: <<wave:*1200>>} => ok 0
add 0 S {v: <<wave:*1200>>} => ok 1
add 0 S {v: <<wave:*1200>>} => ok 2
add 0 S {v: <<wave:*1200>>} => ok 3
add 0 S {v: <<wave:*1200>>} => ok 4
add 0 S {v: <<wave:*1200>>} => ok 5
add 0 S {v: <<wave:*1200>>} => ok 6
add 0 S {v: <<wave:*1200>>} => ok 7
add 0 S {v: <<wave:*1200>>} => ok 8
add 0 S {v: <<wave:*1200>>} => error 33 full
remove 0 S 4 => ok
add 0 S {v: <<wave:*1500>>} => ok 9
add 0 S {v: <<wave:*0>>} => error 33 full
move 0 S 9 0 S => ok 10
copy 0 S 10 0 S => error 33 full
vread 0 S 10 v 1499 1 => ok 00
drop 0 S => ok
soup 0 S => ok 1
add 0 S {v: <<wave:*18000>>} => ok 0
add 0 S {} => error 33 full
remove 0 S 0 => ok
add 0 S {v: <<wave:*18001>>} => error 33 full
add 0 S {v: <<wave:*17500>>} => ok 1
";

#[test]
fn gives_back_the_pages_of_what_goes(rt: HostRuntime) -> Result<(), Fail> {
    expect(rt.alloc(), "run a b", GIVEN_BACK)
}

/// A large binary without bytes has a page: 1 + 18 * 2 + 1.
const EMPTY: &str = "
format 0 A 7 => ok
mount 0 => ok 7 A
soup 0 S => ok 0
add 0 S {v: <<wave:>>} => ok 0
add 0 S {v: <<wave:>>} => ok 1
add 0 S {v: <<wave:>>} => ok 2
add 0 S {v: <<wave:>>} => ok 3
add 0 S {v: <<wave:>>} => ok 4
add 0 S {v: <<wave:>>} => ok 5
add 0 S {v: <<wave:>>} => ok 6
add 0 S {v: <<wave:>>} => ok 7
add 0 S {v: <<wave:>>} => ok 8
add 0 S {v: <<wave:>>} => ok 9
add 0 S {v: <<wave:>>} => ok 10
add 0 S {v: <<wave:>>} => ok 11
add 0 S {v: <<wave:>>} => ok 12
add 0 S {v: <<wave:>>} => ok 13
add 0 S {v: <<wave:>>} => ok 14
add 0 S {v: <<wave:>>} => ok 15
add 0 S {v: <<wave:>>} => ok 16
add 0 S {v: <<wave:>>} => ok 17
add 0 S {v: <<wave:>>} => error 33 full
add 0 S {} => ok 18
add 0 S {} => error 33 full
vwrite 0 S 3 v 0 => ok
change 0 S 3 {} => ok
add 0 S {} => ok 19
add 0 S {} => error 33 full
";

#[test]
fn counts_a_page_of_a_large_binary_without_bytes(rt: HostRuntime) -> Result<(), Fail> {
    expect(rt.alloc(), "run a b", EMPTY)
}

/// 500 bytes are one page, and 501 two.
const ONE_PAGE: &str = "
format 0 A 7 => ok
mount 0 => ok 7 A
soup 0 S => ok 0
add 0 S {v: <<wave:*500>>} => ok 0
add 0 S {v: <<wave:*500>>} => ok 1
add 0 S {v: <<wave:*500>>} => ok 2
add 0 S {v: <<wave:*500>>} => ok 3
add 0 S {v: <<wave:*500>>} => ok 4
add 0 S {v: <<wave:*500>>} => ok 5
add 0 S {v: <<wave:*500>>} => ok 6
add 0 S {v: <<wave:*500>>} => ok 7
add 0 S {v: <<wave:*500>>} => ok 8
add 0 S {v: <<wave:*500>>} => ok 9
add 0 S {v: <<wave:*500>>} => ok 10
add 0 S {v: <<wave:*500>>} => ok 11
add 0 S {v: <<wave:*500>>} => ok 12
add 0 S {v: <<wave:*500>>} => ok 13
add 0 S {v: <<wave:*500>>} => ok 14
add 0 S {v: <<wave:*500>>} => ok 15
add 0 S {v: <<wave:*500>>} => ok 16
add 0 S {v: <<wave:*500>>} => ok 17
add 0 S {v: <<wave:*500>>} => error 33 full
add 0 S {} => ok 18
set 0 S 0 v <<wave:*501>> => error 33 full
remove 0 S 18 => ok
set 0 S 0 v <<wave:*501>> => ok
get 0 S 18 => error 32 entry
";

#[test]
fn holds_500_bytes_in_a_page(rt: HostRuntime) -> Result<(), Fail> {
    expect(rt.alloc(), "run a b", ONE_PAGE)
}

/// Two ways to one large binary are one object of six pages: 1 + 5 * 7 + 2.
const SHARED: &str = "
format 0 A 7 => ok
mount 0 => ok 7 A
soup 0 S => ok 0
add 0 S {a: #1=<<x:*3000>>, b: #1#} => ok 0
add 0 S {a: #1=<<x:*3000>>, b: #1#} => ok 1
add 0 S {a: #1=<<x:*3000>>, b: #1#} => ok 2
add 0 S {a: #1=<<x:*3000>>, b: #1#} => ok 3
add 0 S {a: #1=<<x:*3000>>, b: #1#} => ok 4
add 0 S {a: #1=<<x:*3000>>, b: #1#} => error 33 full
add 0 S {a: <<x:>>} => ok 5
add 0 S {} => error 33 full
vwrite 0 S 4 b 2999 01 => ok
vread 0 S 4 a 2998 2 => ok 0001
";

#[test]
fn counts_the_pages_of_a_shared_large_binary_once(rt: HostRuntime) -> Result<(), Fail> {
    expect(rt.alloc(), "run a b", SHARED)
}

/// Two large binaries of the same bytes are two: 1 + 2 * 13 + 11.
const EQUAL: &str = "
format 0 A 7 => ok
mount 0 => ok 7 A
soup 0 S => ok 0
add 0 S {a: <<x:*3000>>, b: <<x:*3000>>} => ok 0
add 0 S {a: <<x:*3000>>, b: <<x:*3000>>} => ok 1
add 0 S {a: <<x:*3000>>, b: <<x:*3000>>} => error 33 full
add 0 S {a: <<x:*5000>>} => ok 2
add 0 S {} => error 33 full
";

#[test]
fn counts_the_pages_of_equal_large_binaries_twice(rt: HostRuntime) -> Result<(), Fail> {
    expect(rt.alloc(), "run a b", EQUAL)
}
