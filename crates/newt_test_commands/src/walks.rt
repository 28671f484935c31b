//! Walks as the rules say, with replies that were written by hand.

use newt_test_scripts::expect;
use std::test::Fail;

/// The entry under a cursor is removed, and the walk goes on from where it stood.
const REMOVED: &str = "
format 0 A 7 => ok
mount 0 => ok 7 A
soup 0 S => ok 0
index 0 S k:string:ascend => ok
add 0 S {k: \"a\"} => ok 0
add 0 S {k: \"b\"} => ok 1
add 0 S {k: \"c\"} => ok 2
query 0 S {indexPath: 'k} => ok 0
next 0 => ok 0 1 0 {k: \"b\"}
remove 0 S 1 => ok
entry 0 => ok deleted
next 0 => ok 0 2 0 {k: \"c\"}
prev 0 => ok 0 0 0 {k: \"a\"}
prev 0 => ok nil
which 0 => ok begin
";

#[test]
fn goes_on_after_an_entry_that_was_removed(rt: HostRuntime) -> Result<(), Fail> {
    expect(rt.alloc(), "run a b c d", REMOVED)
}

/// A cursor follows its entry to another key, and stands there when the entry has no key any more.
const CHANGED: &str = "
format 0 A 7 => ok
mount 0 => ok 7 A
soup 0 S => ok 0
index 0 S k:string:ascend => ok
add 0 S {k: \"a\"} => ok 0
add 0 S {k: \"b\"} => ok 1
add 0 S {k: \"c\"} => ok 2
add 0 S {k: \"e\"} => ok 3
query 0 S {indexPath: 'k} => ok 0
next 0 => ok 0 1 0 {k: \"b\"}
set 0 S 1 k \"d\" => ok
entry 0 => ok 0 1 0 {k: \"d\"}
set 0 S 1 k 5 => ok
entry 0 => ok deleted
next 0 => ok 0 3 0 {k: \"e\"}
";

#[test]
fn follows_an_entry_to_another_key(rt: HostRuntime) -> Result<(), Fail> {
    expect(rt.alloc(), "run a b c d", CHANGED)
}

/// A walk over two stores, of which one is mounted and taken away under it.
const UNION: &str = "
format 0 A 7 => ok
format 1 B 9 => ok
mount 0 => ok 7 A
mount 1 => ok 9 B
soup 0 N => ok 0
soup 1 N => ok 0
index 0 N k:string:ascend => ok
index 1 N k:string:ascend => ok
add 0 N {k: \"a\"} => ok 0
add 0 N {k: \"m\"} => ok 1
add 1 N {k: \"m\"} => ok 0
add 1 N {k: \"z\"} => ok 1
unmount 1 => ok
query * N {indexPath: 'k, beginExclKey: \"a\"} => ok 0
entry 0 => ok 0 1 0 {k: \"m\"}
mount 1 => ok 9 B
next 0 => ok 1 0 0 {k: \"m\"}
next 0 => ok 1 1 0 {k: \"z\"}
next 0 => ok nil
which 0 => ok end
query * N {indexPath: 'k, beginExclKey: \"m\"} => ok 1
count 1 => ok 1
alias 1 N 1 => ok [alias: 9, 0, 1]
unmount 1 => ok
prev 0 => ok 0 1 0 {k: \"m\"}
resolve [alias: 9, 0, 1] => ok nil
mount 1 => ok 9 B
resolve [alias: 9, 0, 1] => ok 1 N 1
move 0 N 0 1 N => ok 2
";

#[test]
fn walks_over_two_stores(rt: HostRuntime) -> Result<(), Fail> {
    expect(rt.alloc(), "run a b c d", UNION)
}

/// A walk down an index, where equal keys stand by their ids.
const DESCENDING: &str = "
format 0 A 7 => ok
mount 0 => ok 7 A
soup 0 S => ok 0
index 0 S k:string:descend => ok
add 0 S {k: \"x\"} => ok 0
add 0 S {k: \"y\"} => ok 1
add 0 S {k: \"x\"} => ok 2
query 0 S {indexPath: 'k} => ok 0
entry 0 => ok 0 1 0 {k: \"y\"}
next 0 => ok 0 0 0 {k: \"x\"}
next 0 => ok 0 2 0 {k: \"x\"}
next 0 => ok nil
query 0 S {indexPath: 'k, endExclKey: \"x\"} => ok 1
entry 1 => ok 0 1 0 {k: \"y\"}
next 1 => ok nil
count 1 => ok 1
index 0 S r:real:ascend => error 43 key
";

#[test]
fn walks_down_an_index(rt: HostRuntime) -> Result<(), Fail> {
    expect(rt.alloc(), "run a b c d", DESCENDING)
}

/// Queries by tags.
const TAGS: &str = "
format 0 A 7 => ok
mount 0 => ok 7 A
soup 0 S => ok 0
tags 0 S labels work home => ok
add 0 S {labels: ['work]} => ok 0
add 0 S {labels: ['work, 'home]} => ok 1
add 0 S {labels: 'home} => ok 2
add 0 S {} => ok 3
add 0 S {labels: ['play]} => ok 4
query 0 S {tagSpec: {equal: ['work]}} => ok 0
count 0 => ok 1
query 0 S {tagSpec: {all: ['work, 'home]}} => ok 1
count 1 => ok 1
query 0 S {tagSpec: {any: ['work, 'home]}} => ok 2
count 2 => ok 3
query 0 S {tagSpec: {none: ['work]}} => ok 3
count 3 => ok 3
query 0 S {tagSpec: {equal: []}} => ok 4
count 4 => ok 2
query 0 S {tagSpec: {any: []}} => ok 5
count 5 => ok 0
";

#[test]
fn finds_by_tags(rt: HostRuntime) -> Result<(), Fail> {
    expect(rt.alloc(), "run a b c d", TAGS)
}

/// Queries by words and text.
const WORDS: &str = "
format 0 A 7 => ok
mount 0 => ok 7 A
soup 0 S => ok 0
add 0 S {t: \"Straße nach Köln\"} => ok 0
get 0 S 0 => ok 0 {t: \"Stra\\u00DFe nach K\\u00F6ln\"}
query 0 S {text: \"STRASSE\"} => ok 0
count 0 => ok 1
query 0 S {words: \"kö\"} => ok 1
count 1 => ok 1
query 0 S {words: \"ln\"} => ok 2
count 2 => ok 0
query 0 S {words: \"nac\", entireWords: true} => ok 3
count 3 => ok 0
query 0 S {words: \"NACH\", entireWords: true} => ok 4
count 4 => ok 1
query 0 S {validTest: 1} => error 41 spec
";

#[test]
fn finds_by_words_and_text(rt: HostRuntime) -> Result<(), Fail> {
    expect(rt.alloc(), "run a b c d", WORDS)
}
