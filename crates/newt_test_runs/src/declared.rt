//! Indexes and tags that are declared, with replies that were written by hand.

use newt_test_scripts::expect;
use std::alloc::Global;
use std::test::Fail;

/// Indexes are declared and removed, and found again.
const INDEXES: &str = "
format 0 A 7 => ok
mount 0 => ok 7 A
soup 0 S => ok 0
indexes 0 S => ok
index 0 S name.last:string:ascend => ok
index 0 S Age:int:descend a.b.c:char:ascend => ok
add 0 S {age: 3} => ok 0
index 0 S k:symbol:ascend => ok
indexes 0 S => ok name.last:string:ascend, Age:int:descend a.b.c:char:ascend, k:symbol:ascend
index 0 S NAME.last:int:descend => error 40 index
index 0 S a.b.c:char:ascend Age:int:descend => ok
unindex 0 S aGE a.b.C => ok
unindex 0 S age a.b.c => error 40 index
indexes 0 S => ok name.last:string:ascend, k:symbol:ascend, a.b.c:char:ascend Age:int:descend
unmount 0 => ok
mount 0 => ok 7 A
indexes 0 S => ok name.last:string:ascend, k:symbol:ascend, a.b.c:char:ascend Age:int:descend
get 0 S 0 => ok 0 {age: 3}
soup 0 T => ok 1
indexes 0 T => ok
drop 0 S => ok
indexes 0 S => error 30 soup
";

#[test]
fn declares_shows_and_removes_indexes(rt: HostRuntime) -> Result<(), Fail> {
    expect(rt.alloc(), "run a", INDEXES)
}

/// Tags are declared, and found again.
const TAGS: &str = "
format 0 A 7 => ok
mount 0 => ok 7 A
soup 0 S => ok 0
tags 0 S => ok
tags 0 S labels business Personal => ok
tags 0 S => ok labels business Personal
add 0 S {labels: 'business} => ok 0
tags 0 S a.b one => ok
tags 0 S => ok a.b one
index 0 S k:int:ascend => ok
unmount 0 => ok
mount 0 => ok 7 A
tags 0 S => ok a.b one
indexes 0 S => ok k:int:ascend
get 0 S 0 => ok 0 {labels: 'business}
soup 0 T => ok 1
tags 0 T => ok
";

#[test]
fn declares_and_shows_tags(rt: HostRuntime) -> Result<(), Fail> {
    expect(rt.alloc(), "run a", TAGS)
}

/// Info frames are set, found again, changed and removed.
const INFOS: &str = "
format 0 A 7 => ok
mount 0 => ok 7 A
soup 0 S => ok 0
soup 0 T => ok 1
info 0 S => ok nil
info 0 S {owner: \"Ann\", Parts: [1, 2], it: {}} => ok
info 0 S => ok {owner: \"Ann\", Parts: [1, 2], it: {}}
info 0 T => ok nil
add 0 S {k: 1} => ok 0
unmount 0 => ok
mount 0 => ok 7 A
info 0 S => ok {owner: \"Ann\", Parts: [1, 2], it: {}}
get 0 S 0 => ok 0 {k: 1}
info 0 S {} => ok
info 0 S => ok {}
info 0 S nil => ok
info 0 S => ok nil
info 0 S nil => ok
drop 0 S => ok
soup 0 S => ok 2
info 0 S => ok nil
";

#[test]
fn sets_and_shows_info_frames(rt: HostRuntime) -> Result<(), Fail> {
    expect(rt.alloc(), "run a", INFOS)
}

/// What is refused, in order.
const REFUSED: &str = "
index 2 S a:real:ascend => error 20 unit
unindex 2 S a => error 20 unit
indexes 2 S => error 20 unit
tags 2 S => error 20 unit
tags 2 S a b => error 20 unit
info 2 S => error 20 unit
info 2 S 1 => error 20 unit
index 0 S a:real:ascend => error 25 notmounted
unindex 0 S a => error 25 notmounted
indexes 0 S => error 25 notmounted
tags 0 S => error 25 notmounted
tags 0 S a b => error 25 notmounted
info 0 S => error 25 notmounted
info 0 S 1 => error 25 notmounted
format 0 A 7 => ok
mount 0 => ok 7 A
index 0 S a:real:ascend => error 30 soup
unindex 0 S a => error 30 soup
indexes 0 S => error 30 soup
tags 0 S => error 30 soup
tags 0 S a b => error 30 soup
info 0 S => error 30 soup
info 0 S 1 => error 30 soup
soup 0 S => ok 0
index 0 S a:real:ascend => error 43 key
index 0 S a:int:ascend b:real:ascend => error 43 key
index 0 S a:int:ascend => ok
index 0 S A:real:ascend => error 40 index
unindex 0 S b => error 40 index
unindex 0 S a b => error 40 index
index 0 S => error 11 line
index 0 S a => error 11 line
index 0 S a:int => error 11 line
index 0 S 1a:int:ascend => error 11 line
index 0 S a:int:up => error 11 line
index 0 S a:int:ascend b:int:ascend c:int:ascend d:int:ascend e:int:ascend => error 11 line
tags 0 S a b B => error 11 line
tags 0 S a.b 1c => error 11 line
info 0 S 1 => error 44 info
info 0 S [{}] => error 44 info
info 0 S true => error 44 info
info 0 S {a: => error 3 literal
info 0 S => ok nil
indexes 0 S => ok a:int:ascend
tags 0 S => ok
";

#[test]
fn refuses_in_order(rt: HostRuntime) -> Result<(), Fail> {
    expect(rt.alloc(), "run a b", REFUSED)
}

/// Appends the rows that make so many soups `S000`, `S001` and so on.
fn push_soups(alloc: Global, table: &mut String, count: u32) -> Result<(), Fail> {
    for soup in 0..count {
        let (hundreds, tens, ones) = (soup / 100, soup / 10 % 10, soup % 10);
        let row = format!(in alloc; "soup 0 S{hundreds}{tens}{ones} => ok {soup}\n")?;
        table.push_str(&row)?;
    }
    Ok(())
}

/// A store has 250 soups. One more is refused, also after a mount, and comes where one has gone,
/// with a number of its own.
#[test]
fn takes_250_soups(rt: HostRuntime) -> Result<(), Fail> {
    let alloc = rt.alloc();
    let mut table = String::from_str(alloc, "format 0 A 7 => ok\nmount 0 => ok 7 A\n")?;
    push_soups(alloc, &mut table, 250)?;
    table.push_str(
        "soup 0 S250 => error 36 limit
unmount 0 => ok
mount 0 => ok 7 A
soup 0 S250 => error 36 limit
drop 0 S007 => ok
soup 0 S250 => ok 250
soup 0 S251 => error 36 limit
",
    )?;
    expect(alloc, "run a", &table)
}

/// A soup has sixteen indexes.
const SIXTEEN: &str = "
format 0 A 7 => ok
mount 0 => ok 7 A
soup 0 S => ok 0
index 0 S a0:int:ascend => ok
index 0 S a1:int:ascend => ok
index 0 S a2:int:ascend => ok
index 0 S a3:int:ascend => ok
index 0 S a4:int:ascend => ok
index 0 S a5:int:ascend => ok
index 0 S a6:int:ascend => ok
index 0 S a7:int:ascend => ok
index 0 S a8:int:ascend => ok
index 0 S a9:int:ascend => ok
index 0 S b0:int:ascend => ok
index 0 S b1:int:ascend => ok
index 0 S b2:int:ascend => ok
index 0 S b3:int:ascend => ok
index 0 S b4:int:ascend => ok
index 0 S b5:int:ascend => ok
index 0 S z:int:ascend => error 36 limit
unindex 0 S a0 => ok
index 0 S z:int:ascend => ok
";

#[test]
fn takes_sixteen_indexes(rt: HostRuntime) -> Result<(), Fail> {
    expect(rt.alloc(), "run a", SIXTEEN)
}

/// A soup has 64 tags.
const MANY: &str = "
format 0 A 7 => ok
mount 0 => ok 7 A
soup 0 S => ok 0
tags 0 S labels a0 a1 a2 a3 a4 a5 a6 a7 a8 a9 b0 b1 b2 b3 b4 b5 b6 b7 b8 b9 c0 c1 c2 c3 c4 c5 c6 c7 c8 c9 d0 d1 d2 d3 d4 d5 d6 d7 d8 d9 e0 e1 e2 e3 e4 e5 e6 e7 e8 e9 f0 f1 f2 f3 f4 f5 f6 f7 f8 f9 g0 g1 g2 g3 g4 => error 36 limit
tags 0 S labels a0 a1 a2 a3 a4 a5 a6 a7 a8 a9 b0 b1 b2 b3 b4 b5 b6 b7 b8 b9 c0 c1 c2 c3 c4 c5 c6 c7 c8 c9 d0 d1 d2 d3 d4 d5 d6 d7 d8 d9 e0 e1 e2 e3 e4 e5 e6 e7 e8 e9 f0 f1 f2 f3 f4 f5 f6 f7 f8 f9 g0 g1 g2 g3 => ok
";

#[test]
fn takes_sixty_four_tags(rt: HostRuntime) -> Result<(), Fail> {
    expect(rt.alloc(), "run a", MANY)
}
