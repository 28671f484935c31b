//! Lines, and the commands or refusals that the table of commands gives them.

use crate::rows::sides;
use crate::told::told;
use std::alloc::{AllocError, Global};
use std::test::Fail;

/// Looks for what a line gives.
fn expect_told(alloc: Global, line: &str, wanted: &str) -> Result<(), Fail> {
    if told(alloc, line.as_bytes()).as_slice() != wanted.as_bytes() {
        return Err(Fail::new(format_args!("another answer: {line}")));
    }
    Ok(())
}

/// Looks for what each line of a table gives. A row is a line and, after ` => `, its command in
/// words, its refusal, or that it gives none.
fn expect_each(alloc: Global, table: &str) -> Result<(), Fail> {
    for row in table.lines() {
        if let Some((line, wanted)) = sides(row)? {
            expect_told(alloc, line, wanted)?;
        }
    }
    Ok(())
}

/// Each row of the table of commands.
const ROWS: &str = "
# Stores and soups.
nsof 0206010701610004 => nsof {a: 1}
lit {A: 1, B: 'a} => lit {A: 1, B: 'A}
time 4294967295 => time 4294967295
quit => quit
format 7 Internal 536870911 => format 7 <Internal> 536870911
mount 0 => mount 0
unmount 1 => unmount 1
stores => stores
default 2 => default 2
soup 3 Names => soup 3 <Names>
soups 4 => soups 4
drop 5 Names => drop 5 <Names>
# Entries.
add 0 Names {n: 1} => add 0 <Names> {n: 1}
addx 1 Names 02060107016E0004 => addx 1 <Names> {n: 1}
addu Names 5 => Names 5
get 0 Names 0 => get 0 <Names> 0
getx 0 Names 4294967295 => getx 0 <Names> 4294967295
set 0 A 1 a 2 => set 0 <A> 1 .a 2
set 0 A 1 a.B.c {d: 2} => set 0 <A> 1 .a.B.c {d: 2}
set 0 A 1 _.a1.a.b.c.d.e.f 2 => set 0 <A> 1 ._.a1.a.b.c.d.e.f 2
change 0 A 1 [2, 3] => change 0 <A> 1 [2, 3]
remove 6 Names 12 => remove 6 <Names> 12
copy 0 A 1 2 B => copy 0 <A> 1 to 2 <B>
move 2 B 1 0 A => move 2 <B> 1 to 0 <A>
alias 0 A 1 => alias 0 <A> 1
resolve [alias: 7, 0, 1] => resolve [alias: 7, 0, 1]
# Declarations.
index 0 Names name.last:string:ascend => index 0 <Names> .name.last string up
index 7 \"To Do\" a:int:descend b:char:ascend\t c:symbol:descend d:real:ascend  => index 7 <To Do> .a int down .b char up .c symbol down .d real up
unindex 0 Names name.last => unindex 0 <Names> .name.last
unindex 1 A a b.C c _.d1  => unindex 1 <A> .a .b.C .c ._.d1
indexes 2 Names => indexes 2 <Names>
tags 3 Names => tags 3 <Names>
tags 3 Names\t  => tags 3 <Names>
tags 0 Names labels business personal => tags 0 <Names> .labels business personal
tags 0 A b.c Tag => tags 0 <A> .b.c Tag
tags 0 A b\tx  y\t\tz  => tags 0 <A> .b x y z
tags 0 A b b => tags 0 <A> .b b
info 3 Names => info 3 <Names>
info 3 Names\t  => info 3 <Names>
info 0 \"To Do List\" {Apple: 1} => info 0 <To Do List> {Apple: 1}
info 0 A nil => info 0 <A> nil
# Cursors.
query 0 Names {} => query 0 <Names> {}
query 7 \"To Do\" {words: \"a\"}  => query 7 <To Do> {words: \"a\"}
query * Names {} => query all <Names> {}
query\t* \"*\"\t{} => query all <*> {}
query 1 * {} => query 1 <*> {}
entry 0 => entry 0
next 31 => next 31
prev 1 => prev 1
reset 0000000002 => reset 2
end 3\t => end 3
moveby 4 2147483647 => moveby 4 by 2147483647
moveby 4 -2147483648 => moveby 4 by -2147483648
moveby 4 -0 => moveby 4 by 0
goto 5 7 4294967295 => goto 5 at 7 4294967295
gotokey 6 \"x\" => gotokey 6 \"x\"
gotokey 6 [1, nil] => gotokey 6 [1, nil]
count 7 => count 7
which 8 => which 8
clone 9 => clone 9
close 10 => close 10
# Large binaries.
vread 0 S 0 v 1200 0 => vread 0 <S> 0 .v from 1200 for 0
vread 7 \"To Do\" 4294967295 a.b.C 4294967295 60000 => vread 7 <To Do> 4294967295 .a.b.C from 4294967295 for 60000
vread\t1 A 2  v 0000000003\t0000000004  => vread 1 <A> 2 .v from 3 for 4
vwrite 0 S 0 v 499 4142 => vwrite 0 <S> 0 .v from 499: 65 66
vwrite 7 \"To Do\" 4294967295 a.b.C 4294967295  00fFa0\t => vwrite 7 <To Do> 4294967295 .a.b.C from 4294967295: 0 255 160
vwrite 0 S 0 v 499 => vwrite 0 <S> 0 .v from 499:
vwrite 0 S 0 v 499 \t\r => vwrite 0 <S> 0 .v from 499:
vwrite 0 S 0 v 0 03 => vwrite 0 <S> 0 .v from 0: 3
vwrite 0 S 0 v 4 020A => vwrite 0 <S> 0 .v from 4: 2 10
# Watches and working copies.
watch Names 1 => watch <Names> 1
watch \"To Do\" 0000000064 => watch <To Do> 64
notes 0 => notes 0
unwatch 7 => unwatch 7
open 0 Names 4294967295 => open 0 <Names> 4294967295
draft 15 => draft 15
edit 0 a.B {c: 1} => edit 0 .a.B {c: 1}
save 1 => save 1
revert 2 => revert 2
discard 3\t => discard 3
";

#[test]
fn reads_each_row(rt: HostRuntime) -> Result<(), Fail> {
    expect_each(rt.alloc(), ROWS)
}

/// Words that do not have the form of their row.
const OTHERS: &str = "
# Too few words, too many, and others.
mount => 11 line
mount 0 1 => 11 line
stores now => 11 line
quit now => 11 line
soup 0 => 11 line
drop 0 A B => 11 line
format 0 A => 11 line
get 0 A => 11 line
get 0 A 1 2 => 11 line
copy 0 A 1 2 => 11 line
move 0 A 1 2 B C => 11 line
set 0 A 1 2 => 11 line
set 0 A 1 a => 11 line
set 0 A 1 a..b 2 => 11 line
set 0 A 1 a. 2 => 11 line
set 0 A 1 |a| 2 => 11 line
set 0 A 1 a.b.c.d.e.f.g.h.i 2 => 11 line
change 0 A 1 => 11 line
add 0 A => 11 line
addu A => 11 line
resolve => 11 line
# Parts of an index.
index 0 A => 11 line
index 0 A k => 11 line
index 0 A k:int => 11 line
index 0 A k:int:ascend: => 11 line
index 0 A k:int:ascend:ascend => 11 line
index 0 A k::ascend => 11 line
index 0 A :int:ascend => 11 line
index 0 A k:Int:ascend => 11 line
index 0 A k:text:ascend => 11 line
index 0 A k:int:Ascend => 11 line
index 0 A k:int:up => 11 line
index 0 A k :int:ascend => 11 line
index 0 A 1k:int:ascend => 11 line
index 0 A a..b:int:ascend => 11 line
index 0 A a.b.c.d.e.f.g.h.i:int:ascend => 11 line
index 0 A a:int:ascend b:int:ascend c:int:ascend d:int:ascend e:int:ascend => 11 line
# Paths and symbols.
unindex 0 A => 11 line
unindex 0 A a b c d e => 11 line
unindex 0 A a, b => 11 line
unindex 0 A a:int:ascend => 11 line
unindex 8 A a => 11 line
indexes 0 => 11 line
indexes 0 A B => 11 line
info => 11 line
info 0 => 11 line
info 0 A {a: => 3 literal
info 0 A {} 1 => 3 literal
info 8 A {} => 11 line
tags 0 => 11 line
tags 0 A b => 11 line
tags 0 A b. x => 11 line
tags 0 A b 1x => 11 line
tags 0 A b x.y => 11 line
tags 0 A b x X => 11 line
tags 0 A b x y x => 11 line
tags 0 A b |x| => 11 line
# Cursors.
query 0 Names => 11 line
query * Names => 11 line
query * {} => 11 line
query ** Names {} => 11 line
query 8 Names {} => 11 line
query *Names {} => 11 line
entry => 11 line
entry 32 => 11 line
entry -1 => 11 line
next 0 1 => 11 line
reset * => 11 line
moveby 4 => 11 line
moveby 4 2147483648 => 11 line
moveby 4 -2147483649 => 11 line
moveby 4 +1 => 11 line
moveby 4 - 1 => 11 line
goto 5 7 => 11 line
goto 5 8 0 => 11 line
gotokey 6 => 11 line
close 1 x => 11 line
# Large binaries.
vread 0 S 0 v 0 60001 => 11 line
vread 0 S 0 v 4294967296 0 => 11 line
vread 0 S 0 v 0 00000000001 => 11 line
vread 0 S 0 v -1 1 => 11 line
vread 0 S 0 v 0 => 11 line
vread 0 S 0 v 0 1 2 => 11 line
vread 0 S 0 0 1 => 11 line
vread 0 S v 0 1 => 11 line
vread 0 S 0 a..b 0 1 => 11 line
vread 0 S 0 a.b.c.d.e.f.g.h.i 0 1 => 11 line
vread 8 S 0 v 0 1 => 11 line
vwrite 0 S 0 v => 11 line
vwrite 0 S 0 v 41G => 11 line
vwrite 0 S 0 v 4294967296 4 => 11 line
vwrite 0 S 0 1v 0 4 => 11 line
vwrite 8 S 0 v 0 4 => 11 line
vwrite 0 S 0 v 0 4 => 1 malformed
vwrite 0 S 0 v 0 4G => 1 malformed
vwrite 0 S 0 v 0 41 42 => 1 malformed
vwrite 0 S 0 v 0 0x41 => 1 malformed
vwrite 0 S 0 v 0 414 => 1 malformed
# Watches and working copies.
watch Names => 11 line
watch Names 0 => 11 line
watch Names 65 => 11 line
watch 0 Names 1 => 11 line
notes => 11 line
notes 8 => 11 line
unwatch 0 1 => 11 line
open 0 Names => 11 line
draft 16 => 11 line
edit 0 a => 11 line
edit 16 a 1 => 11 line
edit 0 a..b 1 => 11 line
edit 0 a { => 3 literal
save -1 => 11 line
";

#[test]
fn wants_the_form_of_each_row(rt: HostRuntime) -> Result<(), Fail> {
    expect_each(rt.alloc(), OTHERS)
}

/// Names, numbers and blanks; and of several faults the first.
const WORDS: &str = "
# Names, bare and in quotes.
soup 0 \"To Do List\" => soup 0 <To Do List>
soup 0 \"a\\\"b\\\\c\" => soup 0 <a\"b\\c>
soup 0 \"Names\"\t => soup 0 <Names>
soup 0 ~!'{}% => soup 0 <~!'{}%>
addu \"x y\" 1 => x y 1
soup 0 abcdefghijabcdefghijabcdefghijabcdefghi => soup 0 <abcdefghijabcdefghijabcdefghijabcdefghi>
soup 0 abcdefghijabcdefghijabcdefghijabcdefghij => 11 line
soup 0 \"\" => 11 line
soup 0 \"a\"b => 11 line
soup 0 \"a => 11 line
soup 0 \"a\\n\" => 11 line
soup 0 \"a\tb\" => 11 line
soup 0 a\"b => 11 line
soup 0 a\\b => 11 line
soup 0 Straße => 11 line
# Numbers up to their limits.
mount 7 => mount 7
mount 8 => 11 line
mount 00 => 11 line
mount -1 => 11 line
mount one => 11 line
format 0 A 0536870911 => format 0 <A> 536870911
format 0 A 536870912 => 11 line
format 0 A 00000000007 => 11 line
get 0 A 0000000005 => get 0 <A> 5
get 0 A 4294967296 => 11 line
get 0 A 00000000005 => 11 line
get 0 A 5x => 11 line
# Blanks between words, and lines that give none.
\t mount \t 0 \t\r => mount 0
mount 0\r\r => 11 line
get\t0  A\t\t1  => get 0 <A> 1
add 0 A  [1,\t2]   => add 0 <A> [1, 2]
 => none
\r => none
 \t  => none
% mount 0 => none
 \t% => none
mount% 0 => 10 command
# The first refusal.
add 0 A { => 3 literal
set 0 A 1 a { => 3 literal
set 0 A 1 1a { => 11 line
change 0 A x { => 11 line
add 8 A { => 11 line
addu A {a 1} => 3 literal
resolve 1 2 => 3 literal
addx 0 A => 1 malformed
addx 0 A 0 => 1 malformed
addx 0 A 02 0A => 1 malformed
addx 0 A 020C0703666F6F010000000100000000000000000000000041 => 2 compressed
Mount 0 => 10 command
mount0 => 10 command
Index 0 A k:int:ascend => 10 command
Vread 0 A 1 a 0 9 => 10 command
query 0 A { => 3 literal
gotokey 32 { => 11 line
gotokey 31 { => 3 literal
";

#[test]
fn reads_names_numbers_and_blanks_and_answers_the_first_refusal(
    rt: HostRuntime,
) -> Result<(), Fail> {
    expect_each(rt.alloc(), WORDS)
}

/// The symbols a0, a1 and so on between two texts.
fn many_tags(alloc: Global, first: &str, last: &str) -> Result<String, AllocError> {
    let mut line = String::from_str(alloc, first)?;
    for number in 0..15_000_u32 {
        let symbol = format!(in alloc; " a{number}")?;
        line.push_str(symbol.as_str())?;
    }
    line.push_str(last)?;
    Ok(line)
}

#[test]
fn tells_many_symbols_apart(rt: HostRuntime) -> Result<(), Fail> {
    let alloc = rt.alloc();
    let line = many_tags(alloc, "tags 0 A b", " a15000")?;
    let wanted = many_tags(alloc, "tags 0 <A> .b", " a15000")?;
    expect_told(alloc, line.as_str(), wanted.as_str())?;
    let line = many_tags(alloc, "tags 0 A b", " A7")?;
    expect_told(alloc, line.as_str(), "11 line")
}
