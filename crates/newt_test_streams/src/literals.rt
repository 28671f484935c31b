//! What literals read as, which texts are no literals, and what is printed for what they read as,
//! with ample memory.
use crate::calls::Call;
use newt_test_tables::expect_rows;
use std::test::*;

/// Each form and its graph.
const FORMS: &str = r##"
nil => Imm(2)
␉␍␊ true  => Imm(26)
-536870912 => Imm(-2147483648)
536870911 => Imm(2147483644)
0007 => Imm(28)
-0 => Imm(0)
$A => Imm(1046)
$] => Imm(1494)
$\fffF => Imm(1048566)
&00000002 => Imm(2)
&FFFFFFFF => Imm(-1)
'a1 => Node(0) Symbol[97, 49]
'|a\|\\ b| => Node(0) Symbol[97, 124, 92, 32, 98]
"a\"\\\u0000\uD801é𐐷␡" => Node(0) Str[97, 34, 92, 0, 55297, 233, 55297, 56375, 127]
<a:00fF> => Node(0) Binary 1 [0, 255] Symbol[97]
<a:> => Node(0) Binary 1 [] Symbol[97]
<<|a b|:7F>> => Node(0) Large 1 [127] Symbol[97, 32, 98]
<<a:*3>> => Node(0) Large 1 [0, 0, 0] Symbol[97]
[] => Node(0) Array None []
[a: ] => Node(0) Array Some(1) [] Symbol[97]
[nil] => Node(0) Array None [Imm(2)]
[nil:1 , 2] => Node(0) Array Some(1) [Imm(4), Imm(8)] Symbol[110, 105, 108]
{} => Node(0) Frame[] []
{|a b|: 1} => Node(0) Frame[1] [Imm(4)] Symbol[97, 32, 98]
{A: 1, B: 'a} => Node(0) Frame[1, 2] [Imm(4), Node(1)] Symbol[65] Symbol[66]
{x: 'B, b: 1} => Node(0) Frame[1, 2] [Node(2), Imm(4)] Symbol[120] Symbol[66]
#00003 = {me: #3#} => literal
#3= {me: #00003#} => Node(0) Frame[1] [Node(0)] Symbol[109, 101]
[#1="x", #1#] => Node(0) Array None [Node(1), Node(1)] Str[120]
[#99999=[#0=<a:>], #0#, #99999#] => Node(0) Array None [Node(1), Node(2), Node(1)] Array None [Node(2)] Binary 3 [] Symbol[97]
"##;

/// Texts that are no literals.
const NONE: &str = r##"
 => literal
  => literal
nil nil => literal
Nil => literal
12a => literal
12345678901 => literal
536870912 => literal
-536870913 => literal
- 5 => literal
- => literal
+1 => literal
$ => literal
$  => literal
$\004 => literal
$\ 0041 => literal
$\u041 => literal
$é => literal
&00000001 => literal
&0000000 => literal
& 00000002 => literal
' => literal
' a => literal
'1a => literal
'é => literal
'|| => literal
'|a => literal
'|a\b| => literal
'|é| => literal
'|a␉b| => literal
"a => literal
"␊" => literal
"\n" => literal
"\u12" => literal
"\u 1234" => literal
<a:0> => literal
<a: 00> => literal
<a :00> => literal
< a:00> => literal
<a:0g> => literal
<:00> => literal
<a:00 => literal
<a:*3> => literal
<<a:00> > => literal
< <a:00>> => literal
<<a:00> => literal
<<a:*>> => literal
<<a:*12345678>> => literal
<<a:*1000001>> => literal
<<a:* 3>> => literal
[ => literal
[1,] => literal
[,1] => literal
[1 2] => literal
[a:,1] => literal
[1} => literal
{a 1} => literal
{a: 1,} => literal
{: 1} => literal
{a} => literal
{a: 1, A: 2} => literal
#1=5 => literal
#1='a => literal
#1=#2=[] => literal
#1=#1# => literal
# 1=[] => literal
#1 =[] => literal
#=[] => literal
#123456=[] => literal
#1# => literal
[#1#, #1=[]] => literal
[#1=[], #1=[]] => literal
[#1=[], #01=[]] => literal
[#1=[], #1 #] => literal
"##;

/// What is printed for a graph. Each word stands in the first form that fits it, characters that
/// are not plain are escaped, and names that are no identifiers stand between bars. One space
/// follows a colon and a comma, and an object that is met again has a label.
const PRINTED: &str = r##"
-536870912 => -536870912
-0001 => -1
-0 => 0
536870911 => 536870911
&00000002 => nil
 true => true
$\0041 => $A
$\0020 => $\0020
$\ => literal
$\005c => $\005C
$\007e => $~
$\007f => $\007F
$\ffff => $\FFFF
&00100006 => &00100006
&ffffffff => &FFFFFFFF
'|a_B9| => 'a_B9
'|nil| => 'nil
'|a b| => '|a b|
'|9a| => '|9a|
'|a\|b\\| => '|a\|b\\|
"\u0000\u000a \"\\\u007e\u007f\ud801\uDC00\uabcd" => "\u0000\u000A \"\\~\u007F\uD801\uDC00\uABCD"
<k:de0A> => <k:DE0A>
<<|a b|:*2>> => <<|a b|:0000>>
[k:] => [k:]
[k:1,'k] => [k: 1, 'k]
[ ] => []
{|a b|:1} => {|a b|: 1}
{|a| : 1 , b:[]} => {a: 1, b: []}
#7={me:#7#} => #0={me: #0#}
[#4=[],"",#2={},#2#,#4#] => [#0=[], "", #1={}, #1#, #0#]
[#1="x",#2="x",#1#] => [#0="x", "x", #0#]
"##;

/// Literals at each limit of the grammar, and past it.
const LIMITS: &str = r##"
~[*199~~]*199~ => fits
~[*200~~]*200~ => fits
~[*201~~]*201~ => literal
[~1,*65534~1] => fits
[~1,*65535~1] => literal
[~"",*65534~1] => fits
[~"",*65535~1] => literal
[~'a№,*65534~1] => fits
[~'a№,*65534~'b] => literal
{~a№:1,*65533~b:1} => fits
{~a№:1,*65534~b:1} => literal
[~#№=[],*65534~1] => fits
[~#№=[],*65534~[]] => literal
[~<<a:*1000000>>,*16~1] => fits
[~<<a:*1000000>>,*17~1] => literal
'~a*254~ => fits
'~a*255~ => literal
"##;

#[test]
fn each_form_reads_as_its_graph(rt: HostRuntime) -> Result<(), Fail> {
    expect_rows(rt.alloc(), &Call::Literal, FORMS)
}

#[test]
fn other_texts_are_no_literals(rt: HostRuntime) -> Result<(), Fail> {
    expect_rows(rt.alloc(), &Call::Literal, NONE)
}

#[test]
fn each_graph_has_one_printed_text(rt: HostRuntime) -> Result<(), Fail> {
    expect_rows(rt.alloc(), &Call::Printed, PRINTED)
}

#[test]
fn limits_belong_to_the_grammar(rt: HostRuntime) -> Result<(), Fail> {
    expect_rows(rt.alloc(), &Call::Fits, LIMITS)
}
