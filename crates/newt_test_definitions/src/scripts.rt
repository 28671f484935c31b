//! Scripts from bytes to bytes.
#![tactic(auto, unfolding(crate::proofs::Tables::open_tables))]

ghost use Rattle.std.specs.Prelude.{◌≡◌, [], ◌∷◌, ◌++◌, codes};
ghost use Rattle.newt_test_definitions.specs.Worlds.{blank_units, blank_units_64};
ghost use Rattle.newt_test_definitions.specs.Scripts.{answers, summary_of, in_lines, line_of_x};
ghost use Rattle.newt_spec_script.specs.Generator.{gen_script};

pub fn a_cycle_as_literal()
    ensures { answers (blank_units 1) (codes "lit #3={me: #3#}\n") ≡ codes "ok #0={me: #0#}\n" }
{}

pub fn a_generated_script_of_no_entries()
    ensures { answers (blank_units 1) (gen_script 1 0)
        ≡ codes "ok\nok 1 Gen\nok 0\nok\nok\nok 0\nok nil\nok 0\nok\nok\n" }
{}

pub fn a_store_from_text()
    ensures { answers (blank_units 1) (in_lines (
        "% a card" ∷ "format 0 Internal 7" ∷ "mount 0" ∷ "" ∷ "soup 0 \"To Do List\""
        ∷ "add 0 \"To Do List\" {a: #1={x: 1}, b: #1#}" ∷ "set 0 \"To Do List\" 0 a.x 2"
        ∷ "get 0 \"To Do List\" 0" ∷ "set 0 \"To Do List\" 0 q.x 1" ∷ "get 0 S" ∷ "quit now"
        ∷ "nosf 020A" ∷ "quit" ∷ []) ++ codes "lit nil")
        ≡ in_lines ("ok" ∷ "ok 7 Internal" ∷ "ok 0" ∷ "ok 0" ∷ "ok" ∷ "ok 0 {a: #0={x: 2}, b: #0#}"
        ∷ "error 38 path" ∷ "error 11 line" ∷ "error 11 line" ∷ "error 10 command" ∷ "ok" ∷ []) }
{}

pub fn a_line_that_is_too_long()
    ensures { answers (blank_units 1) (line_of_x 140_001 ++ codes "\nget 0 S\nquit now\nlit nil\n")
        ≡ codes "error 12 longline\nerror 11 line\nerror 11 line\nok nil\n" }
{}

pub fn a_store_is_made_once_from_text()
    ensures { answers (blank_units 1) (in_lines (
        "mount 0" ∷ "format 0 Internal 7" ∷ "mount 0" ∷ "mount 0" ∷ "format 0 Again 8" ∷ "unmount 0"
        ∷ "format 0 Again 8" ∷ "mount 1" ∷ []))
        ≡ in_lines ("error 22 nostore" ∷ "ok" ∷ "ok 7 Internal" ∷ "error 21 mounted"
        ∷ "error 21 mounted" ∷ "ok" ∷ "error 26 store" ∷ "error 20 unit" ∷ []) }
{}

pub fn a_changed_frame_from_text()
    ensures { answers (blank_units 1) (in_lines ("format 0 Internal 7" ∷ "mount 0" ∷ "soup 0 S"
        ∷ "add 0 S {a: #1={x: 1}, b: #1#}" ∷ "set 0 S 0 a.x 2" ∷ "get 0 S 0" ∷ "set 0 S 0 c 'X"
        ∷ "get 0 S 0" ∷ "set 0 S 0 q.x 1" ∷ []))
        ≡ in_lines ("ok" ∷ "ok 7 Internal" ∷ "ok 0" ∷ "ok 0" ∷ "ok" ∷ "ok 0 {a: #0={x: 2}, b: #0#}"
        ∷ "ok" ∷ "ok 0 {a: #0={x: 2}, b: #0#, c: 'x}" ∷ "error 38 path" ∷ []) }
{}

pub fn a_cursor_from_text()
    ensures { answers (blank_units 1) (in_lines ("format 0 Internal 7" ∷ "mount 0" ∷ "soup 0 S"
        ∷ "index 0 S k:string:ascend" ∷ "add 0 S {k: \"a\"}" ∷ "add 0 S {k: \"b\"}"
        ∷ "add 0 S {k: \"c\"}" ∷ "query 0 S {indexPath: 'k}" ∷ "next 0" ∷ "remove 0 S 1" ∷ "entry 0"
        ∷ "next 0" ∷ "prev 0" ∷ "prev 0" ∷ "which 0" ∷ []))
        ≡ in_lines ("ok" ∷ "ok 7 Internal" ∷ "ok 0" ∷ "ok" ∷ "ok 0" ∷ "ok 1" ∷ "ok 2" ∷ "ok 0"
        ∷ "ok 0 1 0 {k: \"b\"}" ∷ "ok" ∷ "ok deleted" ∷ "ok 0 2 0 {k: \"c\"}"
        ∷ "ok 0 0 0 {k: \"a\"}" ∷ "ok nil" ∷ "ok begin" ∷ []) }
{}

pub fn a_changed_key_from_text()
    ensures { answers (blank_units 1) (in_lines ("format 0 Internal 7" ∷ "mount 0" ∷ "soup 0 S"
        ∷ "index 0 S k:string:ascend" ∷ "add 0 S {k: \"a\"}" ∷ "add 0 S {k: \"b\"}"
        ∷ "add 0 S {k: \"c\"}" ∷ "add 0 S {k: \"e\"}" ∷ "query 0 S {indexPath: 'k}" ∷ "next 0"
        ∷ "set 0 S 1 k \"d\"" ∷ "entry 0" ∷ "set 0 S 1 k 5" ∷ "entry 0" ∷ "next 0" ∷ []))
        ≡ in_lines ("ok" ∷ "ok 7 Internal" ∷ "ok 0" ∷ "ok" ∷ "ok 0" ∷ "ok 1" ∷ "ok 2" ∷ "ok 3"
        ∷ "ok 0" ∷ "ok 0 1 0 {k: \"b\"}" ∷ "ok" ∷ "ok 0 1 0 {k: \"d\"}" ∷ "ok" ∷ "ok deleted"
        ∷ "ok 0 3 0 {k: \"e\"}" ∷ []) }
{}

pub fn a_falling_index_from_text()
    ensures { answers (blank_units 1) (in_lines ("format 0 Internal 7" ∷ "mount 0" ∷ "soup 0 S"
        ∷ "index 0 S k:string:descend" ∷ "add 0 S {k: \"x\"}" ∷ "add 0 S {k: \"y\"}"
        ∷ "add 0 S {k: \"x\"}" ∷ "query 0 S {indexPath: 'k}" ∷ "entry 0" ∷ "next 0" ∷ "next 0"
        ∷ "next 0" ∷ "query 0 S {indexPath: 'k, endExclKey: \"x\"}" ∷ "count 1" ∷ "entry 1"
        ∷ "index 0 S r:real:ascend" ∷ []))
        ≡ in_lines ("ok" ∷ "ok 7 Internal" ∷ "ok 0" ∷ "ok" ∷ "ok 0" ∷ "ok 1" ∷ "ok 2" ∷ "ok 0"
        ∷ "ok 0 1 0 {k: \"y\"}" ∷ "ok 0 0 0 {k: \"x\"}" ∷ "ok 0 2 0 {k: \"x\"}" ∷ "ok nil" ∷ "ok 1"
        ∷ "ok 1" ∷ "ok 0 1 0 {k: \"y\"}" ∷ "error 43 key" ∷ []) }
{}

pub fn tags_from_text()
    ensures { answers (blank_units 1) (in_lines ("format 0 Internal 7" ∷ "mount 0" ∷ "soup 0 S"
        ∷ "tags 0 S labels work home" ∷ "add 0 S {labels: ['work]}"
        ∷ "add 0 S {labels: ['work, 'home]}" ∷ "add 0 S {labels: 'home}" ∷ "add 0 S {}"
        ∷ "add 0 S {labels: ['play]}" ∷ "query 0 S {tagSpec: {equal: ['work]}}" ∷ "count 0"
        ∷ "query 0 S {tagSpec: {all: ['work, 'home]}}" ∷ "count 1"
        ∷ "query 0 S {tagSpec: {any: ['work, 'home]}}" ∷ "count 2"
        ∷ "query 0 S {tagSpec: {none: ['work]}}" ∷ "count 3" ∷ "query 0 S {tagSpec: {equal: []}}"
        ∷ "count 4" ∷ "query 0 S {tagSpec: {any: []}}" ∷ "count 5" ∷ []))
        ≡ in_lines ("ok" ∷ "ok 7 Internal" ∷ "ok 0" ∷ "ok" ∷ "ok 0" ∷ "ok 1" ∷ "ok 2" ∷ "ok 3"
        ∷ "ok 4" ∷ "ok 0" ∷ "ok 1" ∷ "ok 1" ∷ "ok 1" ∷ "ok 2" ∷ "ok 3" ∷ "ok 3" ∷ "ok 3" ∷ "ok 4"
        ∷ "ok 2" ∷ "ok 5" ∷ "ok 0" ∷ []) }
{}

pub fn infos_from_text()
    ensures { answers (blank_units 1) (in_lines ("format 0 Internal 7" ∷ "mount 0" ∷ "soup 0 S"
        ∷ "info 0 S" ∷ "info 0 S {ver: 2}" ∷ "info 0 S" ∷ "info 0 S 5" ∷ "info 0 S <<w:*4>>"
        ∷ "info 0 S {b: <<w:*4>>}" ∷ "info 0 S" ∷ "info 0 S nil" ∷ "info 0 S" ∷ "info 0 T"
        ∷ "info 1 S {}" ∷ "info 0 S {a:" ∷ []))
        ≡ in_lines ("ok" ∷ "ok 7 Internal" ∷ "ok 0" ∷ "ok nil" ∷ "ok" ∷ "ok {ver: 2}"
        ∷ "error 44 info" ∷ "error 44 info" ∷ "error 44 info" ∷ "ok {ver: 2}" ∷ "ok" ∷ "ok nil"
        ∷ "error 30 soup" ∷ "error 20 unit" ∷ "error 3 literal" ∷ []) }
{}

pub fn ranges_from_text()
    ensures { answers (blank_units 1) (in_lines ("format 0 Internal 7" ∷ "mount 0" ∷ "soup 0 S"
        ∷ "add 0 S {v: <<wave:*1200>>}" ∷ "vwrite 0 S 0 v 499 4142" ∷ "vread 0 S 0 v 498 4"
        ∷ "vread 0 S 0 v 1200 0" ∷ "vread 0 S 0 v 1199 2" ∷ []))
        ≡ in_lines ("ok" ∷ "ok 7 Internal" ∷ "ok 0" ∷ "ok 0" ∷ "ok" ∷ "ok 00414200" ∷ "ok"
        ∷ "error 39 range" ∷ []) }
{}

pub fn no_generated_entries()
    ensures { summary_of (blank_units 1) (gen_script 1 0)
        ≡ codes "commands 10\nok 10\nerrors 0\nbytes 46\n" }
{}

pub fn one_generated_entry()
    ensures { summary_of (blank_units 1) (gen_script 1 1)
        ≡ codes "commands 12\nok 12\nerrors 0\nbytes 121\n" }
{}

pub fn ten_generated_entries()
    ensures { summary_of (blank_units 1) (gen_script 1 10)
        ≡ codes "commands 30\nok 30\nerrors 0\nbytes 802\n" }
{}

pub fn forty_generated_entries()
    ensures { summary_of (blank_units_64) (gen_script 1 40)
        ≡ codes "commands 90\nok 90\nerrors 0\nbytes 3160\n" }
{}

pub fn many_generated_entries()
    ensures { summary_of (blank_units_64) (gen_script 1 100)
        ≡ codes "commands 210\nok 210\nerrors 0\nbytes 7886\n" }
{}

pub fn literals()
    ensures { answers (blank_units 1) (in_lines ("lit {A: 1, B: 'a}" ∷ "lit [\"x\",\"x\"]"
        ∷ "lit [#1=\"x\", #1#]" ∷ "lit -536870912" ∷ "lit [a: ]" ∷ "lit {a 1}" ∷ "lit 536870912"
        ∷ "lit #1=5" ∷ []) ++ codes "lit #3={me: #3#}")
        ≡ in_lines ("ok {A: 1, B: 'A}" ∷ "ok [\"x\", \"x\"]" ∷ "ok [#0=\"x\", #0#]"
        ∷ "ok -536870912" ∷ "ok [a:]" ∷ "error 3 literal" ∷ "error 3 literal" ∷ "error 3 literal"
        ∷ "ok #0={me: #0#}" ∷ []) }
{}

pub fn a_union_from_text()
    ensures { answers (blank_units 2) (in_lines ("format 0 A 7" ∷ "format 1 B 9" ∷ "mount 0"
        ∷ "mount 1" ∷ "soup 0 N" ∷ "soup 1 N" ∷ "index 0 N k:string:ascend"
        ∷ "index 1 N k:string:ascend" ∷ "add 0 N {k: \"a\"}" ∷ "add 0 N {k: \"m\"}"
        ∷ "add 1 N {k: \"m\"}" ∷ "add 1 N {k: \"z\"}" ∷ "unmount 1"
        ∷ "query * N {indexPath: 'k, beginExclKey: \"a\"}" ∷ "entry 0" ∷ "mount 1" ∷ "next 0"
        ∷ "next 0" ∷ "next 0" ∷ "which 0" ∷ "query * N {indexPath: 'k, beginExclKey: \"m\"}"
        ∷ "count 1" ∷ "alias 1 N 1" ∷ "unmount 1" ∷ "prev 0" ∷ "resolve [alias: 9, 0, 1]"
        ∷ "mount 1" ∷ "resolve [alias: 9, 0, 1]" ∷ "move 0 N 0 1 N" ∷ []))
        ≡ in_lines ("ok" ∷ "ok" ∷ "ok 7 A" ∷ "ok 9 B" ∷ "ok 0" ∷ "ok 0" ∷ "ok" ∷ "ok" ∷ "ok 0"
        ∷ "ok 1" ∷ "ok 0" ∷ "ok 1" ∷ "ok" ∷ "ok 0" ∷ "ok 0 1 0 {k: \"m\"}" ∷ "ok 9 B"
        ∷ "ok 1 0 0 {k: \"m\"}" ∷ "ok 1 1 0 {k: \"z\"}" ∷ "ok nil" ∷ "ok end" ∷ "ok 1" ∷ "ok 1"
        ∷ "ok [alias: 9, 0, 1]" ∷ "ok" ∷ "ok 0 1 0 {k: \"m\"}" ∷ "ok nil" ∷ "ok 9 B" ∷ "ok 1 N 1"
        ∷ "ok 2" ∷ []) }
{}

pub fn declarations_from_text()
    ensures { answers (blank_units 1) (in_lines ("format 0 A 7" ∷ "mount 0" ∷ "soup 0 S"
        ∷ "index 0 S r:real:ascend" ∷ "index 0 S name.last:string:descend n:int:ascend"
        ∷ "indexes 0 S" ∷ "tags 0 S" ∷ "tags 0 S labels work home" ∷ "tags 0 S"
        ∷ "tags 0 S labels a A" ∷ "unindex 0 S n" ∷ "unindex 0 S NAME.last N" ∷ "indexes 0 S"
        ∷ "stores" ∷ "default 0" ∷ "addu S {n: 1}" ∷ "get 0 S 0" ∷ "time 77" ∷ "change 0 S 0 {n: 2}"
        ∷ "get 0 S 0" ∷ "change 0 S 0 5" ∷ "clone 0" ∷ "query 0 S {}" ∷ "clone 0" ∷ "close 0"
        ∷ "query 0 S {}" ∷ "moveby 0 -5" ∷ "moveby 0 1" ∷ []))
        ≡ in_lines ("ok" ∷ "ok 7 A" ∷ "ok 0" ∷ "error 43 key" ∷ "ok"
        ∷ "ok name.last:string:descend n:int:ascend" ∷ "ok" ∷ "ok" ∷ "ok labels work home"
        ∷ "error 11 line" ∷ "error 40 index" ∷ "ok" ∷ "ok" ∷ "ok 0 7 A" ∷ "ok" ∷ "ok 0 0"
        ∷ "ok 0 {n: 1}" ∷ "ok" ∷ "ok" ∷ "ok 77 {n: 2}" ∷ "error 37 notframe" ∷ "error 42 cursor"
        ∷ "ok 0" ∷ "ok 1" ∷ "ok" ∷ "ok 0" ∷ "ok nil" ∷ "ok 0 0 77 {n: 2}" ∷ []) }
{}

pub fn streams()
    ensures { answers (blank_units 1) (in_lines ("nsof 0206010701610004" ∷ "nsof 0200FF00000014"
        ∷ "nsof 0200FF00000100" ∷ "nsof 020002" ∷ "nsof 02020041" ∷ "nsof 020601070473656C660900"
        ∷ "nsof 0205020804004100000901" ∷ "nsof 0205020703466F6F0703666F6F" ∷ "nsof 020905"
        ∷ "nsof 020A0A" ∷ "nsof 0" ∷ "nsof" ∷ "nosf 020A" ∷ "nsof 02060107" ∷ []))
        ≡ in_lines ("ok 0206010701610004" ∷ "ok 020014" ∷ "ok 0200FF00000100" ∷ "ok 020A"
        ∷ "ok 020141" ∷ "ok 020601070473656C660900" ∷ "ok 0205020804004100000901"
        ∷ "ok 0205020703466F6F0901" ∷ "error 1 malformed" ∷ "error 1 malformed"
        ∷ "error 1 malformed" ∷ "error 1 malformed" ∷ "error 10 command" ∷ "error 1 malformed"
        ∷ []) }
{}

pub fn compressed_streams()
    ensures { answers (blank_units 1) (in_lines (
        "nsof 020C0703666F6F010000000100000000000000000000000041"
        ∷ "nsof 020C0703666F6F000000000100000000000000000000000041"
        ∷ "nsof 020C0703666F6F000000000100000002000000000000000061 6241"
        ∷ "nsof 020C0703666F6F0000000001000000020000000000000000616241" ∷ "nsof 020B01020304" ∷ []))
        ≡ in_lines ("error 2 compressed" ∷ "ok 020C0703666F6F000000000100000000000000000000000041"
        ∷ "error 1 malformed" ∷ "ok 020C0703666F6F000000000100000000000000000000000041"
        ∷ "ok 020B01020304" ∷ []) }
{}

pub fn slots_that_are_nil_count_as_missing()
    ensures { answers (blank_units 1) (in_lines ("format 0 A 7" ∷ "mount 0" ∷ "soup 0 S"
        ∷ "add 0 S {}" ∷ "query 0 S {validTest: nil}" ∷ "count 0" ∷ "query 0 S {validTest: 1}"
        ∷ "query 0 S {tagSpec: {other: nil}, entireWords: nil}" ∷ "count 1" ∷ []))
        ≡ in_lines ("ok" ∷ "ok 7 A" ∷ "ok 0" ∷ "ok 0" ∷ "ok 0" ∷ "ok 1" ∷ "error 41 spec" ∷ "ok 1"
        ∷ "ok 1" ∷ []) }
{}

pub fn a_literal_is_a_text_in_utf8()
    ensures read { answers (blank_units 1) (codes "lit \"" ++ 195 ∷ 169 ∷ codes "\"\n")
        ≡ codes "ok \"\\u00E9\"\n" }
    ensures refused { answers (blank_units 1) (codes "lit \"" ++ 195 ∷ codes "\"\n")
        ≡ codes "error 3 literal\n" }
{}
