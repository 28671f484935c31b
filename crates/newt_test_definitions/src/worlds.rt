//! Scripts of parsed commands, and what is answered.
#![tactic(auto, unfolding(crate::proofs::Tables::open_tables))]

ghost use Rattle.std.specs.Prelude.{◌≡◌, [], ◌∷◌, ◌++◌, codes, map};
ghost use Rattle.newt_spec_world.specs.declared.command.Command.TheVariants.{Format, Mount};
ghost use Rattle.newt_spec_world.specs.declared.command.Command.TheVariants.{Unmount, Soup, Soups};
ghost use Rattle.newt_spec_world.specs.declared.command.Command.TheVariants.{Add, Get, Remove};
ghost use Rattle.newt_spec_world.specs.declared.command.Command.TheVariants.{Index, Query, Next};
ghost use Rattle.newt_spec_world.specs.declared.command.Command.TheVariants.{Prev, Entry, Which};
ghost use Rattle.newt_spec_world.specs.declared.command.Command.TheVariants.{Set, Count, Alias};
ghost use Rattle.newt_spec_world.specs.declared.command.Command.TheVariants.{Resolve, Move};
ghost use Rattle.newt_spec_world.specs.declared.command.Command.TheVariants.{QueryAll, SetTags};
ghost use Rattle.newt_spec_world.specs.declared.command.Command.TheVariants.{Vread, Vwrite};
ghost use Rattle.newt_spec_world.specs.declared.command.Command.TheVariants.{Gotokey};
ghost use Rattle.newt_spec_store.specs.declared.Order.TheVariants.{Ascend, Descend};
ghost use Rattle.newt_test_definitions.specs.Worlds.{said, said_after, blank_units, empty_frame};
ghost use Rattle.newt_test_definitions.specs.Worlds.{times, k_by_string, with_string, by_k, five};
ghost use Rattle.newt_test_definitions.specs.Worlds.{string, by_k_from, numbered_oks, S, N, k};
ghost use Rattle.newt_test_definitions.specs.Worlds.{fresh, add_text, two_cards, alias_9_0_1};
ghost use Rattle.newt_test_definitions.specs.Worlds.{labelled_one, labelled_two, labelled_symbol};
ghost use Rattle.newt_test_definitions.specs.Worlds.{tag_query_none, tag_query_one, tag_query_two};
ghost use Rattle.newt_test_definitions.specs.Worlds.{text_query, word_query, entire_word_query};
ghost use Rattle.newt_test_definitions.specs.Worlds.{wave, counts, worn, wave_pages};

pub fn a_store_is_made_once()
    ensures { said (blank_units 1) (Mount 0 ∷ Format 0 (codes "Internal") 7 ∷ Mount 0 ∷ Mount 0 ∷
        Format 0 (codes "Again") 8 ∷ Unmount 0 ∷ Format 0 (codes "Again") 8 ∷ Mount 1 ∷ [])
        ≡ map codes ("error 22 nostore" ∷ "ok" ∷ "ok 7 Internal" ∷ "error 21 mounted"
        ∷ "error 21 mounted" ∷ "ok" ∷ "error 26 store" ∷ "error 20 unit" ∷ []) }
{}

pub fn a_store_is_full_and_ids_are_not_used_again()
    ensures { said (blank_units 1) (fresh ++ Soup 0 S ∷ times 37 (Add 0 S empty_frame) ++ Add 0 S
        empty_frame ∷ Get 0 S 0 ∷ Remove 0 S 0 ∷ Add 0 S empty_frame ∷ Get 0 S 0 ∷ [])
        ≡ map codes ("ok" ∷ "ok 7 Internal" ∷ "ok 0" ∷ []) ++ numbered_oks 0 37
        ++ map codes ("error 33 full" ∷ "ok 0 {}" ∷ "ok" ∷ "ok 37" ∷ "error 32 entry" ∷ []) }
{}

pub fn quoted_names()
    ensures { said (blank_units 1) (fresh ++ Soup 0 (codes "To Do List") ∷ Soup 0
        (codes "To Do List") ∷ Soups 0 ∷ [])
        ≡ map codes ("ok" ∷ "ok 7 Internal" ∷ "ok 0" ∷ "error 31 exists" ∷ "ok \"To Do List\" 0 0"
        ∷ []) }
{}

pub fn a_cursor_stands_on_a_removed_entry()
    ensures { said (blank_units 1) (fresh ++ Soup 0 S ∷ Index 0 S (k_by_string Ascend) ∷ Add 0 S
        (with_string k (codes "a")) ∷ Add 0 S (with_string k (codes "b"))
        ∷ Add 0 S (with_string k (codes "c"))
        ∷ Query 0 S by_k ∷ Next 0 ∷ Remove 0 S 1 ∷ Entry 0 ∷ Next 0 ∷ Prev 0 ∷ Prev 0 ∷ Which 0
        ∷ [])
        ≡ map codes ("ok" ∷ "ok 7 Internal" ∷ "ok 0" ∷ "ok" ∷ "ok 0" ∷ "ok 1" ∷ "ok 2" ∷ "ok 0"
        ∷ "ok 0 1 0 {k: \"b\"}" ∷ "ok" ∷ "ok deleted" ∷ "ok 0 2 0 {k: \"c\"}"
        ∷ "ok 0 0 0 {k: \"a\"}" ∷ "ok nil" ∷ "ok begin" ∷ []) }
{}

pub fn a_cursor_follows_a_changed_key()
    ensures { said_after (fresh ++ Soup 0 S ∷ Index 0 S (k_by_string Ascend) ∷ add_text 0 S
        (codes "a") ∷ add_text 0 S (codes "b") ∷ add_text 0 S (codes "c") ∷ add_text 0 S (codes "e")
        ∷ Query 0 S by_k ∷ Next 0 ∷ []) (blank_units 1)
        (Set 0 S 1 (k ∷ []) (string (codes "d")) ∷ Entry 0 ∷ Set 0 S 1 (k ∷ []) five ∷ Entry 0
        ∷ Next 0 ∷ [])
        ≡ map codes ("ok" ∷ "ok 0 1 0 {k: \"d\"}" ∷ "ok" ∷ "ok deleted" ∷ "ok 0 3 0 {k: \"e\"}"
        ∷ []) }
{}

pub fn a_union_of_two_cards()
    ensures { said_after two_cards (blank_units 2)
        (QueryAll N (by_k_from (codes "beginExclKey") (codes "a")) ∷ Entry 0 ∷ Mount 1 ∷ Next 0
        ∷ Next 0 ∷ Next 0 ∷ Which 0 ∷ QueryAll N (by_k_from (codes "beginExclKey") (codes "m"))
        ∷ Count 1 ∷ Alias 1 N 1 ∷ Unmount 1 ∷ Prev 0 ∷ Resolve alias_9_0_1 ∷ Mount 1
        ∷ Resolve alias_9_0_1 ∷ Move 0 N 0 1 N ∷ [])
        ≡ map codes ("ok 0" ∷ "ok 0 1 0 {k: \"m\"}" ∷ "ok 9 Card" ∷ "ok 1 0 0 {k: \"m\"}"
        ∷ "ok 1 1 0 {k: \"z\"}" ∷ "ok nil" ∷ "ok end" ∷ "ok 1" ∷ "ok 1" ∷ "ok [alias: 9, 0, 1]"
        ∷ "ok" ∷ "ok 0 1 0 {k: \"m\"}" ∷ "ok nil" ∷ "ok 9 Card" ∷ "ok 1 N 1" ∷ "ok 2" ∷ []) }
{}

pub fn a_falling_index_keeps_ties_rising()
    ensures { said_after (fresh ++ Soup 0 S ∷ Index 0 S (k_by_string Descend) ∷ add_text 0 S
        (codes "x") ∷ add_text 0 S (codes "y") ∷ add_text 0 S (codes "x") ∷ Query 0 S by_k ∷ [])
        (blank_units 1)
        (Entry 0 ∷ Next 0 ∷ Next 0 ∷ Next 0 ∷ Query 0 S (by_k_from (codes "endExclKey") (codes "x"))
        ∷ Count 1 ∷ Entry 1 ∷ [])
        ≡ map codes ("ok 0 1 0 {k: \"y\"}" ∷ "ok 0 0 0 {k: \"x\"}" ∷ "ok 0 2 0 {k: \"x\"}"
        ∷ "ok nil" ∷ "ok 1" ∷ "ok 1" ∷ "ok 0 1 0 {k: \"y\"}" ∷ []) }
{}

pub fn queries_by_tags()
    ensures { said_after (fresh ++ Soup 0 S ∷ SetTags 0 S (codes "labels" ∷ [])
        (codes "work" ∷ codes "home" ∷ []) ∷ Add 0 S (labelled_one (codes "work"))
        ∷ Add 0 S (labelled_two (codes "work") (codes "home"))
        ∷ Add 0 S (labelled_symbol (codes "home")) ∷ Add 0 S empty_frame
        ∷ Add 0 S (labelled_one (codes "play")) ∷ []) (blank_units 1)
        (counts (tag_query_one (codes "equal") (codes "work")
        ∷ tag_query_two (codes "all") (codes "work") (codes "home")
        ∷ tag_query_two (codes "any") (codes "work") (codes "home")
        ∷ tag_query_one (codes "none") (codes "work") ∷ tag_query_none (codes "equal")
        ∷ tag_query_none (codes "any") ∷ []))
        ≡ map codes ("ok 0" ∷ "ok 1" ∷ "ok" ∷ "ok 0" ∷ "ok 1" ∷ "ok" ∷ "ok 0" ∷ "ok 3" ∷ "ok"
        ∷ "ok 0" ∷ "ok 3" ∷ "ok" ∷ "ok 0" ∷ "ok 2" ∷ "ok" ∷ "ok 0" ∷ "ok 0" ∷ "ok" ∷ []) }
{}

pub fn queries_by_words()
    ensures { said_after (fresh ++ Soup 0 S ∷ Add 0 S (with_string (codes "t")
        (codes "Straße nach Köln")) ∷ []) (blank_units 1)
        (Get 0 S 0 ∷ counts (text_query (codes "STRASSE") ∷ word_query (codes "kö")
        ∷ word_query (codes "ln") ∷ entire_word_query (codes "nac")
        ∷ entire_word_query (codes "NACH") ∷ []))
        ≡ map codes ("ok 0 {t: \"Stra\\u00DFe nach K\\u00F6ln\"}" ∷ "ok 0" ∷ "ok 1" ∷ "ok" ∷ "ok 0"
        ∷ "ok 1" ∷ "ok" ∷ "ok 0" ∷ "ok 0" ∷ "ok" ∷ "ok 0" ∷ "ok 0" ∷ "ok" ∷ "ok 0" ∷ "ok 1" ∷ "ok"
        ∷ []) }
{}

pub fn ranges_of_a_large_binary()
    ensures { said_after (fresh ++ Soup 0 S ∷ []) (blank_units 1)
        (Add 0 S (wave 1200) ∷ Vwrite 0 S 0 (codes "v" ∷ []) 499 (65 ∷ 66 ∷ [])
        ∷ Vread 0 S 0 (codes "v" ∷ []) 498 4 ∷ Vread 0 S 0 (codes "v" ∷ []) 1200 0
        ∷ Vread 0 S 0 (codes "v" ∷ []) 1199 2 ∷ [])
        ≡ map codes ("ok 0" ∷ "ok" ∷ "ok 00414200" ∷ "ok" ∷ "error 39 range" ∷ []) }
{}

pub fn thirty_three_queries()
    ensures { said_after (fresh ++ Soup 0 S ∷ []) (blank_units 1) (times 33 (Query 0 S empty_frame))
        ≡ numbered_oks 0 32 ++ map codes ("error 36 limit" ∷ []) }
{}

pub fn a_bad_slot_is_no_query()
    ensures { said_after (fresh ++ Soup 0 S ∷ []) (blank_units 1)
        (Query 0 S (with_string (codes "validTest") (codes "x")) ∷ Query 0 S by_k
        ∷ SetTags 0 S (codes "labels" ∷ []) (codes "a" ∷ []) ∷ Gotokey 0 five
        ∷ Query 0 S empty_frame ∷ Gotokey 0 five ∷ [])
        ≡ map codes ("error 41 spec" ∷ "error 40 index" ∷ "ok" ∷ "error 42 cursor" ∷ "ok 0"
        ∷ "error 43 key" ∷ []) }
{}

pub fn ids_are_used_up()
    ensures { said worn (Mount 0 ∷ Add 0 S empty_frame ∷ Soups 0 ∷ [])
        ≡ map codes ("ok 7 Worn" ∷ "error 35 ids" ∷ "ok S 0 0" ∷ []) }
{}

pub fn a_large_binary_costs_its_pages()
    ensures { wave_pages ≡ 4 }
{}
