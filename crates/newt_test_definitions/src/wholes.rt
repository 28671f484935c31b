//! Scripts of parsed commands with watches and working copies, and what is answered.
#![tactic(auto, unfolding(crate::proofs::Tables::open_tables))]

ghost use Rattle.std.specs.Prelude.{◌≡◌, [], ◌∷◌, ◌++◌, codes, map};
ghost use Rattle.newt_spec_world.specs.declared.command.Command.TheVariants.{Add, Addu, Addx, Get};
ghost use Rattle.newt_spec_world.specs.declared.command.Command.TheVariants.{Change, Copy, Drop};
ghost use Rattle.newt_spec_world.specs.declared.command.Command.TheVariants.{Move, Mount, Unmount};
ghost use Rattle.newt_spec_world.specs.declared.command.Command.TheVariants.{Remove, Set, Soup};
ghost use Rattle.newt_spec_world.specs.declared.command.Command.TheVariants.{Time, Vwrite, Watch};
ghost use Rattle.newt_spec_world.specs.declared.command.Command.TheVariants.{Notes, Unwatch, Open};
ghost use Rattle.newt_spec_world.specs.declared.command.Command.TheVariants.{Draft, Edit, Save};
ghost use Rattle.newt_spec_world.specs.declared.command.Command.TheVariants.{Revert, Discard};
ghost use Rattle.newt_test_definitions.specs.Worlds.{empty_frame, times, numbered_oks, S, N, k};
ghost use Rattle.newt_test_definitions.specs.Worlds.{five, store_on, two_cards, wave};
ghost use Rattle.newt_test_definitions.specs.Wholes.{a_number, said_beside, with_a, with_s};
ghost use Rattle.newt_test_definitions.specs.Wholes.{with_entry, long_string, with_c};
ghost use Rattle.newt_test_definitions.specs.Wholes.{arrays_around};
ghost use Rattle.newt_test_definitions.specs.Wholes.{first_saved, second_reverted, second_saved};

pub fn the_last_notes_and_the_number_lost()
    ensures { said_beside 1 with_s (Watch S 2 ∷ times 3 (Add 0 S empty_frame) ++ Remove 0 S 1
        ∷ Notes 0 ∷ Notes 0 ∷ [])
        ≡ map codes ("ok 0" ∷ "ok 0" ∷ "ok 1" ∷ "ok 2" ∷ "ok" ∷ "ok 2 add 0 0 2, remove 0 0 1"
        ∷ "ok 0" ∷ []) }
{}

pub fn a_dropped_soup_is_told()
    ensures { said_beside 1 (with_s ++ Watch S 2 ∷ [])
        (Drop 0 S ∷ Notes 0 ∷ Notes 5 ∷ Unwatch 0 ∷ Notes 0 ∷ [])
        ≡ map codes ("ok" ∷ "ok 0 drop 0 0" ∷ "error 47 watch" ∷ "ok" ∷ "error 47 watch" ∷ []) }
{}

pub fn a_move_is_told_twice()
    ensures { said_beside 2 (two_cards ++ Mount 1 ∷ Watch N 8 ∷ []) (Move 0 N 0 1 N ∷ Notes 0 ∷ [])
        ≡ map codes ("ok 2" ∷ "ok 0 add 1 0 2, remove 0 0 0" ∷ []) }
{}

pub fn each_change_is_told()
    ensures { said_beside 2 (store_on 0 7 ++ store_on 1 9 ++ Watch S 64 ∷ [])
        (Soup 0 S ∷ Soup 1 N ∷ Soup 1 S ∷ Add 0 S (wave 2) ∷ Addx 0 S empty_frame
        ∷ Addu S empty_frame ∷ Add 1 N empty_frame ∷ Set 0 S 1 (k ∷ []) five
        ∷ Change 0 S 2 empty_frame ∷ Vwrite 0 S 0 (codes "v" ∷ []) 0 (255 ∷ [])
        ∷ Copy 0 S 1 1 S ∷ Open 0 S 0 ∷ Save 0 ∷ Notes 0 ∷ [])
        ≡ map codes ("ok 0" ∷ "ok 0" ∷ "ok 1" ∷ "ok 0" ∷ "ok 1" ∷ "ok 0 2" ∷ "ok 0" ∷ "ok" ∷ "ok"
        ∷ "ok" ∷ "ok 0" ∷ "ok 0" ∷ "ok" ∷ []) ++ (codes "ok 0 make 0 0, make 1 1, add 0 0 0, "
        ++ codes "add 0 0 1, add 0 0 2, change 0 0 1, change 0 0 2, change 0 0 0, add 1 1 0, "
        ++ codes "change 0 0 0") ∷ [] }
{}

pub fn there_are_eight_watches()
    ensures { said_beside 1 with_s (times 9 (Watch S 64) ++ Unwatch 6 ∷ Unwatch 3 ∷ Watch S 64 ∷ [])
        ≡ numbered_oks 0 8 ++ map codes ("error 36 limit" ∷ "ok" ∷ "ok" ∷ "ok 3" ∷ []) }
{}

pub fn a_copy_is_edited_and_saved()
    ensures { said_beside 1 with_entry first_saved
        ≡ map codes ("ok 0" ∷ "ok 1" ∷ "ok" ∷ "ok {a: 2}" ∷ "ok" ∷ []) }
{}

pub fn a_changed_entry_is_told_with_its_time()
    ensures { said_beside 1 (with_entry ++ first_saved) second_reverted
        ≡ map codes ("ok" ∷ "error 45 changed 5" ∷ "ok" ∷ "ok {a: 2}" ∷ []) }
{}

pub fn a_reverted_copy_is_saved()
    ensures { said_beside 1 (with_entry ++ first_saved ++ second_reverted) second_saved
        ≡ map codes ("ok" ∷ "ok" ∷ "ok 5 {a: 3}" ∷ "error 45 changed 5" ∷ []) }
{}

pub fn copies_that_are_refused()
    ensures { said_beside 1 (with_entry ++ first_saved ++ second_reverted ++ second_saved)
        (Edit 1 (codes "q" ∷ codes "x" ∷ []) (a_number 1) ∷ Remove 0 S 0 ∷ Save 1 ∷ Draft 9 ∷ [])
        ≡ map codes ("error 38 path" ∷ "ok" ∷ "error 32 entry" ∷ "error 46 copy" ∷ []) }
{}

pub fn a_copy_is_of_one_entry()
    ensures { said_beside 1 (with_entry ++ Add 0 S (with_a 7) ∷ Time 6 ∷ [])
        (Open 0 S 1 ∷ Open 0 S 1 ∷ Edit 0 (codes "a" ∷ []) (a_number 8) ∷ Save 0 ∷ Get 0 S 0
        ∷ Get 0 S 1 ∷ Edit 1 (codes "a" ∷ []) (a_number 9) ∷ Time 7 ∷ Save 1 ∷ Unmount 0 ∷ Save 0
        ∷ Revert 0 ∷ Discard 0 ∷ Discard 0 ∷ Mount 0 ∷ Open 0 S 1 ∷ [])
        ≡ map codes ("ok 0" ∷ "ok 1" ∷ "ok" ∷ "ok" ∷ "ok 5 {a: 1}" ∷ "ok 6 {a: 8}" ∷ "ok" ∷ "ok"
        ∷ "error 45 changed 6" ∷ "ok" ∷ "error 32 entry" ∷ "error 32 entry" ∷ "ok"
        ∷ "error 46 copy" ∷ "ok 7 Internal" ∷ "ok 0" ∷ []) }
{}

pub fn there_are_sixteen_copies()
    ensures { said_beside 1 with_entry (times 17 (Open 0 S 0))
        ≡ numbered_oks 0 16 ++ map codes ("error 36 limit" ∷ []) }
{}

pub fn a_change_is_told_before_a_full_store()
    ensures { said_beside 1 (with_s ++ times 37 (Add 0 S (with_a 1)) ++ Open 0 S 0 ∷ [])
        (Edit 0 (codes "t" ∷ []) long_string ∷ Save 0
        ∷ Set 0 S 0 (codes "a" ∷ []) (a_number 2) ∷ Save 0 ∷ [])
        ≡ map codes ("ok" ∷ "error 33 full" ∷ "ok" ∷ "error 45 changed 0" ∷ []) }
{}

pub fn an_edit_past_a_limit_is_refused()
    ensures { said_beside 1 (with_entry ++ Open 0 S 0 ∷ [])
        (Edit 0 (codes "b" ∷ []) with_c ∷ Edit 0 (codes "b" ∷ codes "c" ∷ []) (arrays_around 198)
        ∷ Draft 0 ∷ Edit 0 (codes "b" ∷ codes "c" ∷ []) (arrays_around 197) ∷ [])
        ≡ map codes ("ok" ∷ "error 36 limit" ∷ "ok {a: 1, b: {c: 1}}" ∷ "ok" ∷ []) }
{}
