//! Texts and paths.
#![tactic(auto, unfolding(crate::proofs::Tables::open_tables))]

ghost use Rattle.std.specs.Prelude.{◌≡◌, [], ◌∷◌, pos, negsuc, codes, is_none, true};
ghost use Rattle.newt_spec_nsof.specs.Written.{nsof};
ghost use Rattle.newt_spec_literal.specs.Printed.{literal};
ghost use Rattle.newt_graph.specs.Meeting.{normal_form};
ghost use Rattle.newt_test_definitions.specs.Graphs.{one_slot, shared_string, knot, tangled};
ghost use Rattle.newt_test_definitions.specs.Graphs.{text_twice, number, shared_frame, symbol_x};
ghost use Rattle.newt_test_definitions.specs.Graphs.{printed_put};

pub fn frame_of_one_slot()
    ensures { nsof one_slot ≡ 2 ∷ 6 ∷ 1 ∷ 7 ∷ 1 ∷ 97 ∷ 0 ∷ 4 ∷ [] }
{}

pub fn string_in_two_slots()
    ensures { nsof shared_string ≡ 2 ∷ 5 ∷ 2 ∷ 8 ∷ 4 ∷ 0 ∷ 65 ∷ 0 ∷ 0 ∷ 9 ∷ 1 ∷ [] }
{}

pub fn cycle()
    ensures { nsof knot ≡ 2 ∷ 6 ∷ 1 ∷ 7 ∷ 4 ∷ 115 ∷ 101 ∷ 108 ∷ 102 ∷ 9 ∷ 0 ∷ [] }
{}

pub fn numbers_follow_the_walk()
    ensures { normal_form tangled ≡ Some knot }
{}

pub fn printed_cycle()
    ensures { literal knot ≡ codes "#0={self: #0#}" }
{}

pub fn printed_twice()
    ensures { literal text_twice ≡ codes "[#0=\"x\", #0#]" }
{}

pub fn least_integer()
    ensures { literal (number (negsuc 2147483647)) ≡ codes "-536870912" }
{}

pub fn a_change_shows_in_both_slots()
    ensures { printed_put shared_frame (codes "a" ∷ codes "x" ∷ []) (number (pos 8))
        ≡ Some (codes "{a: #0={x: 2}, b: #0#}") }
{}

pub fn a_symbol_keeps_its_first_spelling()
    ensures { printed_put shared_frame (codes "c" ∷ []) symbol_x
        ≡ Some (codes "{a: #0={x: 1}, b: #0#, c: 'x}") }
{}

pub fn no_such_slot()
    ensures { is_none (printed_put shared_frame (codes "q" ∷ codes "x" ∷ []) (number (pos 4)))
        ≡ true }
{}
