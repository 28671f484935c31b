//! Laws of working copies.
ghost use Rattle.std.specs.Prelude.{ℕ, ◌≡◌, List, Some};
ghost use Rattle.newt_graph.specs.Graph.{RawGraph};
ghost use Rattle.newt_graph.specs.Meeting.{normal_form};
ghost use Rattle.newt_laws_whole.specs.Since.{IsDone};
ghost use Rattle.newt_spec_store.specs.Keys.{Path};
ghost use Rattle.newt_spec_store.specs.Store.{Entry, Soup, Store};
ghost use Rattle.newt_spec_whole.specs.Answer.{whole_answer};
ghost use Rattle.newt_spec_whole.specs.Whole.{Whole, copy, free_copy, living};
ghost use Rattle.newt_spec_world.specs.Alias.{Spot};
ghost use Rattle.newt_spec_world.specs.World.{mounted_store, soup_in, entry_in};
ghost use Rattle.newt_spec_world.specs.declared.command.Command.TheVariants as command;
ghost use Rattle.newt_work.specs.Work.{Copy, draft_with, drafted, opened, rebased};

/// An open that is done makes a copy of the entry as it is, at the least free number. A save that
/// is done makes the draft the base, at the present minute, which is what the entry then is. A
/// revert that is done begins anew from the entry as it is.
pub fn copies_begin_from_the_entry()
    ensures opened { (h : Whole) (u : ℕ) (name : List ℕ) (uid n : ℕ) (t : Store) (p : Soup)
        (e : Entry) → IsDone h (command.Open u name uid) → free_copy h ≡ Some n
        → mounted_store h.world u ≡ Some t → soup_in h.world u name ≡ Some p
        → entry_in h.world u name uid ≡ Some e
        → copy (whole_answer h (command.Open u name uid)).0 n
        ≡ Some (opened t.sig p.sig e.uid e.time e.graph) }
    ensures saved { (h : Whole) (n : ℕ) (k : Copy) → IsDone h (command.Save n)
        → copy h n ≡ Some k
        → copy (whole_answer h (command.Save n)).0 n ≡ Some (rebased h.world.minute k.draft k) }
    ensures reverted { (h : Whole) (n : ℕ) (k : Copy) (s : Spot) → IsDone h (command.Revert n)
        → copy h n ≡ Some k → living h k ≡ Some s
        → copy (whole_answer h (command.Revert n)).0 n
        ≡ Some (rebased s.entry.time s.entry.graph k) }
{}

/// An edit that is done has put its value: the draft is the normal form of the draft with it.
pub fn edits_are_put()
    ensures { (h : Whole) (n : ℕ) (path : Path) (g : RawGraph) (k : Copy)
        → IsDone h (command.Edit n path g) → copy h n ≡ Some k → (raw : RawGraph)
        × (draft_with path g k ≡ Some raw) × (normal_form raw ≡ Some (drafted path g k).draft) }
{}
