//! Laws of watches and working copies in runs, where devices may fail.
ghost use Rattle.std.specs.Prelude.{ℕ, ◌≡◌, List, [], Some};
ghost use Rattle.newt_laws_whole.specs.Since.{KeepsEdits, Saves, edits_in, put_all};
ghost use Rattle.newt_laws_whole.specs.Steps.{told_by};
ghost use Rattle.newt_laws_whole.specs.Told.{KeepEntries, KeepsWatch, told_in, told_to};
ghost use Rattle.newt_laws_whole.specs.Told.{with_notes};
ghost use Rattle.newt_notify.specs.Watch.{Watching, emptied};
ghost use Rattle.newt_spec_graph.specs.Lists.{Among};
ghost use Rattle.newt_spec_script.specs.Rows.{IsRun, Row, thrown_count, last_world};
ghost use Rattle.newt_spec_script.specs.Script.{Item as IsItem};
ghost use Rattle.newt_spec_store.specs.Store.{Entry, Soup, Store};
ghost use Rattle.newt_spec_whole.specs.Answer.{notes_reply};
ghost use Rattle.newt_spec_whole.specs.Step.{WholeStep};
ghost use Rattle.newt_spec_whole.specs.Whole.{Whole, copy, living, stores_on, watch};
ghost use Rattle.newt_spec_world.specs.Alias.{Spot};
ghost use Rattle.newt_spec_world.specs.Reply.{Reply};
ghost use Rattle.newt_spec_world.specs.World.{mounted_store, soup_in, entry_in};
ghost use Rattle.newt_spec_world.specs.declared.command.Command.{Command as IsCommand};
ghost use Rattle.newt_spec_world.specs.declared.command.Command.TheVariants as command;
ghost use Rattle.newt_work.specs.Work.{Copy, edited, opened, rebased};

/// Whatever fails in a run, a watch gets the notes that the steps of the run give of soups of its
/// name, in their order, until it is emptied or taken away. When it is asked for its notes, it
/// answers the last of them and the number of those that are lost, and has none afterwards.
pub fn watches_get_the_notes_of_steps()
    ensures run { (h : Whole) (items : List IsItem) (rows : List (Row Whole)) (n : ℕ)
        (w : Watching) → watch h n ≡ Some w → IsRun WholeStep h items rows → KeepsWatch n items
        → watch (last_world h rows) n
        ≡ Some (with_notes (told_to w.name (told_in h items rows)) w) }
    ensures taken { (h : Whole) (n : ℕ) (w : Watching) (v : Whole) (r : Reply) → watch h n ≡ Some w
        → WholeStep h (command.Notes n) v r
        → (watch v n ≡ Some (emptied w)) × (r ≡ notes_reply w) }
{}

/// A step that gives no note of a name leaves the entries of the soup of this name, in each store
/// that a unit has or may have, unless the reply says that this unit's device failed. A unit whose
/// device failed may still have each store that it may have had. A run in which the device of a
/// unit does not fail leaves the entries there as such a step does.
pub fn what_changes_is_told_whatever_fails()
    ensures step { (h : Whole) (c : IsCommand) (v : Whole) (r : Reply) (name : List ℕ) (u : ℕ)
        (s : Store) → WholeStep h c v r → told_to name (told_by h c v.world r) ≡ []
        → (r ≡ Reply.thrown u → ⊥) → Among (stores_on h u) s
        → KeepEntries name (stores_on h u) (stores_on v u) }
    ensures failed { (h : Whole) (c : IsCommand) (v : Whole) (u : ℕ) (s : Store)
        → WholeStep h c v (Reply.thrown u) → Among (stores_on h u) s → Among (stores_on v u) s }
    ensures run { (h : Whole) (items : List IsItem) (rows : List (Row Whole)) (name : List ℕ)
        (u : ℕ) (s : Store) → IsRun WholeStep h items rows
        → told_to name (told_in h items rows) ≡ [] → thrown_count u rows ≡ 0
        → Among (stores_on h u) s
        → KeepEntries name (stores_on h u) (stores_on (last_world h rows) u) }
{}

/// An open that is answered with a number has made a copy there of the entry as it is. A save that
/// is answered `ok` makes its draft the base, at the present minute. A revert that is answered `ok`
/// begins anew from the entry as it is.
pub fn copies_begin_in_steps()
    ensures opened { (h : Whole) (u : ℕ) (name : List ℕ) (uid n : ℕ) (v : Whole)
        → WholeStep h (command.Open u name uid) v (Reply.number n)
        → (t : Store) × (p : Soup) × (e : Entry) × (mounted_store h.world u ≡ Some t)
        × (soup_in h.world u name ≡ Some p) × (entry_in h.world u name uid ≡ Some e)
        × (copy v n ≡ Some (opened t.sig p.sig e.uid e.time e.graph)) }
    ensures saved { (h : Whole) (n : ℕ) (k : Copy) (v : Whole)
        → WholeStep h (command.Save n) v Reply.done → copy h n ≡ Some k
        → copy v n ≡ Some (rebased h.world.minute k.draft k) }
    ensures reverted { (h : Whole) (n : ℕ) (k : Copy) (v : Whole)
        → WholeStep h (command.Revert n) v Reply.done → copy h n ≡ Some k
        → (s : Spot) × (living h k ≡ Some s)
        × (copy v n ≡ Some (rebased s.entry.time s.entry.graph k)) }
{}

/// Whatever fails in a run, a copy keeps its entry and its base until it is saved, reverted or
/// discarded with `ok`. Its draft is the one before with the edits put into it that were answered
/// `ok`. A step in which a device fails leaves all copies.
pub fn copies_outlive_failures()
    ensures run { (h : Whole) (items : List IsItem) (rows : List (Row Whole)) (n : ℕ) (k : Copy)
        → copy h n ≡ Some k → IsRun WholeStep h items rows → KeepsEdits n items rows
        → copy (last_world h rows) n ≡ Some (edited (put_all k.draft (edits_in n items rows)) k) }
    ensures thrown { (h : Whole) (c : IsCommand) (v : Whole) (u : ℕ)
        → WholeStep h c v (Reply.thrown u) → v.copies ≡ h.copies }
{}

/// A save that is answered `ok` replaces exactly the state of the entry at which the copy was
/// opened, saved or reverted last, whatever failed in between. The new graph is that state's, with
/// the edits since put into it one after another.
pub fn saves_replace_what_was_read_whatever_fails()
    ensures { (h : Whole) (items : List IsItem) (rows : List (Row Whole)) (n : ℕ) (k : Copy)
        (v : Whole) → copy h n ≡ Some k → k.draft ≡ k.base → IsRun WholeStep h items rows
        → KeepsEdits n items rows → WholeStep (last_world h rows) (command.Save n) v Reply.done
        → Saves (last_world h rows) v k (put_all k.base (edits_in n items rows)) }
{}
