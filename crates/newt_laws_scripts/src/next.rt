//! Laws of one run after another.
ghost use Rattle.std.specs.Prelude.{ℕ, ◌≡◌, ◌≤◌, List, Option, Some, length};
ghost use Rattle.std.specs.Prelude.{option_and_then, slice_get};
ghost use Rattle.newt_spec_store.specs.Store.{Store};
ghost use Rattle.newt_spec_world.specs.First.{world_of};
ghost use Rattle.newt_spec_world.specs.World.{store_on_unit};

/// A run over an image that a crash of an earlier run has left begins with the store that the image
/// is read as, on the unit of its name's place. By the theorem of the earlier run, that is the
/// store after the commands whose replies had begun, or after one more. So it is for every unit,
/// and the whole theorem of a run holds from there.
pub fn next_runs_begin_there()
    ensures { (reads : List ℕ → Option Store) (held : List ℕ → Option (List ℕ))
        (names : List (List ℕ)) (u : ℕ) (image : List ℕ) (found : Store) → length names ≤ 8
        → option_and_then held (slice_get names u) ≡ Some image → reads image ≡ Some found
        → store_on_unit (world_of reads held names) u ≡ Some found }
{}
