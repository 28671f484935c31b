//! What follows of the moments since a unit was attached.
ghost use Rattle.std.specs.Prelude.{◌≡◌, ℕ, ◌≤◌, List, [], ◌∷◌, Some, length};
ghost use Rattle.newt_host.specs.Moments.{Attached, Extends, IsHistory, Moment, attached_at};
ghost use Rattle.newt_host.specs.Moments.{changes, moment_at, output};

/// From its attach until all names are attached, a unit is as its device was held, and the output
/// stays, whatever happens later.
pub fn nothing_happens_before()
    ensures { (unit t k size : ℕ) (bytes : List ℕ) (old mid new : Moment) → changes unit old ≡ []
        → Extends old mid → output mid ≡ output old → changes unit mid ≡ Attached bytes ∷ []
        → Extends mid new → IsHistory size (changes unit new) → attached_at unit new ≡ Some t → t
        ≤ k → k ≤ length mid
        → (changes unit (moment_at k new) ≡ Attached bytes ∷ [])
        × (output (moment_at k new) ≡ output mid) }
{}
