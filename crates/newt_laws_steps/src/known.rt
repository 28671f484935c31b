//! Laws of worlds in which it is not known what some units hold.
ghost use Rattle.std.specs.Prelude.{ℕ, ◌≡◌, false, Some, None};
ghost use Rattle.newt_laws_steps.specs.Meant.{MountedSure, meant_by, over, put_at};
ghost use Rattle.newt_spec_world.specs.Answer.{answer};
ghost use Rattle.newt_spec_world.specs.Step.{looks_anew, thrown_out, with_media};
ghost use Rattle.newt_spec_world.specs.World.{World, Device, Media, lost, is_unsure, device, settle};
ghost use Rattle.newt_spec_world.specs.declared.command.Command.{Command as IsCommand};

/// Something is meant of the units of which it is not known what they hold. A command that does not
/// look at one of them is answered the same, whatever is meant, and leaves them.
pub fn answers_go_by_what_is_known()
    ensures answer { (meant : ℕ → Media) (w : World) (c : IsCommand) → MountedSure w
        → looks_anew w c ≡ None
        → answer (meant_by meant w) c ≡ (meant_by meant (answer w c).0, (answer w c).1) }
    ensures mounted { (w : World) (c : IsCommand) → MountedSure w → MountedSure (answer w c).0 }
{}

/// A unit that is found to hold something, and one that is thrown out, are so whatever is meant of
/// the others.
pub fn units_are_found_and_thrown_out_alone()
    ensures found { (meant : ℕ → Media) (w : World) (u : ℕ) (m : Media) → is_unsure m ≡ false
        → with_media (meant_by meant w) u m ≡ meant_by meant (with_media w u m) }
    ensures thrown { (meant : ℕ → Media) (w : World) (u : ℕ) (change : Media → Media) (m : Media)
        → MountedSure w
        → ((d : Device) → device w u ≡ Some d → change (over (meant u) d.media) ≡ m)
        → settle (thrown_out (meant_by meant w) u change)
        ≡ meant_by (put_at u m meant) (settle (thrown_out w u (λ _. lost))) }
{}
