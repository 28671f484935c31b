//! Laws of what a value with its devices stands for.
ghost use Rattle.std.specs.Prelude.{ℕ, ◌≡◌, ◌≢◌, true, IsSome, IsTrue, List, Option, Some};
ghost use Rattle.newt_host.specs.Moments.{MayLeave, IsDurable, changes, image};
ghost use Rattle.newt_host.specs.Outside.{Outside, SameCards};
ghost use Rattle.newt_laws_steps.specs.Answering.{ReadsOneOf};
ghost use Rattle.newt_laws_steps.specs.Meant.{MountedSure, meant_by, media_on, over};
ghost use Rattle.newt_laws_steps.specs.StandsFor.{Holds, IsKept, Marks, StandsFor, known, seen};
ghost use Rattle.newt_spec_graph.specs.Lists.{Among};
ghost use Rattle.newt_spec_store.specs.Store.{Store};
ghost use Rattle.newt_spec_store.specs.Valid.{valid};
ghost use Rattle.newt_spec_world.specs.Answer.{answer};
ghost use Rattle.newt_spec_world.specs.Step.{Step, thrown_out};
ghost use Rattle.newt_spec_world.specs.World.{Device, Media, World, IsBlankOn, device, lost};
ghost use Rattle.newt_spec_world.specs.World.{settle, stores_on};
ghost use Rattle.newt_spec_world.specs.declared.command.Command.{Command as IsCommand};

/// While the same devices are attached, what a value stands for depends only on what has happened
/// to them. A crash leaves each unit that has a store, or one of two, as one of these. Of a unit
/// that has none it leaves the image. Of each mounted unit it is known what it holds.
pub fn images_tell_worlds()
    ensures kept { (reads : List ℕ → Option Store) (marks : Marks) (old new : Outside) (w : World)
        → SameCards old new → ((u : ℕ) → changes u new.now ≡ changes u old.now)
        → StandsFor reads marks old w → StandsFor reads marks new w }
    ensures left { (reads : List ℕ → Option Store) (marks : Marks) (outside : Outside) (w : World)
        → StandsFor reads marks outside w → (u : ℕ) (s : Store) (left : List ℕ)
        → Among (stores_on w u) s → MayLeave u outside.now left
        → ReadsOneOf reads (stores_on w u) left }
    ensures blank { (reads : List ℕ → Option Store) (marks : Marks) (outside : Outside) (w : World)
        → StandsFor reads marks outside w → (u : ℕ) → IsBlankOn w u → IsDurable u outside.now }
    ensures sure { (reads : List ℕ → Option Store) (marks : Marks) (outside : Outside) (w : World)
        → StandsFor reads marks outside w → MountedSure w }
{}

/// A command that looks at a unit anew sees what its image is read as, and may find that there. So
/// the answer in the world as the command sees it is a step.
pub fn commands_see_images()
    ensures { (reads : List ℕ → Option Store) (marks : Marks) (outside : Outside) (w : World)
        (c : IsCommand) → StandsFor reads marks outside w
        → ((u : ℕ) → IsSome (outside.card u) → MayLeave u outside.now (image u outside.now))
        → ((u : ℕ) (s : Store) → IsSome (outside.card u)
        → reads (image u outside.now) ≡ Some s → IsTrue (valid (outside.blocks u) s))
        → let a = answer (seen reads w outside.now c) c in Step w c a.0 a.1 }
{}

/// A value stands for the world in which nothing is known of the units of which a sync is due. It
/// stands for the worlds in which anything is meant of these units that they may hold. It stands
/// for no other world.
pub fn values_stand_for_what_is_meant()
    ensures known { (reads : List ℕ → Option Store) (marks : Marks) (outside : Outside)
        → IsKept reads marks outside → StandsFor reads marks outside (known reads marks outside) }
    ensures meant { (reads : List ℕ → Option Store) (marks : Marks) (outside : Outside)
        → IsKept reads marks outside → (meant : ℕ → Media)
        → ((u : ℕ) → marks.due u ≡ true → Holds reads outside.now u (meant u))
        → StandsFor reads marks outside (meant_by meant (known reads marks outside)) }
    ensures others { (reads : List ℕ → Option Store) (marks : Marks) (outside : Outside)
        (w : World) → StandsFor reads marks outside w
        → w ≡ meant_by (media_on w) (known reads marks outside) }
{}

/// A unit is thrown out, and a value keeps the world in which nothing is known of it from then on.
/// The unit holds what its failure leaves of what was meant of it. Each other unit of which a sync
/// is due holds what is meant of it. Then the value stands for the world that was meant, with the
/// unit thrown out.
pub fn units_thrown_out_are_stood_for()
    ensures { (reads : List ℕ → Option Store) (marks : Marks) (outside : Outside) (w : World)
        (meant : ℕ → Media) (u : ℕ) (change : Media → Media) (d : Device) → MountedSure w
        → IsKept reads marks outside
        → known reads marks outside ≡ settle (thrown_out w u (λ _. lost))
        → device w u ≡ Some d → Holds reads outside.now u (change (over (meant u) d.media))
        → ((n : ℕ) → n ≢ u → marks.due n ≡ true → Holds reads outside.now n (meant n))
        → StandsFor reads marks outside (settle (thrown_out (meant_by meant w) u change)) }
{}
