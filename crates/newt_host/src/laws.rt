//! What follows for every host and every list of events.
ghost use Rattle.std.specs.Prelude.{◌≡◌, ◌≢◌, ◌↔◌, ◌⊎◌, ℕ, ◌+◌, ◌≤◌, List, ◌∷◌, ◌++◌, Some, None};
ghost use Rattle.std.specs.Prelude.{true, IsSome, IsTrue, length};
ghost use Rattle.newt_host.specs.Meanings.{Begins, attached, image_of, leaves, moment, since};
ghost use Rattle.newt_host.specs.Moments.{Attached, Synced, Wrote, On, Took, Always, Change};
ghost use Rattle.newt_host.specs.Moments.{Extends, LeftSince, MayLeave, Moment, SameOutside};
ghost use Rattle.newt_host.specs.Moments.{attached_at, changes, image, output, overwritten};
ghost use Rattle.newt_host.specs.Outside.{Attaches, Outside, PrintsSome, printed};

use crate::{Host, Unit};

/// An image as it reads is one that a crash may leave. A unit with a device has been attached since
/// a moment that has come, and one without a device since none.
pub fn image_may_be_left<H: Host>(host: &H, unit: Unit)
    ensures leaves { IsTrue H.told → IsSome (attached (H.outside host.now) unit)
        → leaves (H.outside host.now) unit (image_of (H.outside host.now) unit) }
    ensures since { IsTrue H.told → IsSome (attached (H.outside host.now) unit)
        → (t : ℕ) × (since (H.outside host.now) unit ≡ Some t) × (t ≤ moment (H.outside host.now)) }
    ensures never { IsTrue H.told → attached (H.outside host.now) unit ≡ None
        → since (H.outside host.now) unit ≡ None }
{
    let _host = host;
}

/// A range that was programmed or erased reads as it was written, and a crash may leave any bytes
/// in it and the rest as it might have before. After a sync a crash leaves what reads, and nothing
/// else has changed. What happens on one unit changes no other unit and not the output. What is
/// taken from the input changes no unit and not the output.
pub fn events_mean()
    ensures wrote { (unit at : ℕ) (reads : List ℕ) (old : Moment)
        → image unit (On unit (Wrote at reads) ∷ old) ≡ overwritten (image unit old) at reads }
    ensures torn { (unit at : ℕ) (reads bytes : List ℕ) (old : Moment)
        → MayLeave unit (On unit (Wrote at reads) ∷ old) bytes
        ↔ ((before : List ℕ) × MayLeave unit old before
        × SameOutside at (length reads) before bytes) }
    ensures synced { (unit : ℕ) (old : Moment)
        → image unit (On unit Synced ∷ old) ≡ image unit old }
    ensures sure { (unit : ℕ) (bytes : List ℕ) (old : Moment)
        → MayLeave unit (On unit Synced ∷ old) bytes ↔ (bytes ≡ image unit old) }
    ensures elsewhere { (unit u : ℕ) (change : Change) (old : Moment) → unit ≢ u
        → changes unit (On u change ∷ old) ≡ changes unit old }
    ensures printed_elsewhere { (unit : ℕ) (bytes : List ℕ) (old : Moment)
        → changes unit (printed bytes old) ≡ changes unit old }
    ensures prints { (bytes : List ℕ) (old : Moment)
        → output (printed bytes old) ≡ output old ++ bytes }
    ensures took_elsewhere { (unit : ℕ) (bytes : List ℕ) (old : Moment)
        → (changes unit (Took bytes ∷ old) ≡ changes unit old)
        × (output (Took bytes ∷ old) ≡ output old) }
{}

/// What holds of a unit begins with an attach that answers true: the unit reads as the device was
/// held, nothing is pending, and it is attached since then.
pub fn attach_begins()
    ensures { (unit : ℕ) (name : List ℕ) (old new : Outside) → Attaches true unit name old new
        → Begins unit name old new }
{}

/// No call but an attach of the unit changes since when it is attached.
pub fn only_attach_begins()
    ensures wrote { (unit u at : ℕ) (reads : List ℕ) (old : Moment)
        → attached_at unit (On u (Wrote at reads) ∷ old) ≡ attached_at unit old }
    ensures synced { (unit u : ℕ) (old : Moment)
        → attached_at unit (On u Synced ∷ old) ≡ attached_at unit old }
    ensures prints { (unit : ℕ) (bytes : List ℕ) (old : Moment)
        → attached_at unit (printed bytes old) ≡ attached_at unit old }
    ensures took { (unit : ℕ) (bytes : List ℕ) (old : Moment)
        → attached_at unit (Took bytes ∷ old) ≡ attached_at unit old }
    ensures elsewhere { (unit u : ℕ) (bytes : List ℕ) (old : Moment) → unit ≢ u
        → attached_at unit (On u (Attached bytes) ∷ old) ≡ attached_at unit old }
{}

/// A call ends at the moment at which it began or at a later one. Then a crash since `t` might have
/// left an image exactly where it might have until the call began, or since then.
pub fn left_since_goes_on()
    ensures { (t unit : ℕ) (bytes printed : List ℕ) (old new : Moment) → t ≤ length old
        → Extends old new
        → LeftSince t unit bytes printed new ↔ (LeftSince t unit bytes printed old
        ⊎ LeftSince (length old) unit bytes printed new) }
{}

/// While bytes are printed, the output is the old one with a first part of them, and nothing else
/// happens.
pub fn print_is_each_prefix()
    ensures { (bytes : List ℕ) (old : Moment)
        → Always (PrintsSome bytes old) old (printed bytes old) }
{}
