//! The commands that change a store, obeyed by the one change that each resolves to.
ghost use Rattle.std.specs.Prelude.{◌≡◌, ℕ, true, false};
ghost use Rattle.newt_laws_effects.specs.Tells.{is_of_stores};
ghost use Rattle.newt_laws_world.specs.Worlds.{has_form};
ghost use Rattle.newt_spec_world.specs.Step.{moves_away};
ghost use Rattle.newt_engine_units.specs.Stands.{Stands};
ghost use Rattle.newt_engine_commands.specs.Plans.{CarriesOut};

use crate::plans::resolve;
use newt_engine_card::Card;
use newt_engine_units::{Effect, Units};
use newt_host::Host;
use newt_spec_world::Command;
use newt_store_change::StoreFault;

/// Whether a command changes the stores that it names.
#[tactic(auto, unfolding(newt_laws_effects::specs::Tells::is_of_stores))]
pub fn changes_stores(command: &Command) -> bool
    ensures { result ≡ is_of_stores command.now }
{
    matches!(
        command,
        Command::Soup(_, _)
            | Command::Drop(_, _)
            | Command::Index(_, _, _)
            | Command::Unindex(_, _, _)
            | Command::SetTags(_, _, _, _)
            | Command::SetInfo(_, _, _)
            | Command::Add(_, _, _)
            | Command::Addx(_, _, _)
            | Command::Addu(_, _)
            | Command::Set(_, _, _, _, _)
            | Command::Change(_, _, _, _)
            | Command::Remove(_, _, _)
            | Command::Copy(_, _, _, _, _)
            | Command::Move(_, _, _, _, _)
            | Command::Vwrite(_, _, _, _, _, _)
    )
}

/// Obeys a command that changes one store, at the present minute, and answers what it did there.
pub fn obey<C: Card, H: Host>(
    units: &mut Units<C>,
    host: &mut H,
    command: Command,
) -> Result<Effect, StoreFault>
    requires stands { Stands C.place C.stands H.told units.old (H.outside host.old) }
    requires form { has_form command ≡ true }
    requires of_stores { is_of_stores command ≡ true }
    requires within { (unit : ℕ) → moves_away command unit ≡ false }
    ensures { CarriesOut C.reads C.place C.stands H.told command units.old units.new
        (H.outside host.old) (H.outside host.new) result }
{
    let (unit, change) = resolve(units, host, command)?;
    units.alter(host, unit, change)
}
