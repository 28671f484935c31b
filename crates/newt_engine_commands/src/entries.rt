//! Entries: shown, and their aliases.
ghost use Rattle.std.specs.Prelude.{true, IfErr};
ghost use Rattle.newt_host.specs.Outside.{Outside};
ghost use Rattle.newt_spec_world.specs.Reply.{Reply};
ghost use Rattle.newt_spec_world.specs.declared.command.Command.{Command};
ghost use Rattle.newt_engine_units.specs.Answers.{Answers};
ghost use Rattle.newt_store_change.specs.Faults.{IsRefusal};
ghost use Rattle.newt_engine_units.specs.Calls.{Obeys};
ghost use Rattle.newt_engine_units.specs.Stands.{Eight, Stands, world_of};

use newt_base::{Name, Refusal, Sig, Uid};
use newt_engine_card::Card;
use newt_engine_units::Units;
use newt_host::{Host, Unit};
use newt_store_change::{Entry, StoreFault};

/// Reads an entry.
pub fn get<C: Card, H: Host>(
    units: &mut Units<C>,
    host: &mut H,
    unit: Unit,
    name: &Name,
    uid: Uid,
) -> Result<Entry, StoreFault>
    requires { Stands C.place C.stands H.told units.old (H.outside host.old) }
    ensures obeyed { Obeys C.reads C.place C.stands H.told (Command.Get unit name.now uid)
        (λ e. Reply.timed e.time e.graph)
        units.old units.new (H.outside host.old) (H.outside host.new) result }
    ensures as_stream { Obeys C.reads C.place C.stands H.told (Command.Getx unit name.now uid)
        (λ e. Reply.timed_nsof e.time e.graph)
        units.old units.new (H.outside host.old) (H.outside host.new) result }
{
    let soup = units.find_soup(unit, name)?;
    units.read_entry(host, unit, soup, uid)
}

/// The signatures of the store and the soup of an entry, which with its id are its alias.
pub fn alias<C: Card>(
    units: &Units<C>,
    unit: Unit,
    name: &Name,
    uid: Uid,
) -> Result<(Sig, Sig), StoreFault>
    ensures answered { (outside : Outside) → Eight outside
        → Stands C.place C.stands true units.now outside →
        Answers (world_of C.reads units.now outside) (world_of C.reads units.now outside)
        (Command.Alias unit name.now uid) (λ x. Reply.alias x.0 x.1 uid) result }
    ensures only { IfErr result (λ fault. IsRefusal fault) }
{
    let soup = units.find_entry(unit, name, uid)?;
    match units.card(unit) {
        Some(card) => Ok((card.sig(), soup)),
        None => Err(StoreFault::Refused(Refusal::Notmounted)),
    }
}
