//! The notes that are due of a command, by what is known before it.
ghost use Rattle.std.specs.Prelude.{◌≡◌, ℕ, true, IfErr, IfOk};
ghost use Rattle.newt_host.specs.Outside.{Outside};
ghost use Rattle.newt_spec_whole.specs.Events.{add_event, entry_event, events};
ghost use Rattle.newt_spec_world.specs.Reply.{Reply};
ghost use Rattle.newt_engine_units.specs.Stands.{Eight, Stands, world_of};
ghost use Rattle.newt_engine_whole.specs.Ends.{whole_takes_memory};
ghost use Rattle.newt_engine_whole.specs.Told.{HasSig, all_due, event_of};

use newt_base::{Name, Sig, Uid};
use newt_engine_card::Card;
use newt_engine_units::Units;
use newt_host::Unit;
use newt_notify::{Kind, Note};
use newt_script::Command;
use std::alloc::AllocError;

/// No unit has this number. It stands for none.
const NO_UNIT: Unit = Unit(8);

/// A note, with the name of its soup.
#[derive(Drop)]
pub(crate) struct Told {
    pub(crate) name: Name,
    pub(crate) note: Note,
}

/// The notes of a command, where it is done.
#[derive(Drop)]
pub(crate) enum Due {
    Nothing,
    /// A soup of this name is made on the unit. The reply has its signature.
    Soup(Unit, Name),
    One(Told),
    /// Of a move: the add, and then the remove.
    Two(Told, Told),
}

/// The notes that are due of a command, where it is done. Their memory is taken here.
pub(crate) fn due_of<C: Card>(units: &Units<C>, command: &Command) -> Result<Due, AllocError>
    ensures due { (outside : Outside) → Eight outside
        → Stands C.place C.stands true units.now outside →
        let w = world_of C.reads units.now outside in
        IfOk result (λ due. (reply : Reply) → HasSig w command.now reply
        → all_due due reply ≡ events w command.now) }
    ensures only { IfErr result (λ _. whole_takes_memory command.now ≡ true) }
{
    match command {
        Command::Soup(unit, name) => Ok(Due::Soup(*unit, name.copy()?)),
        Command::Drop(unit, name) => {
            Ok(Due::One(told_of(units, Kind::Gone, *unit, name, Uid(0))?))
        }
        Command::Add(unit, name, _) => Ok(Due::One(added(units, *unit, name)?)),
        Command::Addx(unit, name, _) => Ok(Due::One(added(units, *unit, name)?)),
        Command::Addu(name, _) => {
            let unit = units.default_unit().unwrap_or(NO_UNIT);
            Ok(Due::One(added(units, unit, name)?))
        }
        Command::Copy(_, _, _, to, target) => Ok(Due::One(added(units, *to, target)?)),
        Command::Set(unit, name, uid, _, _) => {
            Ok(Due::One(told_of(units, Kind::Change, *unit, name, *uid)?))
        }
        Command::Change(unit, name, uid, _) => {
            Ok(Due::One(told_of(units, Kind::Change, *unit, name, *uid)?))
        }
        Command::Vwrite(unit, name, uid, _, _, _) => {
            Ok(Due::One(told_of(units, Kind::Change, *unit, name, *uid)?))
        }
        Command::Remove(unit, name, uid) => {
            Ok(Due::One(told_of(units, Kind::Remove, *unit, name, *uid)?))
        }
        Command::Move(unit, name, uid, to, target) => Ok(Due::Two(
            added(units, *to, target)?,
            told_of(units, Kind::Remove, *unit, name, *uid)?,
        )),
        _ => Ok(Due::Nothing),
    }
}

/// That an entry of a soup, or the soup itself, is not as it was.
fn told_of<C: Card>(
    units: &Units<C>,
    kind: Kind,
    unit: Unit,
    name: &Name,
    uid: Uid,
) -> Result<Told, AllocError>
    ensures { (outside : Outside) → Eight outside
        → Stands C.place C.stands true units.now outside → IfOk result (λ told.
        event_of told ≡ entry_event (world_of C.reads units.now outside) kind unit name.now uid) }
{
    let soup = units.soup_sig(unit, name).unwrap_or(Sig(0));
    let name = name.copy()?;
    Ok(Told {
        name,
        note: Note {
            kind,
            unit,
            soup,
            uid,
        },
    })
}

/// That an entry is added to a soup, with its next id.
fn added<C: Card>(units: &Units<C>, unit: Unit, name: &Name) -> Result<Told, AllocError>
    ensures { (outside : Outside) → Eight outside
        → Stands C.place C.stands true units.now outside → IfOk result (λ told.
        event_of told ≡ add_event (world_of C.reads units.now outside) unit name.now) }
{
    let uid = units.next_uid(unit, name).unwrap_or(0);
    told_of(units, Kind::Add, unit, name, Uid(uid))
}
