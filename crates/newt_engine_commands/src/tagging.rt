//! Tags: shown.
ghost use Rattle.std.specs.Prelude.{◌≡◌, true, Some, None, IfErr, option_map, option_and_then};
ghost use Rattle.newt_host.specs.Outside.{Outside};
ghost use Rattle.newt_spec_world.specs.Reply.{Reply};
ghost use Rattle.newt_spec_world.specs.declared.command.Command.{Command};
ghost use Rattle.newt_engine_units.specs.Answers.{Answers};
ghost use Rattle.newt_spec_store.specs.Store.{soup_of};
ghost use Rattle.newt_store_change.specs.Faults.{NoDevice};
ghost use Rattle.newt_engine_units.specs.Stands.{Eight, Stands, world_of, card_on};

use newt_base::{Name, Sig};
use newt_engine_card::Card;
use newt_engine_units::Units;
use newt_host::Unit;
use newt_store_change::StoreFault;
use newt_tags::TagTable;

/// The tags declaration of a soup, if it has one.
pub fn tags<C: Card>(
    units: &Units<C>,
    unit: Unit,
    name: &Name,
) -> Result<Option<TagTable>, StoreFault>
    ensures answered { (outside : Outside) → Eight outside
        → Stands C.place C.stands true units.now outside →
        Answers (world_of C.reads units.now outside) (world_of C.reads units.now outside)
        (Command.Tags unit name.now) (λ table. Reply.tags table) result }
    ensures only { IfErr result (λ fault. NoDevice fault) }
{
    let soup = units.find_soup(unit, name)?;
    match table(units, unit, soup) {
        Some(table) => Ok(Some(table.copy()?)),
        None => Ok(None),
    }
}

/// The tags declaration of a soup of the store that is mounted on a unit.
fn table<C: Card>(units: &Units<C>, unit: Unit, soup: Sig) -> Option<&TagTable>
    ensures { option_map (λ table. table.now) result
        ≡ option_and_then (λ card. option_and_then (λ p. p.tags) (soup_of soup (C.soups card)))
        (card_on units.now unit) }
{
    match units.card(unit) {
        Some(card) => card.tags(soup),
        None => None,
    }
}
