//! The declaration of an index that a query takes.
ghost use Rattle.std.specs.Prelude.{◌≡◌, true, option_map, option_and_then, find};
ghost use Rattle.newt_host.specs.Outside.{Outside};
ghost use Rattle.newt_cursor.specs.Seen.{scope_of};
ghost use Rattle.newt_spec_store.specs.Keys.{paths_of, same_paths};
ghost use Rattle.newt_spec_world.specs.Changed.{index_for};
ghost use Rattle.newt_spec_world.specs.World.{mounted_store};
ghost use Rattle.newt_spec_store.specs.Store.{soup_of};
ghost use Rattle.newt_engine_units.specs.Stands.{Eight, Stands, world_of};
ghost use Rattle.newt_engine_cursors.specs.Opening.{index_in};

use newt_base::{Name, Sig};
use newt_cursor::Scope;
use newt_engine_card::Card;
use newt_engine_hits::in_scope;
use newt_engine_units::Units;
use newt_host::{UNITS, Unit};
use newt_keys::IndexSpec;
use newt_path::Path;

/// The declaration of these paths in the soup of a name on the first unit in scope whose soup has
/// one.
pub(crate) fn index_for<'a, C: Card>(
    units: &'a Units<C>,
    scope: &Scope,
    name: &Name,
    paths: &[Path],
) -> Option<&'a IndexSpec>
    ensures { (outside : Outside) → Eight outside → Stands C.place C.stands true units.now outside →
        option_map (λ index. index.now) result ≡ index_for (world_of C.reads units.now outside)
        (scope_of scope.now) name.now paths.now }
{
    for number in 0..UNITS {
        if let Some(index) = index_on(units, Unit(number), scope, name, paths) {
            return Some(index);
        }
    }
    None
}

/// The declaration of these paths in the soup of a name on a unit, if its store is in scope.
fn index_on<'a, C: Card>(
    units: &'a Units<C>,
    unit: Unit,
    scope: &Scope,
    name: &Name,
    paths: &[Path],
) -> Option<&'a IndexSpec>
    ensures { (outside : Outside) → Eight outside → Stands C.place C.stands true units.now outside →
        option_map (λ index. index.now) result ≡ option_and_then
        (index_in (scope_of scope.now) name.now paths.now)
        (mounted_store (world_of C.reads units.now outside) unit) }
{
    let card = units.card(unit)?;
    let soup = card.soup_named(name)?;
    if in_scope(*scope, card.sig()) {
        index_of_soup(card, soup, paths)
    } else {
        None
    }
}

/// The declaration of these paths in a soup of the store of a card.
fn index_of_soup<'a, C: Card>(card: &'a C, soup: Sig, paths: &[Path]) -> Option<&'a IndexSpec>
    ensures { option_map (λ index. index.now) result
        ≡ option_and_then (λ p. find (λ spec. same_paths (paths_of spec) paths.now) p.specs)
        (soup_of soup (C.soups card.now)) }
{
    match card.specs(soup) {
        Some(specs) => of_paths(specs, paths),
        None => None,
    }
}

/// The first of the declarations that has these paths, but for ASCII case.
fn of_paths<'a>(specs: &'a [IndexSpec], paths: &[Path]) -> Option<&'a IndexSpec>
    ensures { option_map (λ index. index.now) result
        ≡ find (λ spec. same_paths (paths_of spec) paths.now) specs.now }
{
    specs.iter().find(|spec| spec.has_paths(paths))
}
