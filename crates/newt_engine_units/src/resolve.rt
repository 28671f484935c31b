//! Aliases: the entries that they name.
ghost use Rattle.std.specs.Prelude.{◌≡◌, ℕ, true, Some, IfOk, IfErr};
ghost use Rattle.newt_entries_alias.specs.Alias.{alias_said};
ghost use Rattle.newt_host.specs.Moments.{image};
ghost use Rattle.newt_host.specs.Outside.{Outside};
ghost use Rattle.newt_spec_store.specs.Store.{Store};
ghost use Rattle.newt_spec_world.specs.Alias.{resolved};
ghost use Rattle.newt_spec_world.specs.Answer.{or_nil};
ghost use Rattle.newt_spec_world.specs.Reply.{Reply};
ghost use Rattle.newt_spec_world.specs.declared.command.Command.{Command};
ghost use Rattle.newt_laws_answers.specs.There.{OnUnit};
ghost use Rattle.newt_store_change.specs.Faults.{NoDevice};
ghost use Rattle.newt_engine_units.specs.Answers.{Answers};
ghost use Rattle.newt_engine_units.specs.Spots.{spot_in, spot_reply};
ghost use Rattle.newt_engine_units.specs.Stands.{Eight, Stands, world_of};

use crate::units::Units;
use newt_base::{Name, Refusal, Sig, Uid};
use newt_engine_card::Card;
use newt_entries_alias::Alias;
use newt_graph::Graph;
use newt_host::Unit;
use newt_store_change::StoreFault;
use std::alloc::AllocError;

impl<C: Card> Units<C> {
    /// The unit, the soup and the id of the entry that an alias names; none where it is not in a
    /// mounted store. A graph that is no alias is refused.
    pub fn resolve(&self, graph: &Graph) -> Result<Option<(Unit, Name, Uid)>, StoreFault>
        ensures answered { (outside : Outside) → Eight outside
            → Stands C.place C.stands true self.now outside →
            Answers (world_of C.reads self.now outside) (world_of C.reads self.now outside)
            (Command.Resolve graph.now) (λ found. or_nil (λ x. Reply.where_is x.0 x.1 x.2) found)
            result }
        ensures only { IfErr result (λ fault. NoDevice fault) }
    {
        match Alias::read(graph) {
            Some(alias) => Ok(self.find_alias(alias)?),
            None => Err(StoreFault::Refused(Refusal::Spec)),
        }
    }

    /// Where the entry of an alias is: its unit, its soup and its id; none where it is not in a
    /// mounted store.
    pub fn find_alias(&self, alias: Alias) -> Result<Option<(Unit, Name, Uid)>, AllocError>
        ensures { (outside : Outside) → Eight outside
            → Stands C.place C.stands true self.now outside →
            IfOk result (λ found. or_nil (λ x. Reply.where_is x.0 x.1 x.2) found
            ≡ spot_reply (resolved (world_of C.reads self.now outside) (alias_said alias))) }
    {
        match self.unit_of(alias.store) {
            Some(unit) => self.find_there(unit, alias.soup, alias.uid),
            None => Ok(None),
        }
    }

    /// Where the entry of these signatures is, in the store that is mounted on a unit.
    fn find_there(
        &self,
        unit: Unit,
        soup: Sig,
        uid: Uid,
    ) -> Result<Option<(Unit, Name, Uid)>, AllocError>
        ensures { (outside : Outside) → Eight outside
            → Stands C.place C.stands true self.now outside → (blocks : ℕ) (s : Store)
            → OnUnit (world_of C.reads self.now outside) unit blocks s →
            IfOk result (λ found. or_nil (λ x. Reply.where_is x.0 x.1 x.2) found
            ≡ spot_reply (spot_in unit soup uid s)) }
    {
        match self.card(unit) {
            Some(card) => place_on(card, unit, soup, uid),
            None => Ok(None),
        }
    }
}

/// Where the entry of these signatures is, in the store of a card.
fn place_on<C: Card>(
    card: &C,
    unit: Unit,
    soup: Sig,
    uid: Uid,
) -> Result<Option<(Unit, Name, Uid)>, AllocError>
    ensures { (outside : Outside) (s : Store) → C.stands true card.now outside
        → C.reads (image (C.place card.now) outside.now) ≡ Some s →
        IfOk result (λ found. or_nil (λ x. Reply.where_is x.0 x.1 x.2) found
        ≡ spot_reply (spot_in unit soup uid s)) }
{
    if !card.has(soup, uid) {
        return Ok(None);
    }
    match card.soup_name(soup) {
        Some(name) => Ok(Some((unit, name.copy()?, uid))),
        None => Ok(None),
    }
}
