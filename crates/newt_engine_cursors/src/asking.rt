//! A query, made of its frame.
ghost use Rattle.std.specs.Prelude.{◌≡◌, true, not, [], ◌∷◌, Some, IfErr, unwrap_or};
ghost use Rattle.newt_base.specs.declared.Refusal.TheVariants.{Key as BadKey};
ghost use Rattle.newt_host.specs.Outside.{Outside};
ghost use Rattle.newt_cursor.specs.Seen.{scope_of};
ghost use Rattle.newt_query.specs.Shape.{shape_of};
ghost use Rattle.newt_spec_query.specs.Spec.{is_query, keys_fit, spec_of};
ghost use Rattle.newt_spec_world.specs.Changed.{query_of};
ghost use Rattle.newt_store_change.specs.Faults.{NoDevice};
ghost use Rattle.newt_engine_units.specs.Stands.{Eight, Stands, world_of};
ghost use Rattle.newt_engine_cursors.specs.Opening.{Binds, Indexes, bind_tests};

use crate::declared::index_for;
use newt_base::{Name, Refusal};
use newt_cursor::{Query, Scope};
use newt_engine_card::Card;
use newt_engine_units::Units;
use newt_graph::Graph;
use newt_keys::IndexSpec;
use newt_pagebook::Stop;
use newt_query::{BindFault, Shape, ShapeFault};
use newt_store_change::StoreFault;
use std::alloc::Global;

/// What a frame asks of the soups of a name.
pub(crate) fn query_for<C: Card>(
    units: &Units<C>,
    scope: Scope,
    name: &Name,
    graph: &Graph,
) -> Result<Query, StoreFault>
    ensures bound { (outside : Outside) → Eight outside
        → Stands C.place C.stands true units.now outside
        → let w = world_of C.reads units.now outside in
        Binds (bind_tests w (scope_of scope) name.now graph.now)
        (query_of w (scope_of scope) name.now graph.now) result }
    ensures cause { IfErr result NoDevice }
{
    match Shape::read(units.alloc(), graph) {
        Ok(shape) => bound(units, scope, name, graph, shape),
        Err(ShapeFault::Spec) => Err(StoreFault::Refused(Refusal::Spec)),
        Err(ShapeFault::Memory) => Err(StoreFault::Stop(Stop::Memory)),
    }
}

/// What a frame that was read asks, bound to the index that it takes.
fn bound<C: Card>(
    units: &Units<C>,
    scope: Scope,
    name: &Name,
    graph: &Graph,
    shape: Shape,
) -> Result<Query, StoreFault>
    requires form { is_query graph.now ≡ true }
    requires shape { shape ≡ shape_of graph.now }
    ensures bound { (outside : Outside) → Eight outside
        → Stands C.place C.stands true units.now outside
        → let w = world_of C.reads units.now outside in
        Binds (bind_tests w (scope_of scope) name.now graph.now)
        (query_of w (scope_of scope) name.now graph.now) result }
    ensures cause { IfErr result NoDevice }
{
    let found = find_index(units, &scope, name, &shape);
    match found {
        Ok(index) => keyed(units.alloc(), scope, name, graph, shape, index),
        Err(fault) => Err(fault),
    }
}

/// What a frame that was read asks, with its keys by an index.
fn keyed(
    alloc: Global,
    scope: Scope,
    name: &Name,
    graph: &Graph,
    shape: Shape,
    index: Option<IndexSpec>,
) -> Result<Query, StoreFault>
    requires { shape ≡ shape_of graph.now }
    ensures bound { let spec = unwrap_or index [] in
        Binds ((BadKey, not (keys_fit graph.now spec)) ∷ [])
        (record { scope = scope_of scope; name = name.now; spec = spec_of graph.now spec }) result }
    ensures cause { IfErr result NoDevice }
{
    match shape.bind(alloc, graph, index) {
        Ok(spec) => Ok(Query {
            scope,
            name: name.copy()?,
            spec,
        }),
        Err(BindFault::KeyType) => Err(StoreFault::Refused(Refusal::Key)),
        Err(BindFault::Memory) => Err(StoreFault::Stop(Stop::Memory)),
    }
}

/// The index that a query takes: none where it asks for none.
fn find_index<C: Card>(
    units: &Units<C>,
    scope: &Scope,
    name: &Name,
    shape: &Shape,
) -> Result<Option<IndexSpec>, StoreFault>
    ensures found { (outside : Outside) → Eight outside
        → Stands C.place C.stands true units.now outside →
        Indexes (world_of C.reads units.now outside) (scope_of scope.now) name.now shape.now.paths
        result }
    ensures cause { IfErr result NoDevice }
{
    let Some(paths) = shape.paths() else {
        return Ok(None);
    };
    match index_for(units, scope, name, paths) {
        Some(index) => Ok(Some(index.copy()?)),
        None => Err(StoreFault::Refused(Refusal::Index)),
    }
}
