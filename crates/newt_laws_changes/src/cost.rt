//! Laws of one store: what it costs.
ghost use Rattle.newt_laws_changes.specs.Laws.{CostsAddUp};

/// What a store costs after a change, from what it cost before. So a count that is kept from change
/// to change equals one that is made anew.
pub fn costs_add_up()
    ensures { CostsAddUp }
{}
