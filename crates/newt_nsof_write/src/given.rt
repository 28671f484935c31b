//! The numbers of a written text: which nodes have one.
ghost use Rattle.std.specs.Prelude.{◌≡◌, ◌++◌, ◌∷◌, [], ◌<◌, nat_eq, All, None, IfSome, OnOk};
ghost use Rattle.std.specs.List.{IsDistinct};
ghost use Rattle.std.proofs.Props.{props};
ghost use Rattle.newt_spec_nsof.specs.Written.{number_of};

use indexmap::IndexSet;
use std::alloc::{AllocError, Global};
use std::marker::Model;

/// The nodes that have a number, in the order of their numbers.
#[derive(Drop)]
pub(crate) struct Numbers {
    given: IndexSet<u32>,
    ghost distinct: { IsDistinct nat_eq given.keys } by { Prim.hlevel props },
    ghost small: { All (λ k. k < 65535) given.keys } by { Prim.hlevel props },
}

impl Model for Numbers {
    ghost use Rattle.std.specs.Prelude.{List, ℕ};

    ghost Value = { List ℕ };

    ghost view = { λ numbers. numbers.given.keys };
}

impl Numbers {
    pub(crate) fn none(alloc: Global) -> Numbers
        ensures { result ≡ [] }
    {
        Numbers {
            given: IndexSet::new(alloc),
        }
    }

    /// The number of a node, if it has one.
    pub(crate) fn of(&self, node: u32) -> Option<u32>
        ensures number { result ≡ number_of node self.now }
        ensures small { IfSome result (λ number. number < 65535) }
    {
        match self.given.get_index_of(&node) {
            Some(number) => Some(number as u32),
            None => None,
        }
    }

    /// Gives a node the next number.
    pub(crate) fn give(&mut self, node: u32) -> Result<(), AllocError>
        requires small { node < 65535 }
        requires new { number_of node self.old ≡ None }
        ensures { OnOk result (self.new ≡ self.old ++ node ∷ []) }
    {
        self.given.insert(node)?;
        Ok(())
    }
}
