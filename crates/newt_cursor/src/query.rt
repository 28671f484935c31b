//! What a cursor walks: the soups of a name, and what the query asks of their entries.

use newt_base::{Name, Sig};
use newt_query::Spec;

/// The stores whose soups take part.
#[derive(Clone, Copy, PartialEq, Eq, Debug)]
pub enum Scope {
    /// The store with this signature.
    One(Sig),
    /// All mounted stores.
    All,
}

/// The stores and the name of the soups that take part, and what is asked of their entries.
#[derive(Drop)]
pub struct Query {
    pub scope: Scope,
    pub name: Name,
    pub spec: Spec,
}
