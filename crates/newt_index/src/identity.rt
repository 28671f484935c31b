//! The identity of an entry among those of all stores, with its key.
ghost use Rattle.std.specs.Prelude.{◌≡◌, IfOk};

use newt_base::{Sig, Uid};
use newt_keys::Key;
use std::alloc::AllocError;

/// A spot: the identity of an entry (the signatures of its store and soup, and its id), with its
/// key.
#[derive(Drop)]
pub struct Spot {
    pub key: Key,
    pub store: Sig,
    pub soup: Sig,
    pub uid: Uid,
}

impl Spot {
    /// An equal spot.
    pub fn copy(&self) -> Result<Spot, AllocError>
        ensures { IfOk result (λ copy. copy ≡ self.now) }
    {
        Ok(Spot {
            key: self.key.copy()?,
            store: self.store,
            soup: self.soup,
            uid: self.uid,
        })
    }
}
