//! An entry that a union shows.
ghost use Rattle.std.specs.Prelude.{◌≡◌};

use newt_base::{Sig, Uid};
use newt_keys::Key;

/// A hit: its key, the signatures of its store and soup, and the id of its entry.
#[derive(Drop)]
pub struct Hit<'a> {
    pub key: &'a Key,
    pub store: Sig,
    pub soup: Sig,
    pub uid: Uid,
}

impl<'a> Hit<'a> {
    /// An equal hit, which lends the same key.
    pub fn copy(&self) -> Hit<'a>
        ensures { result ≡ self.now }
    {
        Hit {
            key: self.key,
            store: self.store,
            soup: self.soup,
            uid: self.uid,
        }
    }
}
