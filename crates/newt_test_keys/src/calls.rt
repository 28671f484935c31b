//! What calls answer for a text, as texts.
use crate::folded::{found, unit_text};
use crate::keys::{Declared, key, written};
use crate::missing::rising;
use crate::paths::{is_same, named, reached};
use crate::walks::{near, walked};
use newt_fold::folded;
use newt_keys::Order;
use newt_test_tables::Asks;
use std::alloc::Global;
use std::test::Fail;

/// A call of a text.
#[derive(Clone, Copy)]
pub(crate) enum Call {
    /// The folded form.
    Folded,
    /// The text of the units of a string.
    Units,
    /// Whether `the milkman, café 2nd` has a text, has a word that begins so, and has a word that
    /// is so.
    Found,
    /// How many names a path has, and whether its copy is the same path.
    Names,
    /// Whether a path is `Name.last`.
    Same,
    /// What the path `a` reaches in a graph, and how a change there is refused.
    Reached,
    /// The key that a graph has.
    Key(Declared),
    /// The key that a value writes down.
    Written(Declared),
    /// Whether keys of four integers rise.
    Rising(Order),
    /// The ids of entries, from the first of the index of their keys to its last, and back.
    Walked,
    /// The ids after and before a pair, which the index need not have.
    Near,
}

impl Asks for Call {
    fn answer(&self, alloc: Global, text: &str) -> Result<String, Fail> {
        match self {
            Call::Folded => Ok(folded(alloc, text)?),
            Call::Units => unit_text(alloc, text),
            Call::Found => found(alloc, text),
            Call::Names => named(alloc, text),
            Call::Same => is_same(alloc, text),
            Call::Reached => reached(alloc, text),
            Call::Key(declared) => key(alloc, declared, text),
            Call::Written(declared) => written(alloc, declared, text),
            Call::Rising(order) => rising(alloc, *order, text),
            Call::Walked => walked(alloc, text),
            Call::Near => near(alloc, text),
        }
    }
}
