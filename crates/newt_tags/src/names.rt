//! Lists of symbols' names.
ghost use Rattle.std.specs.Prelude.{◌≡◌, IfOk};
ghost use Rattle.newt_base.specs.Names.{same_name};
ghost use Rattle.newt_spec_graph.specs.Lists.{all_apart};
ghost use Rattle.newt_spec_query.specs.Tags.{is_among};

use newt_graph::Bytes;
use std::alloc::AllocError;
use std::marker::Model;

/// Names of symbols.
#[derive(Drop)]
pub struct Names {
    items: Vec<Bytes>,
}

impl Model for Names {
    ghost use Rattle.std.specs.Prelude.{List, ℕ};

    ghost Value = { List (List ℕ) };

    ghost view = { λ names. names.items.items };
}

impl Names {
    /// The list of these names.
    pub fn of(items: Vec<Bytes>) -> Self
        ensures { result ≡ items.items }
    {
        Names { items }
    }

    /// The names in order.
    pub fn list(&self) -> &[Bytes]
        ensures { result.now ≡ self.now }
    {
        self.items.as_slice()
    }

    /// The names themselves.
    pub fn into_items(self) -> Vec<Bytes>
        ensures { result.items ≡ self }
    {
        self.items
    }

    /// Equal names.
    pub fn copy(&self) -> Result<Self, AllocError>
        ensures { IfOk result (λ copy. copy ≡ self.now) }
    {
        let mut items = Vec::new(*self.items.allocator());
        for name in &self.items {
            items.push(name.copy()?)?;
        }
        Ok(Names { items })
    }
}

/// Whether no two names are alike but for ASCII case. It takes no memory.
pub fn are_names_apart(names: &[Bytes]) -> bool
    ensures { result ≡ all_apart same_name names.now }
{
    let mut left = names;
    while let [name, rest @ ..] = left {
        if is_among(rest, name.list()) {
            return false;
        }
        left = rest;
    }
    true
}

/// Whether the name is one of these but for ASCII case.
pub(crate) fn is_among(names: &[Bytes], name: &[u8]) -> bool
    ensures { result ≡ is_among names.now name.now }
{
    names
        .iter()
        .any(|other| name.eq_ignore_ascii_case(other.list()))
}
