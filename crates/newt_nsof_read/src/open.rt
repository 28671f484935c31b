//! Containers whose values are still being read.
ghost use Rattle.std.specs.Prelude.{◌≡◌, OnOk, length, nat_lt};
ghost use Rattle.newt_nsof_read.specs.Stack.{node_of, with_value, just_opened};

use newt_graph::{Node, Ref, Refs, Tags};
use std::alloc::{AllocError, Global};
use std::marker::Model;

/// What a container is, but for its values: a frame with its tags, or an array with its class.
#[derive(Drop)]
pub(crate) enum Kind {
    Frame(Tags),
    Array(Option<u32>),
}

/// A container of `count` values, of which those that were read stand in `values`. Its node `n` was
/// added empty.
#[derive(Drop)]
pub(crate) struct Open {
    n: u32,
    kind: Kind,
    count: u32,
    values: Vec<Ref>,
}

impl Model for Open {
    ghost use Rattle.newt_nsof_read.specs.Opened.{Opened};

    ghost Value = { Opened };

    ghost view = { λ o. record { n = o.n; kind = o.kind; count = o.count; values = o.values.items } };
}

impl Open {
    /// A container of which no value was read.
    pub(crate) fn new(alloc: Global, n: u32, kind: Kind, count: u32) -> Open
        ensures { result ≡ just_opened n kind count }
    {
        Open {
            n,
            kind,
            count,
            values: Vec::new(alloc),
        }
    }

    /// The number of the container's node.
    pub(crate) fn node(&self) -> u32
        ensures { result ≡ self.now.n }
    {
        self.n
    }

    /// Whether there are values still to be read.
    pub(crate) fn lacks_values(&self) -> bool
        ensures { result ≡ nat_lt (length self.now.values) self.now.count }
    {
        self.values.len() < self.count as usize
    }

    /// Takes the next value.
    pub(crate) fn push(&mut self, value: Ref) -> Result<(), AllocError>
        ensures { OnOk result (self.new ≡ with_value self.old value) }
    {
        self.values.push(value)?;
        Ok(())
    }

    /// The whole container.
    pub(crate) fn into_node(self) -> Node
        ensures { result ≡ node_of self.kind self.values }
    {
        let values = Refs::of(self.values);
        match self.kind {
            Kind::Frame(tags) => Node::Frame(tags, values),
            Kind::Array(class) => Node::Array(class, values),
        }
    }
}

/// What stands at the front of a text: a whole value, or a container that is now open.
#[derive(Drop)]
pub(crate) enum Front {
    Value(Ref),
    Open(Open),
}
