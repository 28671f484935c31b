//! What a text has written down so far.
ghost use Rattle.std.specs.Prelude.{◌≡◌, ◌<◌, ◌≤◌, [], None, length, IfOk, OnOk, IfErr};
ghost use Rattle.newt_graph.specs.Graph.{IsName};
ghost use Rattle.newt_graph.specs.Meeting.{normal_form};
ghost use Rattle.newt_graph.specs.Draft.{IsFilling, IsJoined};
ghost use Rattle.newt_spec_literal.specs.Built.{symbol_in, held, filled, node_of, labelled};
ghost use Rattle.newt_lit_read.specs.Answers.{Gives};
ghost use Rattle.newt_lit_read.specs.declared.fault.LitFault.TheVariants.{Memory};

use crate::fault::LitFault;
use indexmap::IndexMap;
use newt_graph::{Builder, Graph, Node, Ref};
use std::alloc::Global;
use std::marker::Model;

/// A builder whose nodes stand in the order in which the text meets them, and each label with its
/// node.
#[derive(Drop)]
pub(crate) struct Building {
    builder: Builder,
    labels: IndexMap<u32, u32>,
}

impl Model for Building {
    ghost use Rattle.newt_spec_literal.specs.Built.{Built};

    ghost Value = { Built };

    ghost view = { λ b. record { nodes = b.builder; labels = b.labels.entries } };
}

impl Building {
    pub(crate) fn new(alloc: Global) -> Building
        ensures { result ≡ record { nodes = []; labels = [] } }
    {
        Building {
            builder: Builder::new(alloc),
            labels: IndexMap::new(alloc),
        }
    }

    /// The symbol of this name but for ASCII case: the first one in the text, or a new one.
    #[tactic(auto, unfolding(newt_spec_literal::specs::Built::symbol_in))]
    pub(crate) fn symbol(&mut self, name: &[u8]) -> Result<u32, LitFault>
        requires { IsName name.now }
        ensures gives { Gives (λ n. (n, self.new)) result (symbol_in self.old name.now) }
        ensures grows { OnOk result (length self.old.nodes ≤ length self.new.nodes) }
    {
        Ok(self.builder.symbol(name)?)
    }

    /// A new node, to be filled when its parts have been read.
    #[tactic(auto, unfolding(newt_spec_literal::specs::Built::held))]
    pub(crate) fn hold(&mut self) -> Result<u32, LitFault>
        ensures gives { Gives (λ n. (n, self.new)) result (held self.old) }
        ensures inside { IfOk result (λ n. n < length self.new.nodes) }
        ensures grows { OnOk result (length self.old.nodes ≤ length self.new.nodes) }
    {
        Ok(self.builder.hold()?)
    }

    /// Fills a node that was held.
    #[tactic(auto, unfolding(newt_spec_literal::specs::Built::filled))]
    pub(crate) fn fill(&mut self, n: u32, node: Node) -> Result<(), LitFault>
        requires inside { n < length self.old.nodes }
        requires filling { IsFilling node }
        ensures gives { Gives (λ done. self.new) result (filled self.old n node) }
        ensures stays { OnOk result (length self.new.nodes ≡ length self.old.nodes) }
    {
        Ok(self.builder.fill(n, node)?)
    }

    /// The node of a label, where it was given.
    pub(crate) fn labelled_node(&self, label: u32) -> Option<u32>
        ensures { result ≡ node_of label self.now.labels }
    {
        self.labels.get(&label).copied()
    }

    /// Gives the next node a label that none has.
    pub(crate) fn label(&mut self, label: u32) -> Result<(), LitFault>
        requires { node_of label self.old.labels ≡ None }
        ensures ok { OnOk result (self.new ≡ labelled self.old label) }
        ensures err { IfErr result (λ e. e ≡ Memory) }
    {
        self.labels.insert(label, self.builder.len())?;
        Ok(())
    }

    /// The graph of what the root reaches.
    pub(crate) fn finish(self, root: Ref) -> Result<Graph, LitFault>
        requires { IsJoined self.nodes root }
        ensures { Gives (λ g. g) result (normal_form (record { nodes = self.nodes; root = root })) }
    {
        Ok(self.builder.finish(root)?)
    }
}
