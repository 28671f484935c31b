//! A working copy.
ghost use Rattle.std.specs.Prelude.{◌≡◌, ◌↔◌, IfOk, IsErrOf, None, OnErr, OnOk, IsTrue};
ghost use Rattle.newt_path.specs.Put.{IsFormOf, PassesALimit};
ghost use Rattle.newt_path.specs.declared.fault.SetFault.{SetFault};
ghost use Rattle.newt_work.specs.Work.{opened, edited, rebased, is_based, IsBased, draft_with, drafted};

use crate::equal::same_graph;
use newt_base::{Sig, Uid};
use newt_graph::Graph;
use newt_path::{Path, SetFault, set_at};
use std::alloc::{AllocError, Global};
use std::marker::Model;

/// A working copy: which entry it is of, the base and the draft. The base is the time and the graph
/// that the entry had when the copy was last opened, saved or reverted.
#[derive(Drop)]
pub struct Work {
    alloc: Global,
    store: Sig,
    soup: Sig,
    uid: Uid,
    time: u32,
    base: Graph,
    /// The draft; none while it is the base.
    edited: Option<Graph>,
}

impl Model for Work {
    ghost use Rattle.std.specs.Prelude.{unwrap_or};
    ghost use Rattle.newt_work.specs.Work.{Copy};

    ghost Value = { Copy };

    ghost view = { λ w. record {
      store = w.store;
      soup = w.soup;
      uid = w.uid;
      time = w.time;
      base = w.base;
      draft = unwrap_or w.edited w.base;
    } };
}

impl Work {
    /// A copy of an entry as it is now. Its draft is the entry's graph. It takes no memory.
    pub fn open(
        alloc: Global,
        store: Sig,
        soup: Sig,
        uid: Uid,
        time: u32,
        graph: Graph,
    ) -> Result<Work, AllocError>
        ensures { IfOk result (λ work. work ≡ opened store soup uid time graph) }
    {
        Ok(Work {
            alloc,
            store,
            soup,
            uid,
            time,
            base: graph,
            edited: None,
        })
    }

    /// The signatures of the entry's store and soup, and its id. It takes no memory.
    pub fn alias(&self) -> (Sig, Sig, Uid)
        ensures { result ≡ (self.now.store, self.now.soup, self.now.uid) }
    {
        (self.store, self.soup, self.uid)
    }

    /// The graph as it was edited. It takes no memory.
    pub fn draft(&self) -> &Graph
        ensures { result.now ≡ self.now.draft }
    {
        match &self.edited {
            Some(draft) => draft,
            None => &self.base,
        }
    }

    /// Whether an entry with this time and graph is as the base. It takes no memory.
    pub fn based(&self, time: u32, graph: &Graph) -> bool
        ensures value { result ≡ is_based time graph.now self.now }
        ensures exact { IsTrue result ↔ IsBased time graph.now self.now }
    {
        self.time == time && same_graph(&self.base, graph)
    }

    /// Puts a value at a path of the draft, as `set_at` does. After a refusal the draft is as
    /// before. An engine that must look at the new draft first makes it by `set_at`, and gives it
    /// by `redraft`.
    #[tactic(auto, using(crate::proofs::Forms::formed))]
    pub fn edit(&mut self, path: &Path, value: &Graph) -> Result<(), SetFault>
        ensures form { IfOk result (λ _. IsFormOf (draft_with path.now value.now self.old)
            self.new.draft) }
        ensures ok { OnOk result (self.new ≡ drafted path.now value.now self.old) }
        ensures no_path { IsErrOf result SetFault.NoPath
            ↔ (draft_with path.now value.now self.old ≡ None) }
        ensures limit { IsErrOf result SetFault.Limit
            → PassesALimit (draft_with path.now value.now self.old) }
        ensures err { OnErr result (self.new ≡ self.old) }
    {
        let draft = set_at(self.alloc, self.draft(), path, value)?;
        self.edited = Some(draft);
        Ok(())
    }

    /// Takes another draft. It takes no memory.
    pub fn redraft(&mut self, graph: Graph)
        ensures { self.new ≡ edited graph self.old }
    {
        self.edited = Some(graph);
    }

    /// Begins again from another state of the entry, whose graph is given twice. It takes no
    /// memory.
    pub fn rebase(&mut self, time: u32, base: Graph, draft: Graph)
        requires { base ≡ draft }
        ensures { self.new ≡ rebased time base self.old }
    {
        drop(draft);
        self.begin_again(time, base);
    }

    /// Begins again from another state of the entry. It takes no memory.
    pub(crate) fn begin_again(&mut self, time: u32, graph: Graph)
        ensures { self.new ≡ rebased time graph self.old }
    {
        self.time = time;
        self.base = graph;
        self.edited = None;
    }

    /// Begins again from the draft, which the entry has got at this time. It takes no memory.
    pub fn rebase_to_draft(&mut self, time: u32)
        ensures { self.new ≡ rebased time self.old.draft self.old }
    {
        self.time = time;
        if let Some(draft) = self.edited.take() {
            self.base = draft;
        }
    }
}
