//! What a query asks once its index is known.
ghost use Rattle.std.specs.Prelude.{◌≡◌, ◌&&◌, [], true, false, option_map, unwrap_or, IfOk};
ghost use Rattle.std.specs.Prelude.{IsErrOf, IsSome};
ghost use Rattle.newt_spec_query.specs.Hits.{text_passes};
ghost use Rattle.newt_spec_query.specs.Tags.{tags_pass};
ghost use Rattle.newt_tags.specs.Masks.{tags_by};
ghost use Rattle.newt_spec_query.specs.Spec.{keys_fit, spec_of};
ghost use Rattle.newt_query.specs.Shape.{shape_of};
ghost use Rattle.newt_query.specs.Filter.{asks_texts, in_range, passes_by};
ghost use Rattle.newt_query.specs.declared.fault.BindFault.{BindFault};

use crate::bounds::{is_above, is_below, range_given};
use crate::fault::BindFault;
use crate::shape::Shape;
use crate::text::{Texts, has_parts, has_words, strings};
use newt_graph::Graph;
use newt_keys::{IndexSpec, Key};
use newt_tags::{TagSpec, TagTable};
use std::alloc::{AllocError, Global};
use std::marker::Model;
use std::ops::Bound;

/// A query: its index, the range of its keys, its tags, its words and texts.
#[derive(Drop)]
pub struct Spec {
    index: Option<IndexSpec>,
    lower: Bound<Key>,
    upper: Bound<Key>,
    tags: TagSpec,
    words: Texts,
    texts: Texts,
    entire: bool,
}

impl Model for Spec {
    ghost use Rattle.std.specs.Prelude.{[], unwrap_or};
    ghost use Rattle.newt_spec_query.specs.Spec.{Spec};
    ghost use Rattle.newt_query.specs.Ends.{end_of};

    ghost Value = { Spec };

    ghost view = { λ s. record { index = unwrap_or s.index []; lower = end_of s.lower; upper = end_of s.upper; tags = s.tags; words = s.words; texts = s.texts; entire = s.entire } };
}

impl Shape {
    /// Binds the query to an index of its paths, or to none where it asks for none. The graph is
    /// the one that was read. `KeyType` exactly where a key that it gives is not of the index's
    /// types.
    pub fn bind(
        self,
        alloc: Global,
        graph: &Graph,
        spec: Option<IndexSpec>,
    ) -> Result<Spec, BindFault>
        requires { self ≡ shape_of graph.now }
        ensures ok { IfOk result (λ bound. bound ≡ spec_of graph.now (unwrap_or spec [])) }
        ensures fit { IfOk result (λ _. keys_fit graph.now (unwrap_or spec []) ≡ true) }
        ensures key_type { IsErrOf result BindFault.KeyType
            → keys_fit graph.now (unwrap_or spec []) ≡ false }
    {
        let (lower, upper) = range_given(alloc, graph, &spec)?;
        let (tags, words, texts, entire) = self.into_parts();
        Ok(Spec {
            index: spec,
            lower,
            upper,
            tags,
            words,
            texts,
            entire,
        })
    }
}

impl Spec {
    /// The index that was bound. It takes no memory.
    pub fn index(&self) -> Option<&IndexSpec>
        ensures { unwrap_or (option_map (λ s. s.now) result) [] ≡ self.now.index }
    {
        self.index.as_ref()
    }

    /// Whether a key is in the range. It takes no memory.
    pub fn in_range(&self, key: &Key) -> bool
        ensures { result ≡ in_range self.now key.now }
    {
        is_above(&self.index, &self.lower, key) && is_below(&self.index, &self.upper, key)
    }

    /// Whether words or texts are asked for, so that an entry's graph is needed. It takes no
    /// memory.
    pub fn needs_graph(&self) -> bool
        ensures { result ≡ asks_texts self.now }
    {
        !self.words.list().is_empty() || !self.texts.list().is_empty()
    }

    /// Whether an entry passes: by its key, by its mask by the soup's tags declaration and, where
    /// words or texts are asked for, by its graph.
    pub fn passes(
        &self,
        alloc: Global,
        key: &Key,
        table: Option<&TagTable>,
        mask: u64,
        graph: Option<&Graph>,
    ) -> Result<bool, AllocError>
        requires { asks_texts self.now ≡ true → IsSome graph }
        ensures { IfOk result (λ passed. passed ≡ passes_by self.now key.now
            (option_map (λ t. t.now) table.entry) mask (option_map (λ g. g.now) graph.entry)) }
    {
        if !self.takes(key, table, mask) {
            return Ok(false);
        }
        match graph {
            Some(graph) => self.texts_pass(alloc, graph),
            None => Ok(true),
        }
    }

    /// Whether the key is in the range and the tags pass.
    pub(crate) fn takes(&self, key: &Key, table: Option<&TagTable>, mask: u64) -> bool
        ensures { result ≡ (in_range self.now key.now && tags_pass self.now.tags
            (tags_by (option_map (λ t. t.now) table.entry) mask)) }
    {
        self.in_range(key) && self.tags.passes(table, mask)
    }

    /// Whether each word and each text stands in at least one string of the graph.
    fn texts_pass(&self, alloc: Global, graph: &Graph) -> Result<bool, AllocError>
        ensures { IfOk result (λ passed. passed ≡ text_passes self.now graph.now) }
    {
        if !self.needs_graph() {
            return Ok(true);
        }
        let strings = strings(alloc, graph.nodes())?;
        Ok(
            has_words(strings.list(), self.words.list(), self.entire)
                && has_parts(strings.list(), self.texts.list()),
        )
    }
}
