//! Folded texts: those that a query gives, and the strings of a graph.
ghost use Rattle.std.specs.Prelude.{◌≡◌, [], ◌∷◌, ◌++◌, IfOk, map, chars, option_map};
ghost use Rattle.std.specs.List.{list_all, list_any};
ghost use Rattle.newt_spec_graph.specs.Graph.{every};
ghost use Rattle.newt_spec_store.specs.Keys.{folded};
ghost use Rattle.newt_spec_query.specs.Spec.{one_or_more, string_units};
ghost use Rattle.newt_base.specs.Words as spec;
ghost use Rattle.newt_query.specs.Filter.{strings_in};

use newt_fold::{folded, has_text, has_word, units_to_text};
use newt_graph::{Node, Ref};
use newt_tags::array_values;
use std::alloc::{AllocError, Global};
use std::marker::Model;

/// A text with its case folded. Contracts see its characters.
#[derive(Drop)]
pub(crate) struct Text {
    text: String,
}

impl Model for Text {
    ghost use Rattle.std.specs.Prelude.{List, ℕ, chars, string_bytes};

    ghost Value = { List ℕ };

    ghost view = { λ t. chars (string_bytes t.text) };
}

impl Text {
    /// The text of 16-bit units.
    pub(crate) fn of(alloc: Global, units: &[u16]) -> Result<Text, AllocError>
        ensures { IfOk result (λ text. text ≡ folded units.now) }
    {
        let text = units_to_text(alloc, units)?;
        let text = folded(alloc, text.as_str())?;
        Ok(Text { text })
    }

    fn as_str(&self) -> &str
        ensures { chars result.now ≡ self.now }
    {
        self.text.as_str()
    }
}

/// Folded texts.
#[derive(Drop)]
pub(crate) struct Texts {
    items: Vec<Text>,
}

impl Model for Texts {
    ghost use Rattle.std.specs.Prelude.{List, ℕ};

    ghost Value = { List (List ℕ) };

    ghost view = { λ texts. texts.items.items };
}

impl Texts {
    /// No texts. It takes no memory.
    pub(crate) fn empty(alloc: Global) -> Texts
        ensures { result ≡ [] }
    {
        Texts {
            items: Vec::new(alloc),
        }
    }

    /// The texts, in order.
    pub(crate) fn list(&self) -> &[Text]
        ensures { result.now ≡ self.now }
    {
        self.items.as_slice()
    }
}

/// The text of a value that is a string and not empty, or the texts of an array of such strings.
/// None exactly where the value is neither.
#[tactic(auto, using(crate::proofs::Given::one_first, crate::proofs::Given::none_first))]
pub(crate) fn texts_of(
    alloc: Global,
    nodes: &[Node],
    value: Ref,
) -> Result<Option<Texts>, AllocError>
    ensures { IfOk result (λ texts. texts ≡ option_map (map folded)
        (one_or_more nodes.now (string_units nodes.now) value)) }
{
    if let Some(text) = text_of(alloc, nodes, value)? {
        return Ok(Some(Texts {
            items: vec![in alloc; text]?,
        }));
    }
    match array_values(nodes, value) {
        Some(values) => every_text(alloc, nodes, values),
        None => Ok(None),
    }
}

/// The text of a value that is a string and not empty.
fn text_of(alloc: Global, nodes: &[Node], value: Ref) -> Result<Option<Text>, AllocError>
    ensures { IfOk result (λ text. text ≡ option_map folded (string_units nodes.now value)) }
{
    match units_of(nodes, value) {
        Some(units) => Ok(Some(Text::of(alloc, units)?)),
        None => Ok(None),
    }
}

/// The units of a value that is a string and not empty.
fn units_of(nodes: &[Node], value: Ref) -> Option<&[u16]>
    ensures { option_map (λ units. units.now) result ≡ string_units nodes.now value }
{
    let Ref::Node(n) = value else {
        return None;
    };
    let Some(Node::Str(units)) = nodes.get(n as usize) else {
        return None;
    };
    let units = units.list();
    if units.is_empty() {
        return None;
    }
    Some(units)
}

/// The texts of values that all are strings and not empty.
fn every_text(alloc: Global, nodes: &[Node], values: &[Ref]) -> Result<Option<Texts>, AllocError>
    ensures { IfOk result (λ texts. texts ≡ every (map (λ value. option_map folded
        (string_units nodes.now value)) values.now)) }
{
    let mut items = Vec::new(alloc);
    for value in values {
        let Some(text) = text_of(alloc, nodes, *value)? else {
            return Ok(None);
        };
        items.push(text)?;
    }
    Ok(Some(Texts { items }))
}

/// Every string among the nodes.
pub(crate) fn strings(alloc: Global, nodes: &[Node]) -> Result<Texts, AllocError>
    ensures { IfOk result (λ texts. texts ≡ strings_in nodes.now) }
{
    let mut items = Vec::new(alloc);
    for node in nodes {
        push_string(&mut items, alloc, node)?;
    }
    Ok(Texts { items })
}

fn push_string(items: &mut Vec<Text>, alloc: Global, node: &Node) -> Result<(), AllocError>
    ensures { IfOk result (λ _. items.new.items ≡ items.old.items ++ strings_in (node.now ∷ [])) }
{
    match node {
        Node::Str(units) => {
            items.push(Text::of(alloc, units.list())?)?;
            Ok(())
        }
        _ => Ok(()),
    }
}

/// Whether each word begins a word of at least one of the strings or, if `entire`, is one.
pub(crate) fn has_words(strings: &[Text], words: &[Text], entire: bool) -> bool
    ensures { result ≡ list_all (λ word. list_any (λ text. spec.has_word text word entire)
        strings.now) words.now }
{
    words.iter().all(|word| any_has_word(strings, word, entire))
}

fn any_has_word(strings: &[Text], word: &Text, entire: bool) -> bool
    ensures { result ≡ list_any (λ text. spec.has_word text word.now entire) strings.now }
{
    strings
        .iter()
        .any(|text| has_word(text.as_str(), word.as_str(), entire))
}

/// Whether each part stands in at least one of the strings.
pub(crate) fn has_parts(strings: &[Text], parts: &[Text]) -> bool
    ensures { result ≡ list_all (λ part. list_any (λ text. spec.has_text text part) strings.now)
        parts.now }
{
    parts.iter().all(|part| any_has_part(strings, part))
}

fn any_has_part(strings: &[Text], part: &Text) -> bool
    ensures { result ≡ list_any (λ text. spec.has_text text part.now) strings.now }
{
    strings
        .iter()
        .any(|text| has_text(text.as_str(), part.as_str()))
}
