//! Folding and search with ample memory. The folded forms are those of Unicode's table.
use crate::calls::Call;
use crate::keys::literal;
use newt_fold::{has_text, has_word, units_to_text};
use newt_graph::Node;
use newt_test_tables::expect_rows;
use std::alloc::Global;
use std::test::*;

/// The text of the units of a string.
pub(crate) fn unit_text(alloc: Global, text: &str) -> Result<String, Fail> {
    match literal(alloc, text)?.nodes() {
        [Node::Str(units)] => Ok(units_to_text(alloc, units.list())?),
        _ => Err("a string".into()),
    }
}

/// Whether the text has a part, has a word that begins so, and has a word that is so.
pub(crate) fn found(alloc: Global, part: &str) -> Result<String, Fail> {
    let text = "the milkman, café 2nd";
    let begins = has_word(text, part, false);
    let is = has_word(text, part, true);
    Ok(format!(in alloc; "{} {begins} {is}", has_text(text, part))?)
}

/// Folded forms, which may be longer than the texts.
const FOLDED: &str = "
Straße => strasse
\u{130} => i\u{307}
\u{fb03} => ffi
ABC xyz => abc xyz
 => 
";

/// Lone surrogates are replaced.
const UNITS: &str = "
\"A\\uD83DB\\uDE00\" => A\u{fffd}B\u{fffd}
\"\\uD83D\\uDE00\" => \u{1f600}
\"\" => 
";

/// Parts and words.
const FOUND: &str = "
kma => true false false
 => true false false
kme => false false false
milk => true true false
man => true false false
milkman => true true true
caf => true true false
café => true true true
2 => true true false
 2nd => true false false
";

#[test]
fn texts_are_folded(rt: HostRuntime) -> Result<(), Fail> {
    expect_rows(rt.alloc(), &Call::Folded, FOLDED)
}

#[test]
fn lone_surrogates_are_replaced(rt: HostRuntime) -> Result<(), Fail> {
    expect_rows(rt.alloc(), &Call::Units, UNITS)
}

#[test]
fn words_and_texts_are_found(rt: HostRuntime) -> Result<(), Fail> {
    expect_rows(rt.alloc(), &Call::Found, FOUND)
}
