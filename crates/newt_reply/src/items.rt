//! Lists in replies: the mounted stores, the soups of a store, and the indexes of a soup.
ghost use Rattle.std.specs.Prelude.{◌≡◌, ◌∷◌, [], ◌++◌, IfOk, OnOk, codes, map, if◌then◌else◌};
ghost use Rattle.newt_spec_world.specs.Reply.{items, spaced};
ghost use Rattle.newt_reply.specs.Fields.{store_item, soup_item, spec_item};

use crate::declared::spec_text;
use crate::fields::{name_text, number_text};
use crate::rows::{SoupLine, StoreLine};
use newt_keys::IndexSpec;
use std::alloc::{AllocError, Global};

/// An item after a comma and a space, unless it is the first.
pub(crate) fn push_item(text: &mut Vec<u8>, first: bool, item: &[u8]) -> Result<(), AllocError>
    ensures { OnOk result (text.new.items ≡ (if first then text.old.items ++ item.now else
        text.old.items ++ codes ", " ++ item.now)) }
{
    if !first {
        text.extend_from_slice(b", ")?;
    }
    text.extend_from_slice(item)
}

/// Three words with a space between each two.
pub(crate) fn three_words(
    alloc: Global,
    first: &[u8],
    second: &[u8],
    third: &[u8],
) -> Result<Vec<u8>, AllocError>
    ensures { IfOk result (λ text. text.items ≡ spaced (first.now ∷ second.now ∷ third.now ∷ [])) }
{
    let mut text = Vec::from_slice(alloc, first)?;
    text.push(b' ')?;
    text.extend_from_slice(second)?;
    text.push(b' ')?;
    text.extend_from_slice(third)?;
    Ok(text)
}

/// A mounted store in a list.
#[tactic(auto, unfolding(crate::specs::Fields::store_item))]
fn store_text(alloc: Global, line: &StoreLine) -> Result<Vec<u8>, AllocError>
    ensures { IfOk result (λ text. text.items ≡ store_item line.now) }
{
    let unit = number_text(alloc, u32::from(line.unit.0))?;
    let sig = number_text(alloc, line.sig.0)?;
    let name = name_text(alloc, &line.name)?;
    three_words(alloc, &unit, &sig, &name)
}

/// A soup in a list.
#[tactic(auto, unfolding(crate::specs::Fields::soup_item))]
fn soup_text(alloc: Global, line: &SoupLine) -> Result<Vec<u8>, AllocError>
    ensures { IfOk result (λ text. text.items ≡ soup_item line.now) }
{
    let name = name_text(alloc, &line.name)?;
    let sig = number_text(alloc, line.sig.0)?;
    let count = number_text(alloc, line.count)?;
    three_words(alloc, &name, &sig, &count)
}

/// A mounted store after the ones before it.
fn push_store(
    alloc: Global,
    text: &mut Vec<u8>,
    first: bool,
    line: &StoreLine,
) -> Result<(), AllocError>
    ensures { OnOk result (text.new.items ≡ (if first then text.old.items ++ store_item line.now
        else text.old.items ++ codes ", " ++ store_item line.now)) }
{
    push_item(text, first, &store_text(alloc, line)?)
}

/// A soup after the ones before it.
fn push_soup(
    alloc: Global,
    text: &mut Vec<u8>,
    first: bool,
    line: &SoupLine,
) -> Result<(), AllocError>
    ensures { OnOk result (text.new.items ≡ (if first then text.old.items ++ soup_item line.now else
        text.old.items ++ codes ", " ++ soup_item line.now)) }
{
    push_item(text, first, &soup_text(alloc, line)?)
}

/// An index after the ones before it.
fn push_spec(
    alloc: Global,
    text: &mut Vec<u8>,
    first: bool,
    spec: &IndexSpec,
) -> Result<(), AllocError>
    ensures { OnOk result (text.new.items ≡ (if first then text.old.items ++ spec_item spec.now else
        text.old.items ++ codes ", " ++ spec_item spec.now)) }
{
    push_item(text, first, &spec_text(alloc, spec)?)
}

/// The mounted stores.
pub(crate) fn stores_text(alloc: Global, lines: &[StoreLine]) -> Result<Vec<u8>, AllocError>
    ensures { IfOk result (λ text. text.items ≡ items (map store_item lines.now)) }
{
    let mut text = Vec::new(alloc);
    for (index, line) in lines.iter().enumerate() {
        push_store(alloc, &mut text, index == 0, line)?;
    }
    Ok(text)
}

/// The soups of a store.
pub(crate) fn soups_text(alloc: Global, lines: &[SoupLine]) -> Result<Vec<u8>, AllocError>
    ensures { IfOk result (λ text. text.items ≡ items (map soup_item lines.now)) }
{
    let mut text = Vec::new(alloc);
    for (index, line) in lines.iter().enumerate() {
        push_soup(alloc, &mut text, index == 0, line)?;
    }
    Ok(text)
}

/// The indexes of a soup.
pub(crate) fn specs_text(alloc: Global, specs: &[IndexSpec]) -> Result<Vec<u8>, AllocError>
    ensures { IfOk result (λ text. text.items ≡ items (map spec_item specs.now)) }
{
    let mut text = Vec::new(alloc);
    for (index, spec) in specs.iter().enumerate() {
        push_spec(alloc, &mut text, index == 0, spec)?;
    }
    Ok(text)
}
