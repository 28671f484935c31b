//! Notes in a reply.
ghost use Rattle.std.specs.Prelude.{◌≡◌, ◌∷◌, [], ◌++◌, IfOk, OnOk, codes, map, if◌then◌else◌};
ghost use Rattle.newt_spec_world.specs.Reply.{items, spaced, note_word};
ghost use Rattle.newt_reply.specs.Fields.{note_item};

use crate::fields::number_text;
use crate::items::{push_item, three_words};
use newt_notify::{Kind, Note};
use std::alloc::{AllocError, Global};

/// The word of a kind of notes.
fn word_of(kind: Kind) -> &'static str
    ensures { result.now ≡ note_word kind }
{
    match kind {
        Kind::Make => "make",
        Kind::Gone => "drop",
        Kind::Add => "add",
        Kind::Change => "change",
        Kind::Remove => "remove",
    }
}

/// Three words and a fourth, with a space between each two.
fn four_words(
    alloc: Global,
    first: &[u8],
    second: &[u8],
    third: &[u8],
    fourth: &[u8],
) -> Result<Vec<u8>, AllocError>
    ensures { IfOk result (λ text. text.items
        ≡ spaced (first.now ∷ second.now ∷ third.now ∷ fourth.now ∷ [])) }
{
    let mut text = Vec::from_slice(alloc, first)?;
    text.push(b' ')?;
    text.extend_from_slice(second)?;
    text.push(b' ')?;
    text.extend_from_slice(third)?;
    text.push(b' ')?;
    text.extend_from_slice(fourth)?;
    Ok(text)
}

/// A note in a list.
#[tactic(auto, unfolding(crate::specs::Fields::note_item))]
fn note_text(alloc: Global, note: &Note) -> Result<Vec<u8>, AllocError>
    ensures { IfOk result (λ text. text.items ≡ note_item note.now) }
{
    let word = word_of(note.kind).as_bytes();
    let unit = number_text(alloc, u32::from(note.unit.0))?;
    let soup = number_text(alloc, note.soup.0)?;
    match note.kind {
        Kind::Make | Kind::Gone => three_words(alloc, word, &unit, &soup),
        Kind::Add | Kind::Change | Kind::Remove => {
            four_words(alloc, word, &unit, &soup, &number_text(alloc, note.uid.0)?)
        }
    }
}

/// A note after the ones before it.
fn push_note(alloc: Global, text: &mut Vec<u8>, first: bool, note: &Note) -> Result<(), AllocError>
    ensures { OnOk result (text.new.items ≡ (if first then text.old.items ++ note_item note.now else
        text.old.items ++ codes ", " ++ note_item note.now)) }
{
    push_item(text, first, &note_text(alloc, note)?)
}

/// The notes.
pub(crate) fn notes_text(alloc: Global, notes: &[Note]) -> Result<Vec<u8>, AllocError>
    ensures { IfOk result (λ text. text.items ≡ items (map note_item notes.now)) }
{
    let mut text = Vec::new(alloc);
    for (index, note) in notes.iter().enumerate() {
        push_note(alloc, &mut text, index == 0, note)?;
    }
    Ok(text)
}
