//! Objects without values: strings, binaries and large binaries. And symbols.
ghost use Rattle.std.specs.Prelude.{◌<◌, ◌≤◌, length, IfOk, OnOk};
ghost use Rattle.newt_lit_read.specs.Answers.{Gives};
ghost use Rattle.newt_lit_read.specs.Tokens.{zeros_at, large_bytes_at};
ghost use Rattle.newt_lit_read.specs.Reading.{symbol_at, string_at, classed_at, binary_at};
ghost use Rattle.newt_lit_read.specs.Reading.{large_at, angle_at};

use crate::building::Building;
use crate::fault::LitFault;
use crate::names::name;
use crate::pieces::{bytes, units};
use crate::tokens::after;
use crate::words::{is_count, number, word};
use newt_graph::{Bytes, MOST_DATA, Node, Ref, Units};
use std::alloc::Global;

/// A symbol, after its quote.
#[tactic(auto, unfolding(crate::specs::Reading::symbol_at))]
pub(crate) fn symbol<'a>(
    alloc: Global,
    building: &mut Building,
    text: &'a [char],
) -> Result<(Ref, &'a [char]), LitFault>
    ensures gives { Gives (λ x. (x.0, building.new, x.1.now)) result
        (symbol_at building.old text.now) }
    ensures shorter { IfOk result (λ x. length x.1.now ≤ length text.now) }
    ensures grows { OnOk result (length building.old.nodes ≤ length building.new.nodes) }
{
    let (name, rest) = name(alloc, text)?;
    let k = building.symbol(&name)?;
    Ok((Ref::Node(k), rest))
}

/// A string, after its opening quote.
#[tactic(auto, unfolding(crate::specs::Reading::string_at))]
pub(crate) fn string<'a>(
    alloc: Global,
    building: &mut Building,
    text: &'a [char],
) -> Result<(Ref, &'a [char]), LitFault>
    ensures gives { Gives (λ x. (x.0, building.new, x.1.now)) result
        (string_at building.old text.now) }
    ensures shorter { IfOk result (λ x. length x.1.now < length text.now) }
    ensures grows { OnOk result (length building.old.nodes ≤ length building.new.nodes) }
{
    let n = building.hold()?;
    let (units, rest) = units(alloc, text)?;
    building.fill(n, Node::Str(Units::of(units)))?;
    Ok((Ref::Node(n), rest))
}

/// A new node and its class, with the colon.
#[tactic(auto, unfolding(crate::specs::Reading::classed_at))]
fn classed<'a>(
    alloc: Global,
    building: &mut Building,
    text: &'a [char],
) -> Result<((u32, u32), &'a [char]), LitFault>
    ensures gives { Gives (λ x. (x.0, building.new, x.1.now)) result
        (classed_at building.old text.now) }
    ensures inside { IfOk result (λ x. x.0.0 < length building.new.nodes) }
    ensures shorter { IfOk result (λ x. length x.1.now < length text.now) }
    ensures grows { OnOk result (length building.old.nodes ≤ length building.new.nodes) }
{
    let n = building.hold()?;
    let (name, rest) = name(alloc, text)?;
    let rest = after(':', rest)?;
    let k = building.symbol(&name)?;
    Ok(((n, k), rest))
}

/// A binary, after its angle bracket.
#[tactic(auto, unfolding(crate::specs::Reading::binary_at))]
fn binary<'a>(
    alloc: Global,
    building: &mut Building,
    text: &'a [char],
) -> Result<(Ref, &'a [char]), LitFault>
    ensures gives { Gives (λ x. (x.0, building.new, x.1.now)) result
        (binary_at building.old text.now) }
    ensures shorter { IfOk result (λ x. length x.1.now < length text.now) }
    ensures grows { OnOk result (length building.old.nodes ≤ length building.new.nodes) }
{
    let ((n, class), rest) = classed(alloc, building, text)?;
    let (bytes, rest) = bytes(alloc, rest)?;
    building.fill(n, Node::Binary(class, Bytes::of(bytes)))?;
    Ok((Ref::Node(n), rest))
}

/// Zero bytes, after the `*` before their count.
#[tactic(auto, unfolding(crate::specs::Tokens::zeros_at))]
fn zeros(alloc: Global, text: &[char]) -> Result<(Vec<u8>, &[char]), LitFault>
    ensures gives { Gives (λ x. (x.0.items, x.1.now)) result (zeros_at text.now) }
    ensures shorter { IfOk result (λ x. length x.1.now < length text.now) }
{
    let (word, rest) = word(text);
    if !is_count(word) {
        return Err(LitFault::Literal);
    }
    let count = number(word);
    if count as usize > MOST_DATA {
        return Err(LitFault::Literal);
    }
    let rest = after('>', rest)?;
    Ok((vec![in alloc; 0; count as usize]?, rest))
}

/// The bytes of a large binary, up to the first closing angle bracket.
#[tactic(auto, unfolding(crate::specs::Tokens::large_bytes_at))]
fn large_bytes(alloc: Global, text: &[char]) -> Result<(Vec<u8>, &[char]), LitFault>
    ensures gives { Gives (λ x. (x.0.items, x.1.now)) result (large_bytes_at text.now) }
    ensures shorter { IfOk result (λ x. length x.1.now < length text.now) }
{
    match text {
        ['*', rest @ ..] => zeros(alloc, rest),
        [_, ..] => bytes(alloc, text),
        [] => Err(LitFault::Literal),
    }
}

/// A large binary, after its two angle brackets.
#[tactic(auto, unfolding(crate::specs::Reading::large_at))]
fn large<'a>(
    alloc: Global,
    building: &mut Building,
    text: &'a [char],
) -> Result<(Ref, &'a [char]), LitFault>
    ensures gives { Gives (λ x. (x.0, building.new, x.1.now)) result
        (large_at building.old text.now) }
    ensures shorter { IfOk result (λ x. length x.1.now < length text.now) }
    ensures grows { OnOk result (length building.old.nodes ≤ length building.new.nodes) }
{
    let ((n, class), rest) = classed(alloc, building, text)?;
    let (bytes, rest) = large_bytes(alloc, rest)?;
    let rest = after('>', rest)?;
    building.fill(n, Node::Large(class, Bytes::of(bytes)))?;
    Ok((Ref::Node(n), rest))
}

/// A binary or a large binary, after the first angle bracket.
#[tactic(auto, unfolding(crate::specs::Reading::angle_at))]
pub(crate) fn angle<'a>(
    alloc: Global,
    building: &mut Building,
    text: &'a [char],
) -> Result<(Ref, &'a [char]), LitFault>
    ensures gives { Gives (λ x. (x.0, building.new, x.1.now)) result
        (angle_at building.old text.now) }
    ensures shorter { IfOk result (λ x. length x.1.now < length text.now) }
    ensures grows { OnOk result (length building.old.nodes ≤ length building.new.nodes) }
{
    match text {
        ['<', rest @ ..] => large(alloc, building, rest),
        [_, ..] => binary(alloc, building, text),
        [] => Err(LitFault::Literal),
    }
}
