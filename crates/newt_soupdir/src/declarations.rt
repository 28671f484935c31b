//! Declarations of indexes and tags, and info frames, read from the front of bytes. A count is a
//! byte before what it counts. Paths, symbols and counts are tested as they are met.
ghost use Rattle.newt_spec_store.specs.Reading.{times};
ghost use Rattle.newt_soupdir.specs.Reading.{Gives, symbol_at, path_at, kind_at, order_at, part_at};
ghost use Rattle.newt_soupdir.specs.Reading.{spec_at, specs_at, tag_symbols_at, table_at, extra_at};

use crate::fault::DirFault;
use crate::fields::{byte, text};
use crate::form::{MOST_PARTS, MOST_TAGS};
use crate::indexes::Specs;
use crate::infos::info;
use newt_base::is_identifier;
use newt_graph::{Bytes, Graph};
use newt_keys::{IndexPart, IndexSpec, Kind, Order};
use newt_path::Path;
use newt_tags::{TagTable, are_names_apart};
use std::alloc::Global;

/// What a soup has beside its indexes: its tags declaration, and its info frame.
pub(crate) type Extra = (Option<TagTable>, Option<Graph>);

/// The most names of a path.
const MOST_NAMES: usize = 8;

/// A text that is an identifier.
#[tactic(auto, unfolding(crate::specs::Reading::symbol_at))]
fn symbol(alloc: Global, bytes: &[u8]) -> Result<(Bytes, &[u8]), DirFault>
    ensures { Gives (λ x. (x.0, x.1.now)) result (symbol_at bytes.now) }
{
    let (text, rest) = text(bytes)?;
    if !is_identifier(text) {
        return Err(DirFault::Bad);
    }
    Ok((Bytes::of(Vec::from_slice(alloc, text)?), rest))
}

/// So many symbols.
fn symbols(alloc: Global, count: u8, bytes: &[u8]) -> Result<(Vec<Bytes>, &[u8]), DirFault>
    ensures { Gives (λ x. (x.0.items, x.1.now)) result (times count symbol_at bytes.now) }
{
    let mut symbols = Vec::new(alloc);
    let mut rest = bytes;
    for _ in 0..count {
        let (one, after) = symbol(alloc, rest)?;
        symbols.push(one)?;
        rest = after;
    }
    Ok((symbols, rest))
}

/// A path: a count of 1 to 8, and as many symbols.
#[tactic(auto, unfolding(crate::specs::Reading::path_at))]
fn path(alloc: Global, bytes: &[u8]) -> Result<(Path, &[u8]), DirFault>
    ensures { Gives (λ x. (x.0, x.1.now)) result (path_at bytes.now) }
{
    let (count, rest) = byte(bytes)?;
    let (names, rest) = symbols(alloc, count, rest)?;
    if names.is_empty() || names.len() > MOST_NAMES {
        return Err(DirFault::Bad);
    }
    Ok((Path::of(names), rest))
}

/// A type, by its byte.
#[tactic(auto, unfolding(crate::specs::Reading::kind_at))]
fn kind(bytes: &[u8]) -> Result<(Kind, &[u8]), DirFault>
    ensures { Gives (λ x. (x.0, x.1.now)) result (kind_at bytes.now) }
{
    let (kind, rest) = byte(bytes)?;
    match kind {
        0 => Ok((Kind::Text, rest)),
        1 => Ok((Kind::Int, rest)),
        2 => Ok((Kind::Char, rest)),
        3 => Ok((Kind::Symbol, rest)),
        _ => Err(DirFault::Bad),
    }
}

/// A direction, by its byte.
#[tactic(auto, unfolding(crate::specs::Reading::order_at))]
fn order(bytes: &[u8]) -> Result<(Order, &[u8]), DirFault>
    ensures { Gives (λ x. (x.0, x.1.now)) result (order_at bytes.now) }
{
    let (order, rest) = byte(bytes)?;
    match order {
        0 => Ok((Order::Ascend, rest)),
        1 => Ok((Order::Descend, rest)),
        _ => Err(DirFault::Bad),
    }
}

/// A part of an index: its type, its direction and its path.
#[tactic(auto, unfolding(crate::specs::Reading::part_at))]
fn part(alloc: Global, bytes: &[u8]) -> Result<(IndexPart, &[u8]), DirFault>
    ensures { Gives (λ x. (x.0, x.1.now)) result (part_at bytes.now) }
{
    let (kind, rest) = kind(bytes)?;
    let (order, rest) = order(rest)?;
    let (path, rest) = path(alloc, rest)?;
    Ok((IndexPart { path, kind, order }, rest))
}

/// So many parts.
fn parts(alloc: Global, count: u8, bytes: &[u8]) -> Result<(Vec<IndexPart>, &[u8]), DirFault>
    ensures { Gives (λ x. (x.0.items, x.1.now)) result (times count part_at bytes.now) }
{
    let mut parts = Vec::new(alloc);
    let mut rest = bytes;
    for _ in 0..count {
        let (one, after) = part(alloc, rest)?;
        parts.push(one)?;
        rest = after;
    }
    Ok((parts, rest))
}

/// An index: a count of 1 to 4, and as many parts.
#[tactic(auto, unfolding(crate::specs::Reading::spec_at))]
fn spec(alloc: Global, bytes: &[u8]) -> Result<(IndexSpec, &[u8]), DirFault>
    ensures { Gives (λ x. (x.0, x.1.now)) result (spec_at bytes.now) }
{
    let (count, rest) = byte(bytes)?;
    let (parts, rest) = parts(alloc, count, rest)?;
    if parts.is_empty() || parts.len() > MOST_PARTS {
        return Err(DirFault::Bad);
    }
    Ok((IndexSpec::new(parts), rest))
}

/// So many indexes.
fn some_specs(alloc: Global, count: u8, bytes: &[u8]) -> Result<(Vec<IndexSpec>, &[u8]), DirFault>
    ensures { Gives (λ x. (x.0.items, x.1.now)) result (times count spec_at bytes.now) }
{
    let mut specs = Vec::new(alloc);
    let mut rest = bytes;
    for _ in 0..count {
        let (one, after) = spec(alloc, rest)?;
        specs.push(one)?;
        rest = after;
    }
    Ok((specs, rest))
}

/// The indexes of a soup, after their count. It is tested with the whole directory that they are at
/// most 16, with paths of their own.
#[tactic(auto, unfolding(crate::specs::Reading::specs_at))]
pub(crate) fn specs(alloc: Global, bytes: &[u8]) -> Result<(Specs, &[u8]), DirFault>
    ensures { Gives (λ x. (x.0, x.1.now)) result (specs_at bytes.now) }
{
    let (count, rest) = byte(bytes)?;
    let (specs, rest) = some_specs(alloc, count, rest)?;
    Ok((Specs::of(specs), rest))
}

/// The symbols of a tags declaration, after their count: at most 64, no two of which are alike but
/// for ASCII case.
#[tactic(auto, unfolding(crate::specs::Reading::tag_symbols_at))]
fn tag_symbols(alloc: Global, bytes: &[u8]) -> Result<(Vec<Bytes>, &[u8]), DirFault>
    ensures { Gives (λ x. (x.0.items, x.1.now)) result (tag_symbols_at bytes.now) }
{
    let (count, rest) = byte(bytes)?;
    let (symbols, rest) = symbols(alloc, count, rest)?;
    if symbols.len() > MOST_TAGS || !are_names_apart(&symbols) {
        return Err(DirFault::Bad);
    }
    Ok((symbols, rest))
}

/// A tags declaration: its path and its symbols.
#[tactic(auto, unfolding(crate::specs::Reading::table_at))]
fn table(alloc: Global, bytes: &[u8]) -> Result<(TagTable, &[u8]), DirFault>
    ensures { Gives (λ x. (x.0, x.1.now)) result (table_at bytes.now) }
{
    let (path, rest) = path(alloc, bytes)?;
    let (symbols, rest) = tag_symbols(alloc, rest)?;
    Ok((TagTable::new(path, symbols), rest))
}

/// A soup's tags declaration and info frame, where it has them. The byte before them is odd where
/// there is a declaration, and 2 or 3 where there is an info frame.
#[tactic(auto, unfolding(crate::specs::Reading::extra_at))]
pub(crate) fn extra(alloc: Global, bytes: &[u8]) -> Result<(Extra, &[u8]), DirFault>
    ensures { Gives (λ x. (x.0, x.1.now)) result (extra_at bytes.now) }
{
    let (flags, rest) = byte(bytes)?;
    match flags {
        0 => Ok(((None, None), rest)),
        1 => {
            let (table, rest) = table(alloc, rest)?;
            Ok(((Some(table), None), rest))
        }
        2 => {
            let (info, rest) = info(alloc, rest)?;
            Ok(((None, Some(info)), rest))
        }
        3 => {
            let (table, rest) = table(alloc, rest)?;
            let (info, rest) = info(alloc, rest)?;
            Ok(((Some(table), Some(info)), rest))
        }
        _ => Err(DirFault::Bad),
    }
}
