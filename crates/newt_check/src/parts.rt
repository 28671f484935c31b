//! The row of objects.
ghost use Rattle.std.specs.Prelude.{◌≡◌, ◌++◌, ◌∷◌, [], ℕ, List, Some, IfOk, OnOk};
ghost use Rattle.std.specs.Prelude.{if◌then◌else◌};
ghost use Rattle.newt_spec_check.specs.Damage.{least as least_of};
ghost use Rattle.newt_objects.specs.declared.header.Header.{Header as Said};
ghost use Rattle.newt_check.specs.Parts.{first_of, kept_first, has_parts, length_of};
ghost use Rattle.newt_check.specs.Parts.{is_own as is_own_page};
ghost use Rattle.newt_check.specs.Parts.{AreLengths, broken_in};

use newt_objects::{Header, pages_for};
use std::alloc::{AllocError, Global};
use std::collections::BTreeMap;

/// Keeps a page, where none is kept of its part.
fn keep_first(parts: &mut BTreeMap<(u32, u32), Header>, header: &Header) -> Result<(), AllocError>
    ensures { OnOk result ((headers : List Said)
        → ((o p : ℕ) → kept_first parts.old o p ≡ first_of headers o p)
        → (o p : ℕ) → kept_first parts.new o p ≡ first_of (headers ++ header.now ∷ []) o p) }
{
    let key = (header.object, header.part);
    if parts.contains_key(&key) {
        return Ok(());
    }
    parts.insert(key, *header)?;
    Ok(())
}

/// The first page of each part of an object.
fn index_first(
    alloc: Global,
    headers: &[Header],
) -> Result<BTreeMap<(u32, u32), Header>, AllocError>
    ensures { IfOk result (λ parts. (o p : ℕ) → kept_first parts o p ≡ first_of headers.now o p) }
{
    let mut parts = BTreeMap::new(alloc);
    for header in headers {
        keep_first(&mut parts, header)?;
    }
    Ok(parts)
}

/// Whether an object has a page for each of its first so many parts.
fn has_all(parts: &BTreeMap<(u32, u32), Header>, object: u32, count: u32) -> bool
    ensures { result ≡ has_parts (kept_first parts.now) object count }
{
    for part in 0..count {
        if !parts.contains_key(&(object, part)) {
            return false;
        }
    }
    true
}

/// How long an object is, or none where it lacks a part. Each part is looked for once.
fn length_by(parts: &BTreeMap<(u32, u32), Header>, object: u32) -> Option<u32>
    ensures { result ≡ length_of (kept_first parts.now) object }
{
    match parts.get(&(object, 0)) {
        Some(first) if has_all(parts, object, pages_for(first.length)) => Some(first.length),
        _ => None,
    }
}

/// How long an object is, as it is kept; it is looked for where it is not.
fn known_length(
    parts: &BTreeMap<(u32, u32), Header>,
    lengths: &mut BTreeMap<u32, Option<u32>>,
    object: u32,
) -> Result<Option<u32>, AllocError>
    requires { AreLengths (kept_first parts.now) lengths.old }
    ensures length { IfOk result (λ length. length ≡ length_of (kept_first parts.now) object) }
    ensures kept { OnOk result (AreLengths (kept_first parts.now) lengths.new) }
{
    if let Some(length) = lengths.get(&object) {
        return Ok(*length);
    }
    let length = length_by(parts, object);
    lengths.insert(object, length)?;
    Ok(length)
}

/// Whether a page is the one of its part of an object of this length.
fn is_page(parts: &BTreeMap<(u32, u32), Header>, length: Option<u32>, header: &Header) -> bool
    ensures { result ≡ is_own_page (kept_first parts.now) length header.now }
{
    let Some(length) = length else {
        return false;
    };
    let is_first = match parts.get(&(header.object, header.part)) {
        Some(first) => first.number == header.number,
        None => false,
    };
    header.length == length && header.part < pages_for(length) && is_first
}

/// The least of some ids, with one more where a page is not the one of its part.
fn with_broken(least: Option<u32>, is_own: bool, id: u32) -> Option<u32>
    ensures { (ids : List ℕ) → least ≡ least_of ids
        → result ≡ least_of (ids ++ (if is_own then [] else id ∷ [])) }
{
    if is_own {
        return least;
    }
    match least {
        Some(other) => Some(other.min(id)),
        None => Some(id),
    }
}

/// The least id of an object that is not whole: a part is missing, doubled, too high, or says
/// another length.
pub(crate) fn broken_object(alloc: Global, headers: &[Header]) -> Result<Option<u32>, AllocError>
    ensures { IfOk result (λ found. found ≡ broken_in headers.now) }
{
    let parts = index_first(alloc, headers)?;
    let mut lengths = BTreeMap::new(alloc);
    let mut least = None;
    for header in headers {
        let length = known_length(&parts, &mut lengths, header.object)?;
        let is_own = is_page(&parts, length, header);
        least = with_broken(least, is_own, header.object);
    }
    Ok(least)
}
