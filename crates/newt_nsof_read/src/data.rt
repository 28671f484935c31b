//! Strings, binaries and large binaries.
ghost use Rattle.std.specs.Prelude.{◌≡◌};
ghost use Rattle.newt_nsof_read.specs.Met.{Met};
ghost use Rattle.newt_nsof_read.specs.Reading.{Gives, many_at, unit_at, is_text_count, string_at};
ghost use Rattle.newt_nsof_read.specs.Reading.{binary_at, after_flag, large_data_at, large_at};

use crate::fault::NsofFault;
use crate::labels::label;
use crate::met::Seen;
use crate::numbers::{count, front, number};
use newt_graph::{Bytes, MOST_DATA, Node, Ref, Units};
use std::alloc::Global;

/// A unit of two bytes.
fn unit(bytes: &[u8]) -> Result<(u16, &[u8]), NsofFault>
    ensures { (met : Met) → Gives (λ x. (x.0, met, x.1.now)) result (unit_at met bytes.now) }
{
    match bytes {
        [high, low, rest @ ..] => Ok((u16::from_be_bytes([*high, *low]), rest)),
        _ => Err(NsofFault::Malformed),
    }
}

/// So many units. Their memory is taken at once, where there are as many.
fn units(alloc: Global, count: u32, bytes: &[u8]) -> Result<(Vec<u16>, &[u8]), NsofFault>
    ensures { (met : Met) → Gives (λ x. (x.0.items, met, x.1.now)) result
        (many_at unit_at count met bytes.now) }
{
    let mut units = Vec::with_capacity(alloc, (count as usize).min(bytes.len() / 2))?;
    let mut rest = bytes;
    for _ in 0..count {
        let (one, after) = unit(rest)?;
        units.push(one)?;
        rest = after;
    }
    Ok((units, rest))
}

fn is_text_count(count: u32) -> bool
    ensures { result ≡ is_text_count count }
{
    count % 2 == 0 && 2 <= count && count as usize <= MOST_DATA
}

/// A string, after its tag.
#[tactic(auto, unfolding(crate::specs::Reading::string_at))]
pub(crate) fn string<'a>(
    alloc: Global,
    seen: &mut Seen,
    bytes: &'a [u8],
) -> Result<(Ref, &'a [u8]), NsofFault>
    ensures { Gives (λ x. (x.0, seen.new, x.1.now)) result (string_at seen.old bytes.now) }
{
    let (count, rest) = count(bytes)?;
    if !is_text_count(count) {
        return Err(NsofFault::Malformed);
    }
    let (units, rest) = units(alloc, count / 2 - 1, rest)?;
    let (last, rest) = unit(rest)?;
    if last != 0 {
        return Err(NsofFault::Malformed);
    }
    let n = seen.add(Node::Str(Units::of(units)))?;
    Ok((Ref::Node(n), rest))
}

/// A binary, after its tag.
#[tactic(auto, unfolding(crate::specs::Reading::binary_at))]
pub(crate) fn binary<'a>(
    alloc: Global,
    seen: &mut Seen,
    bytes: &'a [u8],
) -> Result<(Ref, &'a [u8]), NsofFault>
    ensures { Gives (λ x. (x.0, seen.new, x.1.now)) result (binary_at seen.old bytes.now) }
{
    let (count, rest) = count(bytes)?;
    if count as usize > MOST_DATA {
        return Err(NsofFault::Malformed);
    }
    let n = seen.add(Node::Binary(0, Bytes::of(Vec::new(alloc))))?;
    let (class, rest) = label(alloc, seen, rest)?;
    let count = count as usize;
    if rest.len() < count {
        return Err(NsofFault::Malformed);
    }
    let (data, rest) = rest.split_at(count);
    seen.fill(
        n,
        Node::Binary(class, Bytes::of(Vec::from_slice(alloc, data)?)),
    );
    Ok((Ref::Node(n), rest))
}

/// The bytes after the flag of a large binary: any flag in the wide grammar, else 0 alone.
#[tactic(auto, unfolding(crate::specs::Reading::after_flag))]
fn after_flag(bytes: &[u8], wide: bool) -> Result<&[u8], NsofFault>
    ensures { Gives (λ x. x.now) result (after_flag wide bytes.now) }
{
    let [flag, rest @ ..] = bytes else {
        return Err(NsofFault::Malformed);
    };
    if wide || *flag == 0 {
        Ok(rest)
    } else {
        Err(NsofFault::Malformed)
    }
}

/// The bytes of a large binary, after its class. The name of the compander, its parameters and a
/// number are dropped.
#[tactic(auto, unfolding(crate::specs::Reading::large_data_at))]
fn large_data(bytes: &[u8], wide: bool) -> Result<(&[u8], &[u8]), NsofFault>
    ensures { Gives (λ x. (x.0.now, x.1.now)) result (large_data_at wide bytes.now) }
{
    let rest = after_flag(bytes, wide)?;
    let (len, rest) = number(rest)?;
    if len as usize > MOST_DATA {
        return Err(NsofFault::Malformed);
    }
    let (compander_len, rest) = number(rest)?;
    let (parameters_len, rest) = number(rest)?;
    let (_free, rest) = number(rest)?;
    let (_compander, rest) = front(compander_len, rest)?;
    let (_parameters, rest) = front(parameters_len, rest)?;
    front(len, rest)
}

/// A large binary, after its tag.
#[tactic(auto, unfolding(crate::specs::Reading::large_at))]
pub(crate) fn large<'a>(
    alloc: Global,
    seen: &mut Seen,
    bytes: &'a [u8],
    wide: bool,
) -> Result<(Ref, &'a [u8]), NsofFault>
    ensures { Gives (λ x. (x.0, seen.new, x.1.now)) result (large_at wide seen.old bytes.now) }
{
    let n = seen.add(Node::Large(0, Bytes::of(Vec::new(alloc))))?;
    let (class, rest) = label(alloc, seen, bytes)?;
    let (data, rest) = large_data(rest, wide)?;
    seen.fill(
        n,
        Node::Large(class, Bytes::of(Vec::from_slice(alloc, data)?)),
    );
    Ok((Ref::Node(n), rest))
}
