//! Symbols, precedents, and the classes and slot tags that are one or the other.
ghost use Rattle.newt_nsof_read.specs.Reading.{Gives, symbol_at, numbered_at, label_at, many_at};

use crate::fault::NsofFault;
use crate::met::Seen;
use crate::numbers::{count, name};
use crate::tag::{Tag, tag_of};
use std::alloc::Global;

/// A symbol, after its tag: its name, which stands for the first symbol that is spelled alike.
#[tactic(auto, unfolding(crate::specs::Reading::symbol_at))]
pub(crate) fn symbol<'a>(
    alloc: Global,
    seen: &mut Seen,
    bytes: &'a [u8],
) -> Result<(u32, &'a [u8]), NsofFault>
    ensures { Gives (λ x. (x.0, seen.new, x.1.now)) result (symbol_at seen.old bytes.now) }
{
    let (name, rest) = name(bytes)?;
    let k = seen.intern(alloc, name)?;
    seen.number(k)?;
    Ok((k, rest))
}

/// The node of a numbered object, after the tag of a precedent.
#[tactic(auto, unfolding(crate::specs::Reading::numbered_at))]
pub(crate) fn numbered<'a>(seen: &Seen, bytes: &'a [u8]) -> Result<(u32, &'a [u8]), NsofFault>
    ensures { Gives (λ x. (x.0, x.1.now)) result (numbered_at seen.now bytes.now) }
{
    let (place, rest) = count(bytes)?;
    match seen.numbered(place) {
        Some(k) => Ok((k, rest)),
        None => Err(NsofFault::Malformed),
    }
}

/// A class or a slot tag: a symbol, spelled or named by its number.
#[tactic(auto, unfolding(crate::specs::Reading::label_at))]
pub(crate) fn label<'a>(
    alloc: Global,
    seen: &mut Seen,
    bytes: &'a [u8],
) -> Result<(u32, &'a [u8]), NsofFault>
    ensures { Gives (λ x. (x.0, seen.new, x.1.now)) result (label_at seen.old bytes.now) }
{
    let [tag, rest @ ..] = bytes else {
        return Err(NsofFault::Malformed);
    };
    match tag_of(*tag) {
        Some(Tag::Symbol) => symbol(alloc, seen, rest),
        Some(Tag::Again) => {
            let (k, rest) = numbered(seen, rest)?;
            if !seen.is_symbol(k) {
                return Err(NsofFault::Malformed);
            }
            Ok((k, rest))
        }
        _ => Err(NsofFault::Malformed),
    }
}

/// The tags of a frame. Their memory is taken at once: each takes two bytes or more.
pub(crate) fn labels<'a>(
    alloc: Global,
    seen: &mut Seen,
    count: u32,
    bytes: &'a [u8],
) -> Result<(Vec<u32>, &'a [u8]), NsofFault>
    ensures { Gives (λ x. (x.0.items, seen.new, x.1.now)) result
        (many_at label_at count seen.old bytes.now) }
{
    let mut labels = Vec::with_capacity(alloc, (count as usize).min(bytes.len() / 2))?;
    let mut rest = bytes;
    for _ in 0..count {
        let (k, after) = label(alloc, seen, rest)?;
        labels.push(k)?;
        rest = after;
    }
    Ok((labels, rest))
}
