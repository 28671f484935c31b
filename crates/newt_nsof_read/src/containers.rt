//! Containers up to their values: the count of slots, and the class or the tags.
ghost use Rattle.std.specs.Prelude.{◌≡◌, true, IfOk};
ghost use Rattle.std.specs.List.Sorted.{IsStrictlyIncreasing};
ghost use Rattle.newt_graph.specs.Graph.{all_distinct};
ghost use Rattle.newt_nsof_read.specs.Reading.{Gives};
ghost use Rattle.newt_nsof_read.specs.Stack.{frame_front, plain_array_front, array_front};

use crate::fault::NsofFault;
use crate::labels::{label, labels};
use crate::met::Seen;
use crate::numbers::count;
use crate::open::{Front, Kind, Open};
use newt_graph::{MOST_SLOTS, Node, Refs, Tags, are_distinct};
use std::alloc::{AllocError, Global};

/// Whether each tag is above the one before it, as those of new symbols are.
fn rise(tags: &[u32]) -> bool
    ensures { result ≡ true → IsStrictlyIncreasing tags.now }
{
    tags.is_sorted_by(|before, tag| *before < *tag)
}

/// Whether no two tags are the same. It takes memory only where they do not rise.
fn differ(alloc: Global, tags: &[u32]) -> Result<bool, AllocError>
    ensures { IfOk result (λ yes. yes ≡ all_distinct tags.now) }
{
    if rise(tags) {
        return Ok(true);
    }
    are_distinct(alloc, tags)
}

/// A frame up to its values, after its tag. No two of its slot tags are the same.
#[tactic(auto, unfolding(crate::specs::Stack::frame_front))]
pub(crate) fn frame<'a>(
    alloc: Global,
    seen: &mut Seen,
    bytes: &'a [u8],
) -> Result<(Front, &'a [u8]), NsofFault>
    ensures { Gives (λ x. (x.0, seen.new, x.1.now)) result (frame_front seen.old bytes.now) }
{
    let (count, rest) = count(bytes)?;
    if count as usize > MOST_SLOTS {
        return Err(NsofFault::Malformed);
    }
    let n = seen.add(Node::Frame(Tags::of(Vec::new(alloc)), Refs::of(Vec::new(alloc))))?;
    let (tags, rest) = labels(alloc, seen, count, rest)?;
    if !differ(alloc, &tags)? {
        return Err(NsofFault::Malformed);
    }
    let open = Open::new(alloc, n, Kind::Frame(Tags::of(tags)), count);
    Ok((Front::Open(open), rest))
}

/// An array without a class up to its values, after its tag.
#[tactic(auto, unfolding(crate::specs::Stack::plain_array_front))]
pub(crate) fn plain_array<'a>(
    alloc: Global,
    seen: &mut Seen,
    bytes: &'a [u8],
) -> Result<(Front, &'a [u8]), NsofFault>
    ensures { Gives (λ x. (x.0, seen.new, x.1.now)) result (plain_array_front seen.old bytes.now) }
{
    let (count, rest) = count(bytes)?;
    if count as usize > MOST_SLOTS {
        return Err(NsofFault::Malformed);
    }
    let n = seen.add(Node::Array(None, Refs::of(Vec::new(alloc))))?;
    let open = Open::new(alloc, n, Kind::Array(None), count);
    Ok((Front::Open(open), rest))
}

/// An array with a class up to its values, after its tag.
#[tactic(auto, unfolding(crate::specs::Stack::array_front))]
pub(crate) fn array<'a>(
    alloc: Global,
    seen: &mut Seen,
    bytes: &'a [u8],
) -> Result<(Front, &'a [u8]), NsofFault>
    ensures { Gives (λ x. (x.0, seen.new, x.1.now)) result (array_front seen.old bytes.now) }
{
    let (count, rest) = count(bytes)?;
    if count as usize > MOST_SLOTS {
        return Err(NsofFault::Malformed);
    }
    let n = seen.add(Node::Array(None, Refs::of(Vec::new(alloc))))?;
    let (class, rest) = label(alloc, seen, rest)?;
    let open = Open::new(alloc, n, Kind::Array(Some(class)), count);
    Ok((Front::Open(open), rest))
}
