//! Small rectangles: frames of four sides whose symbols take no numbers.
ghost use Rattle.std.specs.Prelude.{◌≡◌};
ghost use Rattle.newt_graph.specs.Graph.{integer};
ghost use Rattle.newt_spec_nsof.specs.Text.{sides};
ghost use Rattle.newt_nsof_read.specs.Reading.{Gives, intern_each, rectangle_at};

use crate::fault::NsofFault;
use crate::met::Seen;
use newt_graph::{Node, Ref, Refs, Tags};
use std::alloc::Global;

/// The tags of a small rectangle.
#[tactic(auto, unfolding(crate::specs::Reading::intern_each))]
fn sides(alloc: Global, seen: &mut Seen) -> Result<Vec<u32>, NsofFault>
    ensures { Gives (λ v. (v.items, seen.new)) result (intern_each seen.old sides) }
{
    let top = seen.intern(alloc, b"top")?;
    let left = seen.intern(alloc, b"left")?;
    let bottom = seen.intern(alloc, b"bottom")?;
    let right = seen.intern(alloc, b"right")?;
    Ok(Vec::from_slice(alloc, &[top, left, bottom, right])?)
}

/// An integer as a value.
fn integer(byte: u8) -> Ref
    ensures { result ≡ integer byte }
{
    Ref::Imm(4 * i32::from(byte))
}

/// A small rectangle, after its tag.
#[tactic(auto, unfolding(crate::specs::Reading::rectangle_at))]
pub(crate) fn rectangle<'a>(
    alloc: Global,
    seen: &mut Seen,
    bytes: &'a [u8],
) -> Result<(Ref, &'a [u8]), NsofFault>
    ensures { Gives (λ x. (x.0, seen.new, x.1.now)) result (rectangle_at seen.old bytes.now) }
{
    let [top, left, bottom, right, rest @ ..] = bytes else {
        return Err(NsofFault::Malformed);
    };
    let n = seen.add(Node::Frame(Tags::of(Vec::new(alloc)), Refs::of(Vec::new(alloc))))?;
    let tags = sides(alloc, seen)?;
    let corners = Vec::from_slice(
        alloc,
        &[
            integer(*top),
            integer(*left),
            integer(*bottom),
            integer(*right),
        ],
    )?;
    seen.fill(n, Node::Frame(Tags::of(tags), Refs::of(corners)));
    Ok((Ref::Node(n), rest))
}
