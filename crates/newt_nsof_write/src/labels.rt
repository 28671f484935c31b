//! Symbols and precedents, and the classes and slot tags of a flat text, which are one or the
//! other.
ghost use Rattle.std.specs.Prelude.{◌≡◌, ◌++◌, ◌<◌, ◌≤◌, length, IfOk, OnOk, All};
ghost use Rattle.newt_graph.specs.Graph.{IsNode, WalkLabel, WalkLabels};
ghost use Rattle.newt_spec_nsof.specs.Place.{Ahead};
ghost use Rattle.newt_spec_nsof.specs.Flat.{again_text, symbol_text, each_text, label_text};
ghost use Rattle.newt_nsof_write.specs.Writing.{Adds};

use crate::numbers::count;
use newt_graph::Node;
use std::alloc::AllocError;

/// A node that was met before: a precedent. In a flat text the number of an object is that of
/// its node.
pub(crate) fn again(out: &mut Vec<u8>, k: u32) -> Result<(), AllocError>
    requires { k < 65535 }
    ensures { OnOk result (out.new.items ≡ out.old.items ++ again_text k) }
{
    out.push(9)?;
    count(out, k)
}

/// A symbol in full.
pub(crate) fn symbol(out: &mut Vec<u8>, name: &[u8]) -> Result<(), AllocError>
    requires { length name.now < 255 }
    ensures { OnOk result (out.new.items ≡ out.old.items ++ symbol_text name.now) }
{
    out.push(7)?;
    count(out, name.len() as u32)?;
    out.extend_from_slice(name)?;
    Ok(())
}

/// A class or a slot tag, after so many nodes: in full where it is met first. Answers how many are
/// met afterwards.
#[tactic(auto, unfolding(newt_spec_nsof::specs::Flat::label_text))]
pub(crate) fn label(out: &mut Vec<u8>, nodes: &[Node], k: u32, met: u32) -> Result<u32, AllocError>
    requires few { length nodes.now ≤ 65535 }
    requires named { All (IsNode nodes.now) nodes.now }
    requires ahead { Ahead (λ met new. WalkLabel met k new) nodes.now met }
    ensures { IfOk result (λ n. Adds out.old.items out.new.items n (label_text nodes.now k met)) }
{
    if k < met {
        again(out, k)?;
        return Ok(met);
    }
    match &nodes[k as usize] {
        Node::Symbol(name) => {
            symbol(out, name.list())?;
            Ok(met + 1)
        }
        _ => Ok(met),
    }
}

/// The tags of a frame.
pub(crate) fn labels(
    out: &mut Vec<u8>,
    nodes: &[Node],
    tags: &[u32],
    met: u32,
) -> Result<u32, AllocError>
    requires few { length nodes.now ≤ 65535 }
    requires named { All (IsNode nodes.now) nodes.now }
    requires ahead { Ahead (λ met new. WalkLabels met tags.now new) nodes.now met }
    ensures { IfOk result (λ n. Adds out.old.items out.new.items n
        (each_text (label_text nodes.now) tags.now met)) }
{
    let mut met = met;
    for tag in tags {
        met = label(out, nodes, *tag, met)?;
    }
    Ok(met)
}
