//! Strings, binaries and large binaries in full.
ghost use Rattle.std.specs.Prelude.{[], ◌≡◌, ◌++◌, ◌+◌, ◌*◌, ◌≤◌, length, IfOk, OnOk, All};
ghost use Rattle.newt_graph.specs.Graph.{IsNode};
ghost use Rattle.newt_spec_nsof.specs.Place.{Ahead, BinaryWalk, LargeWalk};
ghost use Rattle.newt_spec_nsof.specs.Text.{units_text, large_text};
ghost use Rattle.newt_spec_nsof.specs.Flat.{string_text, binary_text, plain_large_text};
ghost use Rattle.newt_nsof_write.specs.Writing.{Adds};

use crate::labels::label;
use crate::numbers::{count, number};
use newt_graph::Node;
use std::alloc::AllocError;

/// The units of a string, the higher byte of each first.
fn units(out: &mut Vec<u8>, units: &[u16]) -> Result<(), AllocError>
    ensures { OnOk result (out.new.items ≡ out.old.items ++ units_text units.now) }
{
    for one in units {
        out.push((*one / 256) as u8)?;
        out.push((*one % 256) as u8)?;
    }
    Ok(())
}

/// A string in full.
pub(crate) fn string(out: &mut Vec<u8>, text: &[u16]) -> Result<(), AllocError>
    requires { 2 * length text.now + 2 ≤ 1000000 }
    ensures { OnOk result (out.new.items ≡ out.old.items ++ string_text text.now) }
{
    out.push(8)?;
    count(out, 2 * text.len() as u32 + 2)?;
    units(out, text)?;
    out.push(0)?;
    out.push(0)?;
    Ok(())
}

/// A binary in full.
pub(crate) fn binary(
    out: &mut Vec<u8>,
    nodes: &[Node],
    class: u32,
    bytes: &[u8],
    met: u32,
) -> Result<u32, AllocError>
    requires few { length nodes.now ≤ 65535 }
    requires named { All (IsNode nodes.now) nodes.now }
    requires bytes_few { length bytes.now ≤ 1000000 }
    requires ahead { Ahead (λ met new. BinaryWalk met class bytes.now new) nodes.now met }
    ensures { IfOk result (λ n. Adds out.old.items out.new.items n
        (binary_text nodes.now class bytes.now met)) }
{
    out.push(3)?;
    count(out, bytes.len() as u32)?;
    let met = label(out, nodes, class, met + 1)?;
    out.extend_from_slice(bytes)?;
    Ok(met)
}

/// What stands after the class of a large binary that is not compressed.
pub(crate) fn large_data(out: &mut Vec<u8>, bytes: &[u8]) -> Result<(), AllocError>
    requires { length bytes.now ≤ 1000000 }
    ensures { OnOk result (out.new.items ≡ out.old.items ++ large_text 0 0 [] [] bytes.now) }
{
    out.push(0)?;
    number(out, bytes.len() as u32)?;
    number(out, 0)?;
    number(out, 0)?;
    number(out, 0)?;
    out.extend_from_slice(bytes)?;
    Ok(())
}

/// A large binary in full.
pub(crate) fn large(
    out: &mut Vec<u8>,
    nodes: &[Node],
    class: u32,
    bytes: &[u8],
    met: u32,
) -> Result<u32, AllocError>
    requires few { length nodes.now ≤ 65535 }
    requires named { All (IsNode nodes.now) nodes.now }
    requires bytes_few { length bytes.now ≤ 1000000 }
    requires ahead { Ahead (λ met new. LargeWalk met class bytes.now new) nodes.now met }
    ensures { IfOk result (λ n. Adds out.old.items out.new.items n
        (plain_large_text nodes.now class bytes.now met)) }
{
    out.push(12)?;
    let met = label(out, nodes, class, met + 1)?;
    large_data(out, bytes)?;
    Ok(met)
}
