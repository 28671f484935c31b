//! Hosts before their run.
ghost use Rattle.std.specs.Prelude.{◌≡◌, ◌*◌, ◌/◌, length, IfOk, OnOk, vec_len};
ghost use Rattle.newt_memhost.specs.Outside.{outside_of};
ghost use Rattle.newt_test_scripts.specs.Free.{IsFree, HasNone};

use newt_memhost::MemHost;
use std::alloc::{AllocError, Global};
use std::test::Fail;

/// So many blocks of 4,096 zero bytes.
pub fn blocks(alloc: Global, count: u32) -> Result<Vec<u8>, AllocError>
    ensures { IfOk result (λ bytes. vec_len bytes ≡ count * 4096) }
{
    let mut bytes = Vec::new(alloc);
    bytes.resize(count as usize * 4096, 0)?;
    Ok(bytes)
}

/// A host with this input and no devices, no call of which moves more bytes than the piece.
pub fn host(alloc: Global, input: &[u8], piece: u32) -> Result<MemHost, AllocError>
    ensures free { IfOk result (λ host. IsFree (outside_of host)) }
    ensures none { IfOk result (λ host. HasNone (outside_of host)) }
{
    let mut host = MemHost::new(alloc);
    host.input(input)?;
    host.piece(piece.max(1));
    Ok(host)
}

/// Adds five devices `a` to `e` of the same bytes.
fn add_five(host: &mut MemHost, bytes: &[u8]) -> Result<(), AllocError>
    requires whole { length bytes.now ≡ length bytes.now / 4096 * 4096 }
    requires free { IsFree (outside_of host.old) }
    requires none { HasNone (outside_of host.old) }
    ensures { OnOk result (IsFree (outside_of host.new)) }
{
    host.device("a", bytes)?;
    host.device("b", bytes)?;
    host.device("c", bytes)?;
    host.device("d", bytes)?;
    host.device("e", bytes)?;
    Ok(())
}

/// A host with this input and five devices `a` to `e` of 13 blocks of zero bytes.
pub fn over_blank(alloc: Global, input: &[u8]) -> Result<MemHost, AllocError>
    ensures { IfOk result (λ host. IsFree (outside_of host)) }
{
    over_blocks(alloc, input, 13)
}

/// The same with devices of so many blocks.
pub fn over_blocks(alloc: Global, input: &[u8], count: u32) -> Result<MemHost, AllocError>
    ensures { IfOk result (λ host. IsFree (outside_of host)) }
{
    let blank = blocks(alloc, count)?;
    let mut host = host(alloc, input, u32::MAX)?;
    add_five(&mut host, &blank)?;
    Ok(host)
}

/// A host with this input and the devices `a` and `b` of these bytes, which are whole blocks.
pub fn over(alloc: Global, input: &[u8], a: &[u8], b: &[u8]) -> Result<MemHost, Fail>
    ensures { IfOk result (λ host. IsFree (outside_of host)) }
{
    if a.len() % 4096 != 0 || b.len() % 4096 != 0 {
        return Err(Fail::new("no whole blocks"));
    }
    let mut host = host(alloc, input, u32::MAX)?;
    host.device("a", a)?;
    host.device("b", b)?;
    Ok(host)
}
