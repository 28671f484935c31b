//! Numbers, texts and names, read from the front of bytes. Each function gives the value and the
//! bytes after it, and is `Bad` where there are too few bytes.
ghost use Rattle.newt_spec_store.specs.Reading.{some_bytes};
ghost use Rattle.newt_soupdir.specs.Reading.{Gives, byte_at, number16_at, number32_at, text_at};
ghost use Rattle.newt_soupdir.specs.Reading.{name_at};

use crate::fault::DirFault;
use newt_base::{Name, NameFault, be16, be32};
use std::alloc::Global;

/// A number of one byte.
#[tactic(auto, using(crate::proofs::Numbers::byte_is, crate::proofs::Numbers::byte_none))]
pub(crate) fn byte(bytes: &[u8]) -> Result<(u8, &[u8]), DirFault>
    ensures { Gives (λ x. (x.0, x.1.now)) result (byte_at bytes.now) }
{
    if bytes.is_empty() {
        return Err(DirFault::Bad);
    }
    Ok((bytes[0], &bytes[1..]))
}

/// A number of two bytes, the highest first.
#[tactic(auto, using(crate::proofs::Numbers::number16_is, crate::proofs::Numbers::number16_none))]
pub(crate) fn number16(bytes: &[u8]) -> Result<(u16, &[u8]), DirFault>
    ensures { Gives (λ x. (x.0, x.1.now)) result (number16_at bytes.now) }
{
    if bytes.len() < 2 {
        return Err(DirFault::Bad);
    }
    Ok((be16(bytes, 0), &bytes[2..]))
}

/// A number of four bytes, the highest first.
#[tactic(auto, using(crate::proofs::Numbers::number32_is, crate::proofs::Numbers::number32_none))]
pub(crate) fn number32(bytes: &[u8]) -> Result<(u32, &[u8]), DirFault>
    ensures { Gives (λ x. (x.0, x.1.now)) result (number32_at bytes.now) }
{
    if bytes.len() < 4 {
        return Err(DirFault::Bad);
    }
    Ok((be32(bytes, 0), &bytes[4..]))
}

/// So many bytes.
pub(crate) fn some_bytes(count: usize, bytes: &[u8]) -> Result<(&[u8], &[u8]), DirFault>
    ensures { Gives (λ x. (x.0.now, x.1.now)) result (some_bytes count bytes.now) }
{
    if bytes.len() < count {
        return Err(DirFault::Bad);
    }
    Ok(bytes.split_at(count))
}

/// A text: a byte that says its length, and as many bytes.
#[tactic(auto, unfolding(crate::specs::Reading::text_at))]
pub(crate) fn text(bytes: &[u8]) -> Result<(&[u8], &[u8]), DirFault>
    ensures { Gives (λ x. (x.0.now, x.1.now)) result (text_at bytes.now) }
{
    let (len, rest) = byte(bytes)?;
    some_bytes(usize::from(len), rest)
}

/// A text that is a name of a store or soup.
#[tactic(auto, unfolding(crate::specs::Reading::name_at))]
pub(crate) fn name(alloc: Global, bytes: &[u8]) -> Result<(Name, &[u8]), DirFault>
    ensures { Gives (λ x. (x.0, x.1.now)) result (name_at bytes.now) }
{
    let (text, rest) = text(bytes)?;
    match Name::read(alloc, text) {
        Ok(name) => Ok((name, rest)),
        Err(NameFault::Name) => Err(DirFault::Bad),
        Err(NameFault::Memory) => Err(DirFault::Memory),
    }
}
