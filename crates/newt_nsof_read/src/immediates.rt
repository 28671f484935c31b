//! Values that are words: integers, characters and others that stand for themselves.
ghost use Rattle.newt_nsof_read.specs.Met.{Met};
ghost use Rattle.newt_nsof_read.specs.Reading.{Gives, immediate_at, character_at};
ghost use Rattle.newt_nsof_read.specs.Reading.{wide_character_at};

use crate::fault::NsofFault;
use crate::numbers::xlong;
use newt_graph::Ref;

/// A word that stands for itself, after its tag. Its low two bits are not 01, which mark a pointer.
pub(crate) fn word(bytes: &[u8]) -> Result<(Ref, &[u8]), NsofFault>
    ensures { (met : Met) → Gives (λ x. (x.0, met, x.1.now)) result (immediate_at met bytes.now) }
{
    let (word, rest) = xlong(bytes)?;
    if word.cast_unsigned() % 4 == 1 {
        return Err(NsofFault::Malformed);
    }
    Ok((Ref::Imm(word), rest))
}

/// A character of one byte, after its tag.
pub(crate) fn character(bytes: &[u8]) -> Result<(Ref, &[u8]), NsofFault>
    ensures { (met : Met) → Gives (λ x. (x.0, met, x.1.now)) result (character_at met bytes.now) }
{
    match bytes {
        [code, rest @ ..] => Ok((Ref::Imm(16 * i32::from(*code) + 6), rest)),
        [] => Err(NsofFault::Malformed),
    }
}

/// A character of two bytes, after its tag.
pub(crate) fn wide_character(bytes: &[u8]) -> Result<(Ref, &[u8]), NsofFault>
    ensures { (met : Met) → Gives (λ x. (x.0, met, x.1.now)) result
        (wide_character_at met bytes.now) }
{
    match bytes {
        [high, low, rest @ ..] => {
            let code = u16::from_be_bytes([*high, *low]);
            Ok((Ref::Imm(16 * i32::from(code) + 6), rest))
        }
        _ => Err(NsofFault::Malformed),
    }
}
