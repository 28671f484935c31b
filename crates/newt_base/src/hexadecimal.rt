//! Hexadecimal text.
ghost use Rattle.std.specs.Prelude.{◌≡◌, IfOk};
ghost use Rattle.newt_base.specs.Text as text_of;

use hex::FromHexError;
use std::alloc::{AllocError, Global};

/// Why a hexadecimal text is not read.
#[derive(Clone, Copy, PartialEq, Eq, Debug)]
pub enum HexFault {
    /// The text is not an even number of hexadecimal digits.
    NotHex,
    /// Memory was refused.
    Memory,
}

impl From<FromHexError> for HexFault {
    ghost use Rattle.newt_base.specs.Faults.{hex_fault};

    ghost from_gives = { λ error fault. fault ≡ hex_fault error };

    fn from(error: FromHexError) -> HexFault {
        match error {
            FromHexError::OutOfMemory => HexFault::Memory,
            _ => HexFault::NotHex,
        }
    }
}

/// The bytes that a text of hexadecimal digits writes, two digits a byte, in either case.
pub fn hex_read(alloc: Global, text: &[u8]) -> Result<Vec<u8>, HexFault>
    ensures ok { IfOk result (λ bytes. text_of.hex_bytes text.now ≡ Some bytes.items) }
    ensures not_hex { result ≡ Err HexFault.NotHex → text_of.hex_bytes text.now ≡ None }
{
    Ok(hex::decode(alloc, text)?)
}

/// The hexadecimal text of some bytes, in upper case.
pub fn hex_text(alloc: Global, bytes: &[u8]) -> Result<Vec<u8>, AllocError>
    ensures { IfOk result (λ text. text.items ≡ text_of.hex_text bytes.now) }
{
    Ok(hex::encode_upper(alloc, bytes)?.into_bytes())
}
