//! Big-endian numbers in bytes.
ghost use Rattle.std.specs.Prelude.{◌≡◌, ◌+◌, ◌≤◌, ◌++◌, OnOk, drop, length, take};
ghost use Rattle.newt_base.specs.Text as text;

use byteorder::{BigEndian, ByteOrder};
use std::alloc::AllocError;

/// The number in the two bytes from `at` on.
pub fn be16(bytes: &[u8], at: usize) -> u16
    requires { at + 2 ≤ length bytes.now }
    ensures { result ≡ text.be16_at bytes.now at }
{
    BigEndian::read_u16(&bytes[at..])
}

/// The number in the four bytes from `at` on.
pub fn be32(bytes: &[u8], at: usize) -> u32
    requires { at + 4 ≤ length bytes.now }
    ensures { result ≡ text.be32_at bytes.now at }
{
    BigEndian::read_u32(&bytes[at..])
}

/// Writes a number into the two bytes from `at` on; all others stay.
pub fn set16(out: &mut [u8], at: usize, value: u16)
    requires { at + 2 ≤ length out.old }
    ensures { out.new ≡ take at out.old ++ text.be16 value ++ drop (at + 2) out.old }
{
    BigEndian::write_u16(&mut out[at..], value);
}

/// Writes a number into the four bytes from `at` on; all others stay.
pub fn set32(out: &mut [u8], at: usize, value: u32)
    requires { at + 4 ≤ length out.old }
    ensures { out.new ≡ take at out.old ++ text.be32 value ++ drop (at + 4) out.old }
{
    BigEndian::write_u32(&mut out[at..], value);
}

/// Appends a number as two bytes, the most significant one first.
pub fn push16(out: &mut Vec<u8>, value: u16) -> Result<(), AllocError>
    ensures { OnOk result (out.new.items ≡ out.old.items ++ text.be16 value) }
{
    out.extend_from_slice(&value.to_be_bytes())
}

/// Appends a number as four bytes, the most significant one first.
pub fn push32(out: &mut Vec<u8>, value: u32) -> Result<(), AllocError>
    ensures { OnOk result (out.new.items ≡ out.old.items ++ text.be32 value) }
{
    out.extend_from_slice(&value.to_be_bytes())
}
