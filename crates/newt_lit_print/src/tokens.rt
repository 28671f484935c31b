//! Names, words, strings and binaries as they are printed.
ghost use Rattle.std.specs.Prelude.{◌≡◌, ◌++◌, ◌∷◌, [], ◌<◌, ◌/◌, ◌%◌, OnOk, decimal, flat_map};
ghost use Rattle.std.specs.Prelude.{codes};
ghost use Rattle.newt_base.specs.Text as text;
ghost use Rattle.newt_spec_literal.specs.Printed as printed;
ghost use Rattle.std.specs.Fmt.{signed_decimal};

use itoa::Buffer;
use newt_base::is_identifier;
use std::alloc::AllocError;

/// The word of nil.
const NIL: u32 = 2;

/// The word of true.
const TRUE: u32 = 26;

/// Words of characters are below this bound: the greatest character is 65,535.
const CHARACTERS: u32 = 1 << 20;

/// A character, after a backslash where it is one of the marks.
fn escaped(out: &mut Vec<u8>, marks: &[u8], c: u8) -> Result<(), AllocError>
    ensures { OnOk result (out.new.items ≡ out.old.items ++ printed.escaped marks.now c) }
{
    if marks.contains(&c) {
        out.push(b'\\')?;
    }
    out.push(c)?;
    Ok(())
}

/// The characters of a name between bars.
fn barred(out: &mut Vec<u8>, name: &[u8]) -> Result<(), AllocError>
    ensures { OnOk result (out.new.items ≡ out.old.items ++ flat_map (printed.escaped (codes "|\\"))
        name.now) }
{
    for c in name {
        escaped(out, b"|\\", *c)?;
    }
    Ok(())
}

/// A name as it stands where it is an identifier, else between bars.
pub(crate) fn name(out: &mut Vec<u8>, name: &[u8]) -> Result<(), AllocError>
    ensures { OnOk result (out.new.items ≡ out.old.items ++ printed.name_text name.now) }
{
    if is_identifier(name) {
        out.extend_from_slice(name)?;
        return Ok(());
    }
    out.push(b'|')?;
    barred(out, name)?;
    out.push(b'|')?;
    Ok(())
}

/// The digit of a number below 16.
fn hex_digit(number: u8) -> u8
    requires { number < 16 }
    ensures { result ≡ text.hex_digit number }
{
    if number < 10 {
        b'0' + number
    } else {
        b'A' - 10 + number
    }
}

/// The two digits of a byte.
fn hex_byte(out: &mut Vec<u8>, byte: u8) -> Result<(), AllocError>
    ensures { OnOk result (out.new.items ≡ out.old.items
        ++ text.hex_digit (byte / 16) ∷ text.hex_digit (byte % 16) ∷ []) }
{
    out.extend_from_slice(&[hex_digit(byte / 16), hex_digit(byte % 16)])?;
    Ok(())
}

/// Two digits for each byte.
pub(crate) fn hex(out: &mut Vec<u8>, bytes: &[u8]) -> Result<(), AllocError>
    ensures { OnOk result (out.new.items ≡ out.old.items ++ text.hex_text bytes.now) }
{
    for byte in bytes {
        hex_byte(out, *byte)?;
    }
    Ok(())
}

/// Four digits.
fn hex16(out: &mut Vec<u8>, n: u16) -> Result<(), AllocError>
    ensures { OnOk result (out.new.items ≡ out.old.items ++ printed.hex16 n) }
{
    hex(out, &n.to_be_bytes())
}

/// A character from 33 to 126 but the backslash as itself, any other by four digits.
fn character(out: &mut Vec<u8>, c: u16) -> Result<(), AllocError>
    ensures { OnOk result (out.new.items ≡ out.old.items ++ printed.character_text c) }
{
    out.push(b'$')?;
    if 33 <= c && c <= 126 && c != 92 {
        out.push(c as u8)?;
        return Ok(());
    }
    out.push(b'\\')?;
    hex16(out, c)
}

/// A number in decimal.
pub(crate) fn decimal(out: &mut Vec<u8>, n: u32) -> Result<(), AllocError>
    ensures { OnOk result (out.new.items ≡ out.old.items ++ decimal n) }
{
    out.extend_from_slice(Buffer::new().format(n).as_bytes())?;
    Ok(())
}

/// An integer in decimal.
fn integer(out: &mut Vec<u8>, n: i32) -> Result<(), AllocError>
    ensures { OnOk result (out.new.items ≡ out.old.items ++ signed_decimal n) }
{
    out.extend_from_slice(Buffer::new().format(n).as_bytes())?;
    Ok(())
}

/// An immediate word in the first form that fits.
pub(crate) fn word(out: &mut Vec<u8>, word: i32) -> Result<(), AllocError>
    ensures { OnOk result (out.new.items ≡ out.old.items ++ printed.word_text word) }
{
    let bits = word.cast_unsigned();
    if bits % 4 == 0 {
        return integer(out, word.div_euclid(4));
    }
    if bits == NIL {
        out.extend_from_slice(b"nil")?;
        return Ok(());
    }
    if bits == TRUE {
        out.extend_from_slice(b"true")?;
        return Ok(());
    }
    if bits % 16 == 6 && bits < CHARACTERS {
        return character(out, (bits / 16) as u16);
    }
    out.push(b'&')?;
    hex(out, &bits.to_be_bytes())
}

/// A unit from 32 to 126 as itself, any other by four digits.
pub(crate) fn unit(out: &mut Vec<u8>, unit: u16) -> Result<(), AllocError>
    ensures { OnOk result (out.new.items ≡ out.old.items ++ printed.unit_text unit) }
{
    if 32 <= unit && unit <= 126 {
        return escaped(out, b"\"\\", unit as u8);
    }
    out.extend_from_slice(b"\\u")?;
    hex16(out, unit)
}

fn units(out: &mut Vec<u8>, units: &[u16]) -> Result<(), AllocError>
    ensures { OnOk result (out.new.items ≡ out.old.items ++ flat_map printed.unit_text units.now) }
{
    for u in units {
        unit(out, *u)?;
    }
    Ok(())
}

/// A string between its quotes.
pub(crate) fn string(out: &mut Vec<u8>, text: &[u16]) -> Result<(), AllocError>
    ensures { OnOk result (out.new.items ≡ out.old.items ++ printed.string_text text.now) }
{
    out.push(b'"')?;
    units(out, text)?;
    out.push(b'"')?;
    Ok(())
}
