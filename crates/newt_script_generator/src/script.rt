//! The text of the script.
ghost use Rattle.std.specs.Prelude.{◌≡◌, ◌==◌, ◌%◌, ◌++◌, IfOk, OnOk, flat_map, replicate, codes};
ghost use Rattle.std.specs.Prelude.{if◌then◌else◌};
ghost use Rattle.std.specs.List.{enumerate_from};
ghost use Rattle.newt_base.specs.Text.{decimal_text};
ghost use Rattle.newt_spec_script.specs.Generator.{add_line, drawn, gen_script, line, next_state};

use std::alloc::{AllocError, Global};

/// The lines that make the store and its soup.
const START: &[u8] = b"format 0 Gen 1\nmount 0\nsoup 0 Names\n\
    index 0 Names name.last:string:ascend\ntags 0 Names labels business personal\n";

/// The line that opens a cursor.
const QUERY: &[u8] = b"query 0 Names {indexPath: [pathExpr: 'name, 'last]}\n";

/// One more than the largest state of the generator.
const STATES: u64 = 1 << 31;

/// The script of a seed, which adds `count` names and walks over them in the order of their last
/// names. Only the low 31 bits of the seed count. The script has `2 * count + 10` lines.
pub fn gen_script(alloc: Global, seed: u32, count: u32) -> Result<Vec<u8>, AllocError>
    ensures { IfOk result (λ text. text.items ≡ gen_script seed count) }
{
    let mut text = Vec::from_slice(alloc, START)?;
    push_entries(alloc, &mut text, seed % (1 << 31), count)?;
    text.extend_from_slice(QUERY)?;
    text.extend_from_slice(b"entry 0\n")?;
    push_steps(&mut text, count)?;
    text.extend_from_slice(b"count 0\n")?;
    text.extend_from_slice(b"unmount 0\n")?;
    text.extend_from_slice(b"quit\n")?;
    Ok(text)
}

/// A line for each name, from a state of the generator.
fn push_entries(alloc: Global, text: &mut Vec<u8>, state: u32, count: u32) -> Result<(), AllocError>
    ensures { OnOk result (text.new.items ≡ text.old.items ++ flat_map add_line
        (enumerate_from 0 (drawn count state))) }
{
    let mut state = state;
    for i in 0..count {
        state = next_state(state);
        push_entry(alloc, text, i, state / 65_536)?;
    }
    Ok(())
}

/// The state after this one.
fn next_state(state: u32) -> u32
    ensures { result ≡ next_state state }
{
    ((1_103_515_245 * u64::from(state) + 12_345) % STATES) as u32
}

/// The line of a name, from the number drawn for it.
fn push_entry(alloc: Global, text: &mut Vec<u8>, i: u32, drawn: u32) -> Result<(), AllocError>
    ensures { OnOk result (text.new.items ≡ text.old.items ++ add_line (i, drawn)) }
{
    push_field(alloc, text, b"add 0 Names {name: {first: \"F", drawn % 90)?;
    push_field(alloc, text, b"\", last: \"L", drawn % 1000)?;
    text.extend_from_slice(b"\"}, labels: '")?;
    text.extend_from_slice(label(drawn))?;
    push_field(alloc, text, b", n: ", i)?;
    text.extend_from_slice(b"}\n")?;
    Ok(())
}

/// A number after some text.
fn push_field(
    alloc: Global,
    text: &mut Vec<u8>,
    before: &[u8],
    number: u32,
) -> Result<(), AllocError>
    ensures { OnOk result (text.new.items ≡ text.old.items ++ (before.now ++ decimal_text number)) }
{
    text.extend_from_slice(before)?;
    push_number(alloc, text, number)
}

/// The label of a name, by the number drawn for it.
fn label(drawn: u32) -> &'static [u8]
    ensures { result.now ≡ (if drawn % 2 == 0 then codes "business" else codes "personal") }
{
    if drawn % 2 == 0 {
        b"business"
    } else {
        b"personal"
    }
}

/// A number in decimal.
#[tactic(auto, using(newt_base::proofs::Numerals::decimal_written))]
fn push_number(alloc: Global, text: &mut Vec<u8>, number: u32) -> Result<(), AllocError>
    ensures { OnOk result (text.new.items ≡ text.old.items ++ decimal_text number) }
{
    let digits = format!(in alloc; "{number}")?;
    text.extend_from_slice(digits.as_bytes())?;
    Ok(())
}

/// A line for each step to the next name.
fn push_steps(text: &mut Vec<u8>, count: u32) -> Result<(), AllocError>
    ensures { OnOk result (text.new.items ≡ text.old.items ++ flat_map line
        (replicate count (codes "next 0"))) }
{
    for _ in 0..count {
        text.extend_from_slice(b"next 0\n")?;
    }
    Ok(())
}
