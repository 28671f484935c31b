//! The rows of the table of commands for entries.
ghost use Rattle.std.specs.Prelude.{◌≡◌, ◌≢◌, codes};
ghost use Rattle.newt_script.specs.Rows.{row_reading};
ghost use Rattle.newt_script.specs.Verbs.{entry_word, transfer_word};

use crate::fault::LineFault;
use crate::graphs::{last_literal, last_stream};
use crate::verbs::{EntryVerb, TransferVerb};
use newt_script_words::Words;
use newt_spec_world::Command;
use std::alloc::Global;

/// `add U S LIT`
#[tactic(auto, using(crate::proofs::RowTable::row_add))]
pub(crate) fn add(alloc: Global, words: &mut Words) -> Result<Command, LineFault>
    ensures { result ≢ Err LineFault.Memory → result ≡ row_reading (codes "add") words.old }
{
    let (unit, name) = words.soup(alloc)?;
    Ok(Command::Add(unit, name, last_literal(alloc, words)?))
}

/// `addx U S HEX`
#[tactic(auto, using(crate::proofs::RowTable::row_addx))]
pub(crate) fn addx(alloc: Global, words: &mut Words) -> Result<Command, LineFault>
    ensures { result ≢ Err LineFault.Memory → result ≡ row_reading (codes "addx") words.old }
{
    let (unit, name) = words.soup(alloc)?;
    Ok(Command::Addx(unit, name, last_stream(alloc, words)?))
}

/// `addu S LIT`
#[tactic(auto, using(crate::proofs::RowTable::row_addu))]
pub(crate) fn addu(alloc: Global, words: &mut Words) -> Result<Command, LineFault>
    ensures { result ≢ Err LineFault.Memory → result ≡ row_reading (codes "addu") words.old }
{
    let name = words.name(alloc)?;
    Ok(Command::Addu(name, last_literal(alloc, words)?))
}

/// `set U S UID PATH LIT`
#[tactic(auto, using(crate::proofs::RowTable::row_set))]
pub(crate) fn set(alloc: Global, words: &mut Words) -> Result<Command, LineFault>
    ensures { result ≢ Err LineFault.Memory → result ≡ row_reading (codes "set") words.old }
{
    let (unit, name, uid) = words.entry(alloc)?;
    let path = words.path(alloc)?;
    Ok(Command::Set(unit, name, uid, path, last_literal(alloc, words)?))
}

/// `change U S UID LIT`
#[tactic(auto, using(crate::proofs::RowTable::row_change))]
pub(crate) fn change(alloc: Global, words: &mut Words) -> Result<Command, LineFault>
    ensures { result ≢ Err LineFault.Memory → result ≡ row_reading (codes "change") words.old }
{
    let (unit, name, uid) = words.entry(alloc)?;
    Ok(Command::Change(unit, name, uid, last_literal(alloc, words)?))
}

/// `get U S UID`, `getx U S UID`, `remove U S UID`, `alias U S UID` and `open U S UID`
#[tactic(auto, using(crate::proofs::RowTable::row_entry))]
pub(crate) fn of_entry(
    alloc: Global,
    words: &mut Words,
    verb: EntryVerb,
) -> Result<Command, LineFault>
    ensures { result ≢ Err LineFault.Memory → result ≡ row_reading (entry_word verb) words.old }
{
    let (unit, soup, uid) = words.entry(alloc)?;
    words.end()?;
    Ok(verb.command(unit, soup, uid))
}

/// `copy U S UID U S` and `move U S UID U S`
#[tactic(auto, using(crate::proofs::RowTable::row_transfer))]
pub(crate) fn of_transfer(
    alloc: Global,
    words: &mut Words,
    verb: TransferVerb,
) -> Result<Command, LineFault>
    ensures { result ≢ Err LineFault.Memory → result ≡ row_reading (transfer_word verb) words.old }
{
    let from = words.entry(alloc)?;
    let to = words.soup(alloc)?;
    words.end()?;
    Ok(verb.command(from, to))
}
