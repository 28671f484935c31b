//! The rows of the table of commands for graphs, stores and soups.
ghost use Rattle.std.specs.Prelude.{◌≡◌, ◌≢◌, codes};
ghost use Rattle.newt_script.specs.Rows.{row_reading};
ghost use Rattle.newt_script.specs.Verbs.{soup_word, unit_word};

use crate::fault::LineFault;
use crate::graphs::{last_literal, last_stream};
use crate::verbs::{SoupVerb, UnitVerb};
use newt_script_words::Words;
use newt_spec_world::Command;
use std::alloc::Global;

/// `nsof HEX`
#[tactic(auto, using(crate::proofs::RowTable::row_nsof))]
pub(crate) fn nsof(alloc: Global, words: &mut Words) -> Result<Command, LineFault>
    ensures { result ≢ Err LineFault.Memory → result ≡ row_reading (codes "nsof") words.old }
{
    Ok(Command::Nsof(last_stream(alloc, words)?))
}

/// `lit LIT`
#[tactic(auto, using(crate::proofs::RowTable::row_lit))]
pub(crate) fn lit(alloc: Global, words: &mut Words) -> Result<Command, LineFault>
    ensures { result ≢ Err LineFault.Memory → result ≡ row_reading (codes "lit") words.old }
{
    Ok(Command::Lit(last_literal(alloc, words)?))
}

/// `resolve LIT`
#[tactic(auto, using(crate::proofs::RowTable::row_resolve))]
pub(crate) fn resolve(alloc: Global, words: &mut Words) -> Result<Command, LineFault>
    ensures { result ≢ Err LineFault.Memory → result ≡ row_reading (codes "resolve") words.old }
{
    Ok(Command::Resolve(last_literal(alloc, words)?))
}

/// `time T`
#[tactic(auto, using(crate::proofs::RowTable::row_time))]
pub(crate) fn time(words: &mut Words) -> Result<Command, LineFault>
    ensures { result ≡ row_reading (codes "time") words.old }
{
    let minute = words.number()?;
    words.end()?;
    Ok(Command::Time(minute))
}

/// `quit`
#[tactic(auto, using(crate::proofs::RowTable::row_quit))]
pub(crate) fn quit(words: &mut Words) -> Result<Command, LineFault>
    ensures { result ≡ row_reading (codes "quit") words.old }
{
    words.end()?;
    Ok(Command::Quit)
}

/// `format U NAME SIG`
#[tactic(auto, using(crate::proofs::RowTable::row_format))]
pub(crate) fn format(alloc: Global, words: &mut Words) -> Result<Command, LineFault>
    ensures { result ≢ Err LineFault.Memory → result ≡ row_reading (codes "format") words.old }
{
    let (unit, name) = words.soup(alloc)?;
    let sig = words.sig()?;
    words.end()?;
    Ok(Command::Format(unit, name, sig))
}

/// `stores`
#[tactic(auto, using(crate::proofs::RowTable::row_stores))]
pub(crate) fn stores(words: &mut Words) -> Result<Command, LineFault>
    ensures { result ≡ row_reading (codes "stores") words.old }
{
    words.end()?;
    Ok(Command::Stores)
}

/// `mount U`, `unmount U`, `default U` and `soups U`
#[tactic(auto, using(crate::proofs::RowTable::row_unit))]
pub(crate) fn of_unit(words: &mut Words, verb: UnitVerb) -> Result<Command, LineFault>
    ensures { result ≡ row_reading (unit_word verb) words.old }
{
    let unit = words.unit()?;
    words.end()?;
    Ok(verb.command(unit))
}

/// `soup U NAME`, `drop U S` and `indexes U S`
#[tactic(auto, using(crate::proofs::RowTable::row_soup))]
pub(crate) fn of_soup(
    alloc: Global,
    words: &mut Words,
    verb: SoupVerb,
) -> Result<Command, LineFault>
    ensures { result ≢ Err LineFault.Memory → result ≡ row_reading (soup_word verb) words.old }
{
    let (unit, soup) = words.soup(alloc)?;
    words.end()?;
    Ok(verb.command(unit, soup))
}
