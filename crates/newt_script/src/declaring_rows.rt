//! The rows of the table of commands for the indexes, the tags and the info frame of a soup.
ghost use Rattle.std.specs.Prelude.{◌≡◌, ◌≢◌, codes};
ghost use Rattle.newt_script.specs.Rows.{row_reading};

use crate::fault::LineFault;
use crate::graphs::last_literal;
use newt_script_words::Words;
use newt_spec_world::Command;
use std::alloc::Global;

/// `index U S PART..`
#[tactic(auto, using(crate::proofs::ListedRows::row_index))]
pub(crate) fn index(alloc: Global, words: &mut Words) -> Result<Command, LineFault>
    ensures { result ≢ Err LineFault.Memory → result ≡ row_reading (codes "index") words.old }
{
    let (unit, name) = words.soup(alloc)?;
    Ok(Command::Index(unit, name, words.parts(alloc)?))
}

/// `unindex U S PATH..`
#[tactic(auto, using(crate::proofs::ListedRows::row_unindex))]
pub(crate) fn unindex(alloc: Global, words: &mut Words) -> Result<Command, LineFault>
    ensures { result ≢ Err LineFault.Memory → result ≡ row_reading (codes "unindex") words.old }
{
    let (unit, name) = words.soup(alloc)?;
    Ok(Command::Unindex(unit, name, words.paths(alloc)?))
}

/// `tags U S` and `tags U S PATH SYM..`
#[tactic(auto, using(crate::proofs::ListedRows::row_tags))]
pub(crate) fn tags(alloc: Global, words: &mut Words) -> Result<Command, LineFault>
    ensures { result ≢ Err LineFault.Memory → result ≡ row_reading (codes "tags") words.old }
{
    let (unit, name) = words.soup(alloc)?;
    if words.is_ended() {
        return Ok(Command::Tags(unit, name));
    }
    let path = words.path(alloc)?;
    Ok(Command::SetTags(unit, name, path, words.symbols(alloc)?))
}

/// `info U S` and `info U S LIT`
#[tactic(auto, using(crate::proofs::ListedRows::row_info))]
pub(crate) fn info(alloc: Global, words: &mut Words) -> Result<Command, LineFault>
    ensures { result ≢ Err LineFault.Memory → result ≡ row_reading (codes "info") words.old }
{
    let (unit, name) = words.soup(alloc)?;
    if words.is_ended() {
        return Ok(Command::Info(unit, name));
    }
    Ok(Command::SetInfo(unit, name, last_literal(alloc, words)?))
}
