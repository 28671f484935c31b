//! The rows of the table of commands for cursors.
ghost use Rattle.std.specs.Prelude.{◌≡◌, ◌≢◌, codes};
ghost use Rattle.newt_script.specs.Rows.{row_reading};
ghost use Rattle.newt_script.specs.Verbs.{cursor_word};

use crate::fault::LineFault;
use crate::graphs::last_literal;
use crate::verbs::CursorVerb;
use newt_base::Uid;
use newt_script_words::Words;
use newt_spec_world::Command;
use std::alloc::Global;

/// `query U S LIT` and `query * S LIT`
#[tactic(auto, using(crate::proofs::CursorRows::row_query))]
pub(crate) fn query(alloc: Global, words: &mut Words) -> Result<Command, LineFault>
    ensures { result ≢ Err LineFault.Memory → result ≡ row_reading (codes "query") words.old }
{
    if words.star() {
        let name = words.name(alloc)?;
        return Ok(Command::QueryAll(name, last_literal(alloc, words)?));
    }
    let (unit, name) = words.soup(alloc)?;
    Ok(Command::Query(unit, name, last_literal(alloc, words)?))
}

/// `moveby C K`
#[tactic(auto, using(crate::proofs::CursorRows::row_moveby))]
pub(crate) fn moveby(words: &mut Words) -> Result<Command, LineFault>
    ensures { result ≡ row_reading (codes "moveby") words.old }
{
    let cursor = words.cursor()?;
    let steps = words.steps()?;
    words.end()?;
    Ok(Command::Moveby(cursor, steps))
}

/// `goto C U UID`
#[tactic(auto, using(crate::proofs::CursorRows::row_goto))]
pub(crate) fn goto(words: &mut Words) -> Result<Command, LineFault>
    ensures { result ≡ row_reading (codes "goto") words.old }
{
    let cursor = words.cursor()?;
    let unit = words.unit()?;
    let uid = words.number()?;
    words.end()?;
    Ok(Command::Goto(cursor, unit, Uid(uid)))
}

/// `gotokey C LIT`
#[tactic(auto, using(crate::proofs::CursorRows::row_gotokey))]
pub(crate) fn gotokey(alloc: Global, words: &mut Words) -> Result<Command, LineFault>
    ensures { result ≢ Err LineFault.Memory → result ≡ row_reading (codes "gotokey") words.old }
{
    let cursor = words.cursor()?;
    Ok(Command::Gotokey(cursor, last_literal(alloc, words)?))
}

/// `entry C`, `next C`, `prev C`, `reset C`, `end C`, `count C`, `which C`, `clone C` and `close C`
#[tactic(auto, using(crate::proofs::CursorRows::row_cursor))]
pub(crate) fn of_cursor(words: &mut Words, verb: CursorVerb) -> Result<Command, LineFault>
    ensures { result ≡ row_reading (cursor_word verb) words.old }
{
    let cursor = words.cursor()?;
    words.end()?;
    Ok(verb.command(cursor))
}
