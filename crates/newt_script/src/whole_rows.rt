//! The rows of the table of commands for watches and working copies.
ghost use Rattle.std.specs.Prelude.{◌≡◌, ◌≢◌, codes};
ghost use Rattle.newt_script.specs.Rows.{row_reading};
ghost use Rattle.newt_script.specs.Verbs.{watch_word, copy_word};

use crate::fault::LineFault;
use crate::graphs::last_literal;
use crate::verbs::{CopyVerb, WatchVerb};
use newt_script_words::Words;
use newt_spec_world::Command;
use std::alloc::Global;

/// `watch S LIMIT`
#[tactic(auto, using(crate::proofs::WholeRows::row_watch))]
pub(crate) fn watch(alloc: Global, words: &mut Words) -> Result<Command, LineFault>
    ensures { result ≢ Err LineFault.Memory → result ≡ row_reading (codes "watch") words.old }
{
    let name = words.name(alloc)?;
    let most = words.most()?;
    words.end()?;
    Ok(Command::Watch(name, most))
}

/// `notes W` and `unwatch W`
#[tactic(auto, using(crate::proofs::WholeRows::row_of_watch))]
pub(crate) fn of_watch(words: &mut Words, verb: WatchVerb) -> Result<Command, LineFault>
    ensures { result ≡ row_reading (watch_word verb) words.old }
{
    let watch = words.watch()?;
    words.end()?;
    Ok(verb.command(watch))
}

/// `draft W`, `save W`, `revert W` and `discard W`
#[tactic(auto, using(crate::proofs::WholeRows::row_of_copy))]
pub(crate) fn of_copy(words: &mut Words, verb: CopyVerb) -> Result<Command, LineFault>
    ensures { result ≡ row_reading (copy_word verb) words.old }
{
    let copy = words.copy()?;
    words.end()?;
    Ok(verb.command(copy))
}

/// `edit W PATH LIT`
#[tactic(auto, using(crate::proofs::WholeRows::row_edit))]
pub(crate) fn edit(alloc: Global, words: &mut Words) -> Result<Command, LineFault>
    ensures { result ≢ Err LineFault.Memory → result ≡ row_reading (codes "edit") words.old }
{
    let copy = words.copy()?;
    let path = words.path(alloc)?;
    Ok(Command::Edit(copy, path, last_literal(alloc, words)?))
}
