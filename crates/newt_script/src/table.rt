//! The table of commands: what is read after the first word of a line.
ghost use Rattle.std.specs.Prelude.{◌≡◌, ◌≢◌, false};
ghost use Rattle.newt_script.specs.Rows.{row_reading};
ghost use Rattle.newt_script.specs.Verbs.{word_of, is_memory_word};

use crate::fault::LineFault;
use crate::verbs::Verb;
use crate::{cursor_rows, declaring_rows, entry_rows, large_rows, store_rows, whole_rows};
use newt_script_words::Words;
use newt_spec_world::Command;
use std::alloc::Global;

/// The command of the words after the first one.
#[tactic(auto, using(crate::proofs::Spoken::memory_of_rows))]
pub(crate) fn row(alloc: Global, verb: Verb, words: &mut Words) -> Result<Command, LineFault>
    ensures reading { result ≢ Err LineFault.Memory
        → result ≡ row_reading (word_of verb) words.old }
    ensures no_memory { is_memory_word (word_of verb) ≡ false → result ≢ Err LineFault.Memory }
{
    match verb {
        Verb::Quit => store_rows::quit(words),
        Verb::Stores => store_rows::stores(words),
        Verb::Time => store_rows::time(words),
        Verb::Nsof => store_rows::nsof(alloc, words),
        Verb::Lit => store_rows::lit(alloc, words),
        Verb::Resolve => store_rows::resolve(alloc, words),
        Verb::Format => store_rows::format(alloc, words),
        Verb::Unit(verb) => store_rows::of_unit(words, verb),
        Verb::Soup(verb) => store_rows::of_soup(alloc, words, verb),
        Verb::Add => entry_rows::add(alloc, words),
        Verb::Addx => entry_rows::addx(alloc, words),
        Verb::Addu => entry_rows::addu(alloc, words),
        Verb::Set => entry_rows::set(alloc, words),
        Verb::Change => entry_rows::change(alloc, words),
        Verb::Entry(verb) => entry_rows::of_entry(alloc, words, verb),
        Verb::Transfer(verb) => entry_rows::of_transfer(alloc, words, verb),
        Verb::Vread => large_rows::vread(alloc, words),
        Verb::Vwrite => large_rows::vwrite(alloc, words),
        Verb::Index => declaring_rows::index(alloc, words),
        Verb::Unindex => declaring_rows::unindex(alloc, words),
        Verb::Tags => declaring_rows::tags(alloc, words),
        Verb::Info => declaring_rows::info(alloc, words),
        Verb::Query => cursor_rows::query(alloc, words),
        Verb::Moveby => cursor_rows::moveby(words),
        Verb::Goto => cursor_rows::goto(words),
        Verb::Gotokey => cursor_rows::gotokey(alloc, words),
        Verb::Cursor(verb) => cursor_rows::of_cursor(words, verb),
        Verb::Watch => whole_rows::watch(alloc, words),
        Verb::Edit => whole_rows::edit(alloc, words),
        Verb::OfWatch(verb) => whole_rows::of_watch(words, verb),
        Verb::OfCopy(verb) => whole_rows::of_copy(words, verb),
    }
}
