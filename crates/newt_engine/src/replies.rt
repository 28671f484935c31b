//! What a call answers, as a reply.
ghost use Rattle.std.specs.Prelude.{◌≡◌, map};
ghost use Rattle.newt_reply.specs.Said.{said, soup_row};
ghost use Rattle.newt_spec_world.specs.Answer.{or_nil};
ghost use Rattle.newt_spec_world.specs.Reply as plain;
ghost use Rattle.newt_engine_units.specs.declared.effects.Effect.{Effect as Did};
ghost use Rattle.newt_engine_commands.specs.Plans.{told_as};
ghost use Rattle.newt_engine_cursors.specs.Replies.{shown_reply, side_reply};
ghost use Rattle.newt_engine.specs.Handed.{HandsOn};
ghost use Rattle.newt_engine.specs.Words.{in_words};

use newt_base::{Name, Sig, Uid};
use newt_engine_cursors::{Shown, Side};
use newt_engine_units::Effect;
use newt_graph::{Bytes, Graph};
use newt_host::Unit;
use newt_reply::{Alias, Reply, SoupRows, SpecRows, TagRow};
use newt_script::Command;
use newt_store_change::{Entry, StoreFault};
use newt_tags::TagTable;

/// That it was done.
pub(crate) fn done(found: Result<(), StoreFault>) -> Result<Reply, StoreFault>
    ensures { HandsOn (λ _. plain.Reply.done) found result }
{
    match found {
        Ok(()) => Ok(Reply::Done),
        Err(fault) => Err(fault),
    }
}

/// A signature, an id or a count.
pub(crate) fn numbered(found: Result<u32, StoreFault>) -> Result<Reply, StoreFault>
    ensures { HandsOn (λ n. plain.Reply.number n) found result }
{
    match found {
        Ok(number) => Ok(Reply::Number(number)),
        Err(fault) => Err(fault),
    }
}

/// The number of a cursor that was opened.
pub(crate) fn opened(found: Result<u8, StoreFault>) -> Result<Reply, StoreFault>
    ensures { HandsOn (λ n. plain.Reply.number n) found result }
{
    match found {
        Ok(cursor) => Ok(Reply::Number(u32::from(cursor))),
        Err(fault) => Err(fault),
    }
}

/// The words in which a command tells what it did to a store.
#[derive(Clone, Copy)]
pub(crate) enum Words {
    /// That it was done.
    Done,
    /// The signature or the id that was answered.
    Number,
    /// The unit and the id.
    Added,
}

/// In which words a command that changes a store tells what it did.
pub(crate) fn words_of(command: &Command) -> Words
    ensures { (effect : Did) → in_words result effect ≡ told_as command.now effect }
{
    match command {
        Command::Soup(_, _)
        | Command::Add(_, _, _)
        | Command::Addx(_, _, _)
        | Command::Copy(_, _, _, _, _)
        | Command::Move(_, _, _, _, _) => Words::Number,
        Command::Addu(_, _) => Words::Added,
        _ => Words::Done,
    }
}

/// The reply that tells in these words what was done to a store.
pub(crate) fn told(words: Words, effect: Effect) -> Reply
    ensures { said result ≡ in_words words effect }
{
    match words {
        Words::Done => Reply::Done,
        Words::Number => Reply::Number(effect.answer),
        Words::Added => Reply::Added(effect.unit, Uid(effect.answer)),
    }
}

/// An entry, its graph as a literal.
pub(crate) fn timed(found: Result<Entry, StoreFault>) -> Result<Reply, StoreFault>
    ensures { HandsOn (λ e. plain.Reply.timed e.time e.graph) found result }
{
    match found {
        Ok(Entry { time, graph, .. }) => Ok(Reply::Timed(time, graph)),
        Err(fault) => Err(fault),
    }
}

/// An entry, its graph as an object stream.
pub(crate) fn timed_nsof(found: Result<Entry, StoreFault>) -> Result<Reply, StoreFault>
    ensures { HandsOn (λ e. plain.Reply.timed_nsof e.time e.graph) found result }
{
    match found {
        Ok(Entry { time, graph, .. }) => Ok(Reply::TimedNsof(time, graph)),
        Err(fault) => Err(fault),
    }
}

/// Bytes.
pub(crate) fn hex(found: Result<Bytes, StoreFault>) -> Result<Reply, StoreFault>
    ensures { HandsOn (λ bytes. plain.Reply.hex bytes) found result }
{
    match found {
        Ok(bytes) => Ok(Reply::Hex(bytes)),
        Err(fault) => Err(fault),
    }
}

/// The soups of a store.
pub(crate) fn soup_rows(found: Result<SoupRows, StoreFault>) -> Result<Reply, StoreFault>
    ensures { HandsOn (λ rows. plain.Reply.soups (map soup_row rows)) found result }
{
    match found {
        Ok(rows) => Ok(Reply::Soups(rows)),
        Err(fault) => Err(fault),
    }
}

/// The indexes of a soup.
pub(crate) fn spec_rows(found: Result<SpecRows, StoreFault>) -> Result<Reply, StoreFault>
    ensures { HandsOn (λ specs. plain.Reply.indexes specs) found result }
{
    match found {
        Ok(specs) => Ok(Reply::Indexes(specs)),
        Err(fault) => Err(fault),
    }
}

/// The tags declaration of a soup.
pub(crate) fn tag_row(found: Result<Option<TagTable>, StoreFault>) -> Result<Reply, StoreFault>
    ensures { HandsOn (λ table. plain.Reply.tags table) found result }
{
    match found {
        Ok(table) => Ok(Reply::Tags(TagRow { table })),
        Err(fault) => Err(fault),
    }
}

/// A graph as a literal, or nil.
pub(crate) fn literal(found: Result<Option<Graph>, StoreFault>) -> Result<Reply, StoreFault>
    ensures { HandsOn (λ graph. or_nil plain.Reply.literal_of graph) found result }
{
    match found {
        Ok(Some(graph)) => Ok(Reply::Literal(graph)),
        Ok(None) => Ok(Reply::Nil),
        Err(fault) => Err(fault),
    }
}

/// The alias of the entry of this id, by the signatures of its store and soup.
pub(crate) fn alias_of(found: Result<(Sig, Sig), StoreFault>, uid: Uid) -> Result<Reply, StoreFault>
    ensures { HandsOn (λ x. plain.Reply.alias x.0 x.1 uid) found result }
{
    match found {
        Ok((store, soup)) => Ok(Reply::Alias(Alias { store, soup, uid })),
        Err(fault) => Err(fault),
    }
}

/// Where the entry of an alias is, or that there is none.
pub(crate) fn place(
    found: Result<Option<(Unit, Name, Uid)>, StoreFault>,
) -> Result<Reply, StoreFault>
    ensures { HandsOn (λ spot. or_nil (λ x. plain.Reply.where_is x.0 x.1 x.2) spot) found result }
{
    match found {
        Ok(Some((unit, soup, uid))) => Ok(Reply::Where(unit, soup, uid)),
        Ok(None) => Ok(Reply::Nil),
        Err(fault) => Err(fault),
    }
}

/// What a cursor shows.
pub(crate) fn shown(found: Result<Shown, StoreFault>) -> Result<Reply, StoreFault>
    ensures { HandsOn shown_reply found result }
{
    match found {
        Ok(shown) => Ok(shown_reply(shown)),
        Err(fault) => Err(fault),
    }
}

/// The reply that shows where a cursor stands.
fn shown_reply(shown: Shown) -> Reply
    ensures { said result ≡ shown_reply shown }
{
    match shown {
        Shown::Nil => Reply::Nil,
        Shown::Deleted => Reply::Deleted,
        Shown::Entry(unit, entry) => Reply::Current(unit, entry.uid, entry.time, entry.graph),
    }
}

/// The side of the hits on which a cursor stands.
pub(crate) fn sided(found: Result<Side, StoreFault>) -> Result<Reply, StoreFault>
    ensures { HandsOn side_reply found result }
{
    match found {
        Ok(Side::Begin) => Ok(Reply::Begin),
        Ok(Side::End) => Ok(Reply::End),
        Ok(Side::Nil) => Ok(Reply::Nil),
        Err(fault) => Err(fault),
    }
}
