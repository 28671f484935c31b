//! Replies, and their lines.
ghost use Rattle.std.specs.Prelude.{◌≡◌, ◌∷◌, [], IfOk};

use crate::rows::sides;
use newt_base::{Name, Refusal, Sig, Uid, hex_read};
use newt_graph::Bytes;
use newt_host::Unit;
use newt_keys::{IndexPart, IndexSpec};
use newt_lit_read::read_literal;
use newt_notify::{Kind as Noted, Note, NoteList, Notes};
use newt_path::Path;
use newt_reply::{
    Alias, Reply, SoupLine, SoupRows, SpecRows, StoreLine, StoreRows, TagRow, write_reply,
};
use newt_spec_store::{Kind, Order};
use newt_tags::TagTable;
use std::alloc::{AllocError, Global};
use std::test::Fail;

/// The number that a text begins with, and what follows it.
fn number(text: &str) -> (u32, &str) {
    let (word, rest) = text.split_once(' ').unwrap_or((text, ""));
    (word.parse().unwrap_or(0), rest)
}

fn unit(number: u32) -> Unit {
    Unit((number % 256) as u8)
}

fn name(alloc: Global, text: &str) -> Result<Name, Fail> {
    Ok(Name::read(alloc, text.as_bytes())?)
}

fn store_line(alloc: Global, item: &str) -> Result<StoreLine, Fail> {
    let (place, rest) = number(item);
    let (sig, text) = number(rest);
    let name = name(alloc, text)?;
    Ok(StoreLine {
        unit: unit(place),
        sig: Sig(sig),
        name,
    })
}

/// The stores of a list with commas between its items.
fn stores(alloc: Global, text: &str) -> Result<StoreRows, Fail> {
    let mut lines = Vec::new(alloc);
    for item in text.split_terminator(", ") {
        let Ok(()) = lines.push(store_line(alloc, item)?) else {
            return Err(Fail::new("memory"));
        };
    }
    Ok(StoreRows::of(lines))
}

fn soup_line(alloc: Global, item: &str) -> Result<SoupLine, Fail> {
    let (sig, rest) = number(item);
    let (count, text) = number(rest);
    let name = name(alloc, text)?;
    Ok(SoupLine {
        name,
        sig: Sig(sig),
        count,
    })
}

/// The soups of a list with commas between its items.
fn soups(alloc: Global, text: &str) -> Result<SoupRows, Fail> {
    let mut lines = Vec::new(alloc);
    for item in text.split_terminator(", ") {
        let Ok(()) = lines.push(soup_line(alloc, item)?) else {
            return Err(Fail::new("memory"));
        };
    }
    Ok(SoupRows::of(lines))
}

/// The path `a.B`.
fn path(alloc: Global) -> Result<Path, AllocError>
    ensures { IfOk result (λ path. path ≡ (97 ∷ []) ∷ (66 ∷ []) ∷ []) }
{
    let first = Bytes::of(vec![in alloc; b'a']?);
    let second = Bytes::of(vec![in alloc; b'B']?);
    Ok(Path::of(vec![in alloc; first, second]?))
}

/// A part of an index at the path `a.B`.
fn part(alloc: Global, kind: Kind, order: Order) -> Result<IndexPart, AllocError>
    ensures { IfOk result (λ part. part ≡ record {
      path = (97 ∷ []) ∷ (66 ∷ []) ∷ [];
      kind = kind;
      order = order;
    }) }
{
    let path = path(alloc)?;
    Ok(IndexPart { path, kind, order })
}

/// An index of one part.
fn one_part(alloc: Global) -> Result<IndexSpec, AllocError> {
    let text = part(alloc, Kind::Text, Order::Ascend)?;
    Ok(IndexSpec::new(vec![in alloc; text]?))
}

/// An index of three parts.
fn three_parts(alloc: Global) -> Result<IndexSpec, AllocError> {
    let number = part(alloc, Kind::Int, Order::Descend)?;
    let character = part(alloc, Kind::Char, Order::Ascend)?;
    let symbol = part(alloc, Kind::Symbol, Order::Descend)?;
    Ok(IndexSpec::new(vec![in alloc; number, character, symbol]?))
}

/// The tags `x` and `Y` at the path `a.B`.
fn two_tags(alloc: Global) -> Result<TagTable, AllocError> {
    let path = path(alloc)?;
    let first = Bytes::of(vec![in alloc; b'x']?);
    let second = Bytes::of(vec![in alloc; b'Y']?);
    Ok(TagTable::new(path, vec![in alloc; first, second]?))
}

/// The indexes of a word: none of them, or two.
fn indexes(alloc: Global, text: &str) -> Result<SpecRows, AllocError> {
    let specs = match text {
        "none" => Vec::new(alloc),
        _ => vec![in alloc; one_part(alloc)?, three_parts(alloc)?]?,
    };
    Ok(SpecRows::of(specs))
}

/// The tags of a word: none of them, or two.
fn tags(alloc: Global, text: &str) -> Result<TagRow, AllocError> {
    let table = match text {
        "none" => None,
        _ => Some(two_tags(alloc)?),
    };
    Ok(TagRow { table })
}

fn note(kind: Noted, place: u8, uid: u32) -> Note {
    Note {
        kind,
        unit: Unit(place),
        soup: Sig(7),
        uid: Uid(uid),
    }
}

/// The notes of a word: none of them, or one of each kind.
fn notes(alloc: Global, text: &str) -> Result<NoteList, AllocError> {
    let notes = match text {
        "none" => Vec::new(alloc),
        _ => vec![in alloc;
            note(Noted::Make, 0, 0),
            note(Noted::Add, 1, 4294967295),
            note(Noted::Change, 1, 2),
            note(Noted::Remove, 1, 2),
            note(Noted::Gone, 0, 0),
        ]?,
    };
    Ok(NoteList::of(notes))
}

/// A reply with a graph and with up to three numbers before it.
fn reply_of_graph(alloc: Global, word: &str, rest: &str) -> Result<Reply, Fail> {
    let (first, after) = number(rest);
    match word {
        "literal" => Ok(Reply::Literal(read_literal(alloc, rest)?)),
        "nsof" => Ok(Reply::Nsof(read_literal(alloc, rest)?)),
        "timed" => Ok(Reply::Timed(first, read_literal(alloc, after)?)),
        "timednsof" => Ok(Reply::TimedNsof(first, read_literal(alloc, after)?)),
        "current" => {
            let (uid, after) = number(after);
            let (minute, text) = number(after);
            let graph = read_literal(alloc, text)?;
            Ok(Reply::Current(unit(first), Uid(uid), minute, graph))
        }
        _ => Err(Fail::new(format_args!("no reply: {word}"))),
    }
}

/// A reply with names, bytes, declarations or notes.
fn reply_of_names(alloc: Global, word: &str, rest: &str) -> Result<Reply, Fail> {
    let (first, after) = number(rest);
    match word {
        "hex" => Ok(Reply::Hex(Bytes::of(hex_read(alloc, rest.as_bytes())?))),
        "store" => Ok(Reply::Store(Sig(first), name(alloc, after)?)),
        "where" => {
            let (uid, text) = number(after);
            let soup = name(alloc, text)?;
            Ok(Reply::Where(unit(first), soup, Uid(uid)))
        }
        "stores" => Ok(Reply::Stores(stores(alloc, rest)?)),
        "soups" => Ok(Reply::Soups(soups(alloc, rest)?)),
        "indexes" => Ok(Reply::Indexes(indexes(alloc, rest)?)),
        "tags" => Ok(Reply::Tags(tags(alloc, rest)?)),
        "notes" => Ok(Reply::Notes(Notes {
            lost: first,
            list: notes(alloc, after)?,
        })),
        _ => reply_of_graph(alloc, word, rest),
    }
}

fn alias(text: &str) -> Alias {
    let (store, rest) = number(text);
    let (soup, rest) = number(rest);
    let (uid, _) = number(rest);
    Alias {
        store: Sig(store),
        soup: Sig(soup),
        uid: Uid(uid),
    }
}

/// The reply of a row: its name, its numbers and its text.
fn reply(alloc: Global, text: &str) -> Result<Reply, Fail> {
    let (word, rest) = text.split_once(' ').unwrap_or((text, ""));
    let (first, after) = number(rest);
    match word {
        "done" => Ok(Reply::Done),
        "nil" => Ok(Reply::Nil),
        "deleted" => Ok(Reply::Deleted),
        "begin" => Ok(Reply::Begin),
        "end" => Ok(Reply::End),
        "full" => Ok(Reply::Refused(Refusal::Full)),
        "changed" => Ok(Reply::Changed(first)),
        "thrown" => Ok(Reply::Thrown(unit(first))),
        "number" => Ok(Reply::Number(first)),
        "added" => Ok(Reply::Added(unit(first), Uid(number(after).0))),
        "alias" => Ok(Reply::Alias(alias(rest))),
        _ => reply_of_names(alloc, word, rest),
    }
}

/// Looks for the line of a reply.
fn expect_line(alloc: Global, text: &str, wanted: &str) -> Result<(), Fail> {
    let line = write_reply(alloc, &reply(alloc, text)?)?;
    if line.strip_suffix(b"\n") != Some(wanted.as_bytes()) {
        return Err(Fail::new(format_args!("another line: {text}")));
    }
    Ok(())
}

/// Looks for the line of each reply. A row is a reply and, after ` => `, its line.
fn expect_each(alloc: Global, table: &str) -> Result<(), Fail> {
    for row in table.lines() {
        if let Some((text, wanted)) = sides(row)? {
            expect_line(alloc, text, wanted)?;
        }
    }
    Ok(())
}

const REPLIES: &str = "
# Numbers and words.
done => ok
nil => ok nil
number 4294967295 => ok 4294967295
added 3 0 => ok 3 0
alias 536870911 0 12 => ok [alias: 536870911, 0, 12]
full => error 33 full
changed 77 => error 45 changed 77
thrown 0 => error 50 device 0
thrown 7 => error 50 device 7
# Names.
store 7 Internal => ok 7 Internal
store 9 A \"b\" \\ => ok 9 \"A \\\"b\\\" \\\\\"
where 0 1 To Do => ok 0 \"To Do\" 1
# Graphs.
literal {a: 1} => ok {a: 1}
nsof {a: 1} => ok 0206010701610004
timed 77 {a: 1} => ok 77 {a: 1}
timednsof 0 {a: 1} => ok 0 0206010701610004
# Bytes.
hex => ok
hex 00414200 => ok 00414200
hex FF0AAB => ok FF0AAB
# Cursors.
current 7 0 4294967295 {a: 1} => ok 7 0 4294967295 {a: 1}
deleted => ok deleted
begin => ok begin
end => ok end
# Stores and soups.
stores => ok
stores 0 7 Internal, 2 9 My Card => ok 0 7 Internal, 2 9 \"My Card\"
soups => ok
soups 0 2 Names, 1 0 To Do, 64 10 Cards => ok Names 0 2, \"To Do\" 1 0, Cards 64 10
# Indexes and tags.
indexes none => ok
indexes two => ok a.B:string:ascend, a.B:int:descend a.B:char:ascend a.B:symbol:descend
tags none => ok
tags two => ok a.B x Y
# Notes.
notes 0 none => ok 0
notes 3 each => ok 3 make 0 7, add 1 7 4294967295, change 1 7 2, remove 1 7 2, drop 0 7
";

#[test]
fn writes_each_reply(rt: HostRuntime) -> Result<(), Fail> {
    expect_each(rt.alloc(), REPLIES)
}
