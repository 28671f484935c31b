//! What a line gives, in words. Where memory is refused for some of it, that is missing, and the
//! words are others than are wanted.

use newt_base::{Name, Refusal, Uid};
use newt_graph::Graph;
use newt_host::Unit;
use newt_lit_print::print_literal;
use newt_path::Path;
use newt_script::{Command, LineFault, line};
use newt_spec_store::{Kind, Order};
use newt_spec_world::PartWord;
use std::alloc::Global;

fn push(to: &mut Vec<u8>, text: &[u8]) {
    let _ = to.extend_from_slice(text);
}

fn push_word(to: &mut Vec<u8>, word: &str) {
    push(to, b" ");
    push(to, word.as_bytes());
}

fn push_number(alloc: Global, to: &mut Vec<u8>, number: i64) {
    if let Ok(text) = format!(in alloc; " {number}") {
        push(to, text.as_bytes());
    }
}

fn push_name(to: &mut Vec<u8>, name: &Name) {
    push(to, b" <");
    push(to, name.list());
    push(to, b">");
}

/// The names of a path, with a point before each.
fn push_path(to: &mut Vec<u8>, path: &Path) {
    push(to, b" ");
    for name in path.list() {
        push(to, b".");
        push(to, name.list());
    }
}

fn push_graph(alloc: Global, to: &mut Vec<u8>, graph: &Graph) {
    push(to, b" ");
    if let Ok(printed) = print_literal(alloc, graph) {
        push(to, &printed);
    }
}

fn push_unit(alloc: Global, to: &mut Vec<u8>, word: &str, unit: Unit) {
    push(to, word.as_bytes());
    push_number(alloc, to, i64::from(unit.0));
}

fn push_soup(alloc: Global, to: &mut Vec<u8>, word: &str, unit: Unit, name: &Name) {
    push_unit(alloc, to, word, unit);
    push_name(to, name);
}

fn push_entry(alloc: Global, to: &mut Vec<u8>, word: &str, unit: Unit, name: &Name, uid: Uid) {
    push_soup(alloc, to, word, unit, name);
    push_number(alloc, to, i64::from(uid.0));
}

/// A command on the cursor, the watch or the working copy of a number.
fn push_numbered(alloc: Global, to: &mut Vec<u8>, word: &str, number: u8) {
    push(to, word.as_bytes());
    push_number(alloc, to, i64::from(number));
}

/// A command on stores and soups, or on none.
fn push_command(alloc: Global, to: &mut Vec<u8>, command: &Command) {
    match command {
        Command::Nsof(graph) => {
            push(to, b"nsof");
            push_graph(alloc, to, graph);
        }
        Command::Lit(graph) => {
            push(to, b"lit");
            push_graph(alloc, to, graph);
        }
        Command::Time(minute) => {
            push(to, b"time");
            push_number(alloc, to, i64::from(*minute));
        }
        Command::Quit => push(to, b"quit"),
        Command::Format(unit, name, sig) => {
            push_soup(alloc, to, "format", *unit, name);
            push_number(alloc, to, i64::from(sig.0));
        }
        Command::Mount(unit) => push_unit(alloc, to, "mount", *unit),
        Command::Unmount(unit) => push_unit(alloc, to, "unmount", *unit),
        Command::Stores => push(to, b"stores"),
        Command::Default(unit) => push_unit(alloc, to, "default", *unit),
        Command::Soup(unit, name) => push_soup(alloc, to, "soup", *unit, name),
        Command::Soups(unit) => push_unit(alloc, to, "soups", *unit),
        Command::Drop(unit, name) => push_soup(alloc, to, "drop", *unit, name),
        _ => push_of_entries(alloc, to, command),
    }
}

/// A command on entries.
fn push_of_entries(alloc: Global, to: &mut Vec<u8>, command: &Command) {
    match command {
        Command::Add(unit, name, graph) => {
            push_soup(alloc, to, "add", *unit, name);
            push_graph(alloc, to, graph);
        }
        Command::Addx(unit, name, graph) => {
            push_soup(alloc, to, "addx", *unit, name);
            push_graph(alloc, to, graph);
        }
        Command::Addu(name, graph) => {
            push(to, name.list());
            push_graph(alloc, to, graph);
        }
        Command::Get(unit, name, uid) => push_entry(alloc, to, "get", *unit, name, *uid),
        Command::Getx(unit, name, uid) => push_entry(alloc, to, "getx", *unit, name, *uid),
        Command::Set(unit, name, uid, path, graph) => {
            push_entry(alloc, to, "set", *unit, name, *uid);
            push_path(to, path);
            push_graph(alloc, to, graph);
        }
        Command::Change(unit, name, uid, graph) => {
            push_entry(alloc, to, "change", *unit, name, *uid);
            push_graph(alloc, to, graph);
        }
        _ => push_of_places(alloc, to, command),
    }
}

/// A command that takes an entry away, or tells where it is.
fn push_of_places(alloc: Global, to: &mut Vec<u8>, command: &Command) {
    match command {
        Command::Remove(unit, name, uid) => push_entry(alloc, to, "remove", *unit, name, *uid),
        Command::Copy(unit, name, uid, other, soup) => {
            push_entry(alloc, to, "copy", *unit, name, *uid);
            push_soup(alloc, to, " to", *other, soup);
        }
        Command::Move(unit, name, uid, other, soup) => {
            push_entry(alloc, to, "move", *unit, name, *uid);
            push_soup(alloc, to, " to", *other, soup);
        }
        Command::Alias(unit, name, uid) => push_entry(alloc, to, "alias", *unit, name, *uid),
        Command::Resolve(graph) => {
            push(to, b"resolve");
            push_graph(alloc, to, graph);
        }
        _ => push_of_declarations(alloc, to, command),
    }
}

fn kind_text(kind: Option<Kind>) -> &'static str {
    match kind {
        None => "real",
        Some(Kind::Text) => "string",
        Some(Kind::Int) => "int",
        Some(Kind::Char) => "char",
        Some(Kind::Symbol) => "symbol",
    }
}

fn order_text(order: Order) -> &'static str {
    match order {
        Order::Ascend => "up",
        Order::Descend => "down",
    }
}

fn push_parts(to: &mut Vec<u8>, parts: &[PartWord]) {
    for part in parts {
        push_path(to, &part.path);
        push_word(to, kind_text(part.kind));
        push_word(to, order_text(part.order));
    }
}

/// A command on the indexes and tags of a soup.
fn push_of_declarations(alloc: Global, to: &mut Vec<u8>, command: &Command) {
    match command {
        Command::Index(unit, name, parts) => {
            push_soup(alloc, to, "index", *unit, name);
            push_parts(to, parts.list());
        }
        Command::Unindex(unit, name, paths) => {
            push_soup(alloc, to, "unindex", *unit, name);
            for path in paths.list() {
                push_path(to, path);
            }
        }
        Command::Indexes(unit, name) => push_soup(alloc, to, "indexes", *unit, name),
        Command::Tags(unit, name) => push_soup(alloc, to, "tags", *unit, name),
        Command::SetTags(unit, name, path, symbols) => {
            push_soup(alloc, to, "tags", *unit, name);
            push_path(to, path);
            for symbol in symbols.list() {
                push(to, b" ");
                push(to, symbol.list());
            }
        }
        Command::Info(unit, name) => push_soup(alloc, to, "info", *unit, name),
        Command::SetInfo(unit, name, graph) => {
            push_soup(alloc, to, "info", *unit, name);
            push_graph(alloc, to, graph);
        }
        _ => push_of_cursors(alloc, to, command),
    }
}

/// A command that makes a cursor, tells of one, or ends one.
fn push_of_cursors(alloc: Global, to: &mut Vec<u8>, command: &Command) {
    match command {
        Command::Query(unit, name, graph) => {
            push_soup(alloc, to, "query", *unit, name);
            push_graph(alloc, to, graph);
        }
        Command::QueryAll(name, graph) => {
            push(to, b"query all");
            push_name(to, name);
            push_graph(alloc, to, graph);
        }
        Command::Entry(cursor) => push_numbered(alloc, to, "entry", *cursor),
        Command::Count(cursor) => push_numbered(alloc, to, "count", *cursor),
        Command::Which(cursor) => push_numbered(alloc, to, "which", *cursor),
        Command::Clone(cursor) => push_numbered(alloc, to, "clone", *cursor),
        Command::Close(cursor) => push_numbered(alloc, to, "close", *cursor),
        _ => push_of_moves(alloc, to, command),
    }
}

/// A command that moves a cursor.
fn push_of_moves(alloc: Global, to: &mut Vec<u8>, command: &Command) {
    match command {
        Command::Next(cursor) => push_numbered(alloc, to, "next", *cursor),
        Command::Prev(cursor) => push_numbered(alloc, to, "prev", *cursor),
        Command::Reset(cursor) => push_numbered(alloc, to, "reset", *cursor),
        Command::End(cursor) => push_numbered(alloc, to, "end", *cursor),
        Command::Moveby(cursor, steps) => {
            push_numbered(alloc, to, "moveby", *cursor);
            push(to, b" by");
            push_number(alloc, to, i64::from(*steps));
        }
        Command::Goto(cursor, unit, uid) => {
            push_numbered(alloc, to, "goto", *cursor);
            push_unit(alloc, to, " at", *unit);
            push_number(alloc, to, i64::from(uid.0));
        }
        Command::Gotokey(cursor, graph) => {
            push_numbered(alloc, to, "gotokey", *cursor);
            push_graph(alloc, to, graph);
        }
        _ => push_of_bytes(alloc, to, command),
    }
}

/// A command on the bytes of a large binary.
fn push_of_bytes(alloc: Global, to: &mut Vec<u8>, command: &Command) {
    match command {
        Command::Vread(unit, name, uid, path, at, length) => {
            push_entry(alloc, to, "vread", *unit, name, *uid);
            push_path(to, path);
            push(to, b" from");
            push_number(alloc, to, i64::from(*at));
            push(to, b" for");
            push_number(alloc, to, i64::from(*length));
        }
        Command::Vwrite(unit, name, uid, path, at, bytes) => {
            push_entry(alloc, to, "vwrite", *unit, name, *uid);
            push_path(to, path);
            push(to, b" from");
            push_number(alloc, to, i64::from(*at));
            push(to, b":");
            for byte in bytes.list() {
                push_number(alloc, to, i64::from(*byte));
            }
        }
        _ => push_of_wholes(alloc, to, command),
    }
}

/// A command on a watch or a working copy.
fn push_of_wholes(alloc: Global, to: &mut Vec<u8>, command: &Command) {
    match command {
        Command::Watch(name, most) => {
            push(to, b"watch");
            push_name(to, name);
            push_number(alloc, to, i64::from(*most));
        }
        Command::Notes(watch) => push_numbered(alloc, to, "notes", *watch),
        Command::Unwatch(watch) => push_numbered(alloc, to, "unwatch", *watch),
        Command::Open(unit, name, uid) => push_entry(alloc, to, "open", *unit, name, *uid),
        Command::Draft(copy) => push_numbered(alloc, to, "draft", *copy),
        Command::Edit(copy, path, graph) => {
            push_numbered(alloc, to, "edit", *copy);
            push_path(to, path);
            push_graph(alloc, to, graph);
        }
        Command::Save(copy) => push_numbered(alloc, to, "save", *copy),
        Command::Revert(copy) => push_numbered(alloc, to, "revert", *copy),
        Command::Discard(copy) => push_numbered(alloc, to, "discard", *copy),
        _ => push(to, b"another command"),
    }
}

fn push_refusal(alloc: Global, to: &mut Vec<u8>, refusal: Refusal) {
    let number = refusal.number();
    let word = refusal.word();
    if let Ok(text) = format!(in alloc; "{number} {word}") {
        push(to, text.as_bytes());
    }
}

/// The command of a line, or its refusal, or that it gives none.
pub(crate) fn told(alloc: Global, bytes: &[u8]) -> Vec<u8> {
    let mut text = Vec::new(alloc);
    match line(alloc, bytes) {
        Ok(None) => push(&mut text, b"none"),
        Ok(Some(command)) => push_command(alloc, &mut text, &command),
        Err(LineFault::Refused(refusal)) => push_refusal(alloc, &mut text, refusal),
        Err(LineFault::Memory) => push(&mut text, b"memory"),
    }
    text
}
