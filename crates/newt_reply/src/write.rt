//! The text of a reply.
ghost use Rattle.std.specs.Prelude.{◌≡◌, ◌∷◌, [], Some, IfOk};
ghost use Rattle.newt_spec_world.specs.Reply as spec;
ghost use Rattle.newt_reply.specs.Fields.{ok_text, written};
ghost use Rattle.newt_reply.specs.Said.{said};

use crate::declared::{names_line, path_text};
use crate::fields::{alias_literal, name_text, number_text, stream_text};
use crate::items::{soups_text, specs_text, stores_text};
use crate::line::{literal_line, ok_line};
use crate::notes::notes_text;
use crate::reply::Reply;
use crate::rows::TagRow;
use itoa::Buffer;
use newt_base::{Name, Refusal, Sig, Uid, hex_text};
use newt_graph::Graph;
use newt_host::Unit;
use newt_notify::Notes;
use newt_tags::TagTable;
use std::alloc::{AllocError, Global};

/// `error`, the number and the word of a refusal.
fn error_line(alloc: Global, refusal: Refusal) -> Result<Vec<u8>, AllocError>
    ensures { IfOk result (λ line. line.items ≡ written (spec.refused refusal)) }
{
    let number = refusal.number();
    let word = refusal.word();
    Ok(format!(in alloc; "error {number} {word}\n")?.into_bytes())
}

/// `error`, the number and the word of a device that failed, and its unit.
fn thrown_line(alloc: Global, unit: Unit) -> Result<Vec<u8>, AllocError>
    ensures { IfOk result (λ line. line.items ≡ written (spec.thrown unit)) }
{
    let unit = unit.0;
    Ok(format!(in alloc; "error 50 device {unit}\n")?.into_bytes())
}

/// `error`, the number and the word of the refusal, and the minute of the entry that has changed.
fn changed_line(alloc: Global, time: u32) -> Result<Vec<u8>, AllocError>
    ensures { IfOk result (λ line. line.items ≡ written (spec.changed time)) }
{
    let number = Refusal::Changed.number();
    let word = Refusal::Changed.word();
    Ok(format!(in alloc; "error {number} {word} {time}\n")?.into_bytes())
}

/// The number of notes that were lost, and the notes that were kept.
#[tactic(auto, using(crate::proofs::Noted::notes_text))]
fn notes_line(alloc: Global, notes: &Notes) -> Result<Vec<u8>, AllocError>
    ensures { IfOk result (λ line. line.items
        ≡ written (spec.notes notes.now.lost notes.now.list)) }
{
    let lost = number_text(alloc, notes.lost)?;
    let list = notes_text(alloc, notes.list.list())?;
    ok_line(alloc, &[lost.as_slice(), list.as_slice()])
}

/// A unit and the id of an entry.
#[tactic(auto, using(crate::proofs::Written::added_text))]
fn added_line(alloc: Global, unit: Unit, uid: Uid) -> Result<Vec<u8>, AllocError>
    ensures { IfOk result (λ line. line.items ≡ written (spec.added unit uid)) }
{
    let (mut of_unit, mut of_uid) = (Buffer::new(), Buffer::new());
    let unit = of_unit.format(u32::from(unit.0)).as_bytes();
    let uid = of_uid.format(uid.0).as_bytes();
    ok_line(alloc, &[unit, uid])
}

/// The signature and the name of a store.
#[tactic(auto, using(crate::proofs::Written::store_text))]
fn store_line(alloc: Global, sig: Sig, name: &Name) -> Result<Vec<u8>, AllocError>
    ensures { IfOk result (λ line. line.items ≡ written (spec.store sig name.now)) }
{
    let sig = number_text(alloc, sig.0)?;
    let name = name_text(alloc, name)?;
    ok_line(alloc, &[sig.as_slice(), name.as_slice()])
}

/// The minute of an entry, and its graph as a literal.
#[tactic(auto, using(crate::proofs::Written::timed_text))]
fn timed_line(alloc: Global, time: u32, graph: &Graph) -> Result<Vec<u8>, AllocError>
    ensures { IfOk result (λ line. line.items ≡ written (spec.timed time graph.now)) }
{
    let mut of_time = Buffer::new();
    literal_line(alloc, &[of_time.format(time).as_bytes()], graph)
}

/// The minute of an entry, and the hexadecimal digits of its graph.
#[tactic(auto, using(crate::proofs::Written::timed_nsof_text))]
fn timed_stream_line(alloc: Global, time: u32, graph: &Graph) -> Result<Vec<u8>, AllocError>
    ensures { IfOk result (λ line. line.items ≡ written (spec.timed_nsof time graph.now)) }
{
    let time = number_text(alloc, time)?;
    let digits = stream_text(alloc, graph)?;
    ok_line(alloc, &[time.as_slice(), digits.as_slice()])
}

/// The unit, soup and id of an entry.
#[tactic(auto, using(crate::proofs::Written::where_text))]
fn where_line(alloc: Global, unit: Unit, name: &Name, uid: Uid) -> Result<Vec<u8>, AllocError>
    ensures { IfOk result (λ line. line.items ≡ written (spec.where_is unit name.now uid)) }
{
    let unit = number_text(alloc, u32::from(unit.0))?;
    let name = name_text(alloc, name)?;
    let uid = number_text(alloc, uid.0)?;
    ok_line(alloc, &[unit.as_slice(), name.as_slice(), uid.as_slice()])
}

/// The unit, id and minute of an entry, and its graph as a literal.
#[tactic(auto, using(crate::proofs::Written::current_text))]
fn current_line(
    alloc: Global,
    unit: Unit,
    uid: Uid,
    time: u32,
    graph: &Graph,
) -> Result<Vec<u8>, AllocError>
    ensures { IfOk result (λ line. line.items ≡ written (spec.current unit uid time graph.now)) }
{
    let (mut of_unit, mut of_uid, mut of_time) = (Buffer::new(), Buffer::new(), Buffer::new());
    let unit = of_unit.format(u32::from(unit.0)).as_bytes();
    let uid = of_uid.format(uid.0).as_bytes();
    let time = of_time.format(time).as_bytes();
    literal_line(alloc, &[unit, uid, time], graph)
}

/// `ok` and one field.
fn one_field(alloc: Global, field: &[u8]) -> Result<Vec<u8>, AllocError>
    ensures { IfOk result (λ line. line.items ≡ ok_text (field.now ∷ [])) }
{
    ok_line(alloc, &[field])
}

/// The path and the symbols of a tags declaration.
#[tactic(auto, using(crate::proofs::Written::tags_text))]
fn table_line(alloc: Global, table: &TagTable) -> Result<Vec<u8>, AllocError>
    ensures { IfOk result (λ line. line.items ≡ written (spec.tags (Some table.now))) }
{
    let path = path_text(alloc, table.path())?;
    names_line(alloc, &path, table.symbols())
}

/// The tags declaration of a soup; no fields where there is none.
#[tactic(auto, using(crate::proofs::Written::no_tags_text))]
fn tags_line(alloc: Global, row: &TagRow) -> Result<Vec<u8>, AllocError>
    ensures { IfOk result (λ line. line.items ≡ written (spec.tags row.now.table)) }
{
    match &row.table {
        Some(table) => table_line(alloc, table),
        None => one_field(alloc, b""),
    }
}

/// The line of a reply.
#[tactic(auto, using(crate::proofs::Written::done_text, crate::proofs::Written::deleted_text, crate::proofs::Written::nil_text, crate::proofs::Written::begin_text, crate::proofs::Written::end_text, crate::proofs::Written::number_text, crate::proofs::Written::stores_text, crate::proofs::Written::soups_text, crate::proofs::Written::specs_text, crate::proofs::Written::bytes_text, crate::proofs::Written::nsof_text, crate::proofs::Written::literal_text, crate::proofs::Written::alias_text))]
fn line_of(alloc: Global, reply: &Reply) -> Result<Vec<u8>, AllocError>
    ensures { IfOk result (λ line. line.items ≡ written (said reply.now)) }
{
    match reply {
        Reply::Done => one_field(alloc, b""),
        Reply::Number(number) => one_field(alloc, &number_text(alloc, *number)?),
        Reply::Added(unit, uid) => added_line(alloc, *unit, *uid),
        Reply::Store(sig, name) => store_line(alloc, *sig, name),
        Reply::Stores(lines) => one_field(alloc, &stores_text(alloc, lines.list())?),
        Reply::Soups(lines) => one_field(alloc, &soups_text(alloc, lines.list())?),
        Reply::Indexes(specs) => one_field(alloc, &specs_text(alloc, specs.list())?),
        Reply::Tags(row) => tags_line(alloc, row),
        Reply::Hex(bytes) => one_field(alloc, &hex_text(alloc, bytes.list())?),
        Reply::Nsof(graph) => one_field(alloc, &stream_text(alloc, graph)?),
        Reply::Literal(graph) => literal_line(alloc, &[], graph),
        Reply::Timed(time, graph) => timed_line(alloc, *time, graph),
        Reply::TimedNsof(time, graph) => timed_stream_line(alloc, *time, graph),
        Reply::Alias(alias) => one_field(alloc, &alias_literal(alloc, *alias)?),
        Reply::Where(unit, name, uid) => where_line(alloc, *unit, name, *uid),
        Reply::Current(unit, uid, time, graph) => current_line(alloc, *unit, *uid, *time, graph),
        Reply::Deleted => one_field(alloc, b"deleted"),
        Reply::Nil => one_field(alloc, b"nil"),
        Reply::Begin => one_field(alloc, b"begin"),
        Reply::End => one_field(alloc, b"end"),
        Reply::Notes(notes) => notes_line(alloc, notes),
        Reply::Changed(time) => changed_line(alloc, *time),
        Reply::Refused(refusal) => error_line(alloc, *refusal),
        Reply::Thrown(unit) => thrown_line(alloc, *unit),
    }
}

/// The line of a reply, with the byte 10 at its end. The texts of replies are this project's own.
#[tactic(auto, unfolding(crate::specs::Fields::written))]
pub fn write_reply(alloc: Global, reply: &Reply) -> Result<Vec<u8>, AllocError>
    ensures { IfOk result (λ line. line.items ≡ spec.reply_text (said reply.now)) }
{
    line_of(alloc, reply)
}
