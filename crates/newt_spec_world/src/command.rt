//! The commands of a script.

use crate::list::{Parts, Syms};
use newt_base::{Name, Sig, Uid};
use newt_graph::{Bytes, Graph};
use newt_host::Unit;
use newt_path::{Path, Paths};
use newt_spec_store::{Kind, Order};

/// A part of an index declaration as it is written. Its kind is none for the type `real`.
#[derive(Drop)]
pub struct PartWord {
    pub path: Path,
    pub kind: Option<Kind>,
    pub order: Order,
}

/// A command of a script: a variant for each row of the table of commands, with its words in their
/// order. The commands are this project's own.
#[derive(Drop)]
pub enum Command {
    Nsof(Graph),
    Lit(Graph),
    Time(u32),
    Quit,
    Format(Unit, Name, Sig),
    Mount(Unit),
    Unmount(Unit),
    Stores,
    Default(Unit),
    Soup(Unit, Name),
    Soups(Unit),
    Drop(Unit, Name),
    Add(Unit, Name, Graph),
    Addx(Unit, Name, Graph),
    Addu(Name, Graph),
    Get(Unit, Name, Uid),
    Getx(Unit, Name, Uid),
    Remove(Unit, Name, Uid),
    Copy(Unit, Name, Uid, Unit, Name),
    Move(Unit, Name, Uid, Unit, Name),
    Alias(Unit, Name, Uid),
    Resolve(Graph),
    Set(Unit, Name, Uid, Path, Graph),
    Change(Unit, Name, Uid, Graph),
    Index(Unit, Name, Parts),
    Unindex(Unit, Name, Paths),
    Indexes(Unit, Name),
    Tags(Unit, Name),
    SetTags(Unit, Name, Path, Syms),
    Info(Unit, Name),
    SetInfo(Unit, Name, Graph),
    Query(Unit, Name, Graph),
    QueryAll(Name, Graph),
    Entry(u8),
    Next(u8),
    Prev(u8),
    Reset(u8),
    End(u8),
    Moveby(u8, i32),
    Goto(u8, Unit, Uid),
    Gotokey(u8, Graph),
    Count(u8),
    Which(u8),
    Clone(u8),
    Close(u8),
    Vread(Unit, Name, Uid, Path, u32, u32),
    Vwrite(Unit, Name, Uid, Path, u32, Bytes),
    Watch(Name, u32),
    Notes(u8),
    Unwatch(u8),
    Open(Unit, Name, Uid),
    Draft(u8),
    Edit(u8, Path, Graph),
    Save(u8),
    Revert(u8),
    Discard(u8),
}
