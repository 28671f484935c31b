//! The places of a desk, with ample memory.

use crate::check::check;
use crate::keys::literal;
use crate::sorted::key;
use newt_base::{Name, Sig, Uid};
use newt_cursor::{Desk, DeskFault, Place, Query, Scope};
use newt_graph::Graph;
use newt_index::Spot;
use newt_keys::Part;
use newt_query::{Shape, Spec};
use std::alloc::Global;
use std::process::Abort;
use std::test::*;

/// What a frame asks of every entry.
fn spec_of(alloc: Global, graph: &Graph) -> Result<Spec, Fail> {
    let shape = Shape::read(alloc, graph).ok().ok_or("a query")?;
    Ok(
        shape
            .bind(alloc, graph, None)
            .ok()
            .ok_or("keys of the index")?,
    )
}

fn empty_spec(alloc: Global) -> Result<Spec, Fail> {
    spec_of(alloc, &literal(alloc, "{}")?)
}

/// A query over all soups of a name.
fn query(alloc: Global, name: &str) -> Result<Query, Fail> {
    let name = Name::read(alloc, name.as_bytes())?;
    Ok(Query {
        scope: Scope::All,
        name,
        spec: empty_spec(alloc)?,
    })
}

/// A place on an entry of this store, with this number as its key.
fn on(alloc: Global, number: i32, store: u32, uid: u32) -> Result<Place, Fail> {
    Ok(Place::On(Spot {
        key: key(alloc, number)?,
        store: Sig(store),
        soup: Sig(2),
        uid: Uid(uid),
    }))
}

/// The id of the entry that a cursor stands on, and the number that is its key.
fn shown(desk: &Desk, cursor: u8) -> Option<(u32, i32)> {
    match desk.place(cursor) {
        Some(Place::On(spot)) => match spot.key.list() {
            [Part::Int(number)] => Some((spot.uid.0, *number)),
            _ => None,
        },
        _ => None,
    }
}

fn opened(alloc: Global, desk: &mut Desk, name: &str, place: Place) -> Result<u8, Fail> {
    match desk.open(query(alloc, name)?, place) {
        Ok(cursor) => Ok(cursor),
        Err(_) => Err("a free place".into()),
    }
}

fn cloned(desk: &mut Desk, cursor: u8) -> Result<u8, Fail> {
    if let None = desk.query(cursor) {
        return Err("an open cursor".into());
    }
    match desk.clone_of(cursor) {
        Ok(clone) => Ok(clone),
        Err(_) => Err("a free place".into()),
    }
}

/// Which cursors stand on the entry of this id in soup 2 of store 1.
fn watchers(desk: &Desk, uid: u32) -> u32 {
    desk.watchers(Sig(1), Sig(2), Uid(uid))
}

/// A desk with 32 open cursors before all hits.
fn full(alloc: Global) -> Result<Desk, Fail> {
    let mut desk = Desk::new(alloc)?;
    for cursor in 0..32u8 {
        if desk.place(cursor).is_some() {
            return Err("a free place".into());
        }
        if opened(alloc, &mut desk, "Notes", Place::Start)? != cursor {
            return Err("the least free number".into());
        }
    }
    Ok(desk)
}

fn assert_start(rt: &impl Abort, desk: &Desk, cursor: u8) {
    assert!(rt;
        matches!(desk.place(cursor), Some(Place::Start)),
        "at {cursor}"
    );
}

/// Whether one cursor more is refused as one too many.
fn is_full(alloc: Global, desk: &mut Desk) -> Result<bool, Fail> {
    let query = query(alloc, "Dates")?;
    Ok(matches!(desk.open(query, Place::Finish), Err(DeskFault::Limit)))
}

fn refuse_the_33rd(rt: &impl Abort, alloc: Global, desk: &mut Desk) -> Result<(), Fail> {
    check(rt, is_full(alloc, desk)?, "one too many");
    for cursor in 0..32u8 {
        assert_start(rt, desk, cursor);
    }
    check(rt, desk.place(32).is_none(), "no place 32");
    Ok(())
}

#[test]
fn the_33rd_cursor_is_refused(rt: HostRuntime) -> Result<(), Fail> {
    let mut desk = full(rt.alloc())?;
    refuse_the_33rd(&rt, rt.alloc(), &mut desk)
}

/// Whether the query of a cursor is over the soups of this name.
fn is_over(desk: &Desk, cursor: u8, name: &[u8]) -> bool {
    match desk.query(cursor) {
        Some(query) => query.name.list() == name,
        None => false,
    }
}

fn close_and_open(rt: &impl Abort, alloc: Global, desk: &mut Desk) -> Result<(), Fail> {
    desk.close(20);
    desk.close(7);
    desk.close(32);
    check(rt, desk.query(7).is_none(), "7 is closed");
    let dates = opened(alloc, desk, "Dates", Place::Finish)?;
    check(rt, dates == 7, "the least number that is free");
    check(rt, cloned(desk, 7)? == 20, "and the next one");
    let is_after = matches!(desk.place(20), Some(Place::Finish));
    check(rt, is_after, "the place of the clone");
    check(rt, is_over(desk, 20, b"Dates"), "the query of the clone");
    Ok(())
}

#[test]
fn a_closed_number_is_taken_again(rt: HostRuntime) -> Result<(), Fail> {
    let mut desk = full(rt.alloc())?;
    close_and_open(&rt, rt.alloc(), &mut desk)
}

/// Opens a cursor on an entry of a store.
fn open_on(alloc: Global, desk: &mut Desk, store: u32, uid: u32) -> Result<(), Fail> {
    let place = on(alloc, 5, store, uid)?;
    opened(alloc, desk, "Notes", place)?;
    Ok(())
}

/// The first cursors take the key 8.
fn change_three(alloc: Global, desk: &mut Desk) -> Result<(), Fail> {
    for cursor in 0..3u8 {
        desk.changed(cursor, key(alloc, 8)?);
    }
    Ok(())
}

fn assert_shown(rt: &impl Abort, desk: &Desk, cursor: u8, want: (u32, i32)) {
    assert!(rt; shown(desk, cursor) == Some(want), "at {cursor}");
}

fn assert_watchers(rt: &impl Abort, desk: &Desk, uid: u32, want: u32) {
    assert!(rt; watchers(desk, uid) == want, "of {uid}");
}

fn change_and_step(rt: &impl Abort, alloc: Global, desk: &mut Desk) -> Result<(), Fail> {
    open_on(alloc, desk, 1, 3)?;
    opened(alloc, desk, "Notes", Place::Start)?;
    open_on(alloc, desk, 1, 3)?;
    open_on(alloc, desk, 1, 4)?;
    open_on(alloc, desk, 9, 3)?;
    assert_watchers(rt, desk, 3, 0b00101);
    change_three(alloc, desk)?;
    assert_shown(rt, desk, 0, (3, 8));
    assert_start(rt, desk, 1);
    assert_shown(rt, desk, 2, (3, 8));
    assert_shown(rt, desk, 3, (4, 5));
    desk.step(0, on(alloc, 5, 1, 4)?);
    assert_watchers(rt, desk, 3, 0b00100);
    assert_watchers(rt, desk, 4, 0b01001);
    check(rt, cloned(desk, 2)? == 5, "the clone");
    assert_watchers(rt, desk, 3, 0b100100);
    desk.step(5, Place::Finish);
    assert_shown(rt, desk, 2, (3, 8));
    Ok(())
}

#[test]
fn two_cursors_on_one_entry_take_its_key(rt: HostRuntime) -> Result<(), Fail> {
    let mut desk = Desk::new(rt.alloc())?;
    change_and_step(&rt, rt.alloc(), &mut desk)
}
