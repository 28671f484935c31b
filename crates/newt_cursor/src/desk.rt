//! The 32 places for cursors.
ghost use Rattle.std.specs.Prelude.{◌≡◌, ◌<◌, ◌^◌, ◌↔◌, Some, None, IsSome, IfSome, IfOk};
ghost use Rattle.std.specs.Prelude.{IfErr, IsErrOf, OnErr, length, map, option_map, is_none};
ghost use Rattle.std.specs.Prelude.{replicate, slice_get, slice_set};
ghost use Rattle.std.specs.List.{position};
ghost use Rattle.newt_spec_world.specs.World.{change_at, flat};
ghost use Rattle.newt_tags.specs.Masks.{number};
ghost use Rattle.newt_cursor.specs.Seen.{query_of, place_of, cursor_of, cursors_of};
ghost use Rattle.newt_spec_query.specs.Cursor.{start};
ghost use Rattle.newt_cursor.specs.Desk.{keyed, put_on, stands_on};
ghost use Rattle.newt_cursor.specs.Table.{entry_of};
ghost use Rattle.newt_cursor.specs.declared.fault.DeskFault.{DeskFault};

use crate::fault::DeskFault;
use crate::place::Place;
use crate::query::Query;
use crate::table::{Row, cursors_on, set_row};
use arrayvec::ArrayVec;
use newt_base::{Sig, Uid};
use newt_keys::Key;
use std::alloc::{AllocError, Global};
use std::marker::Model;
use std::rc::Rc;

/// The cursors that can be open at once.
const PLACES: usize = 32;

/// An open cursor. It shares its query with the cursors that were cloned from it.
#[derive(Drop)]
struct Cursor {
    query: Rc<Query>,
    place: Place,
}

impl Cursor {
    /// Another cursor with the same query and place.
    fn copy(&self) -> Result<Cursor, AllocError>
        ensures { IfOk result (λ copy. cursor_of copy ≡ cursor_of self.now) }
    {
        Ok(Cursor {
            query: self.query.clone()?,
            place: self.place.copy()?,
        })
    }
}

/// The desk: the 32 places for cursors, numbered from 0. At each a cursor is open, or the place is
/// free. Beside them stand the entries on which cursors stand, each once and in order.
#[derive(Drop)]
pub struct Desk {
    cursors: Vec<Option<Cursor>>,
    rows: ArrayVec<Row, 32>,
}

impl Model for Desk {
    ghost use Rattle.std.specs.Prelude.{List, Option};
    ghost use Rattle.newt_spec_query.specs.Cursor.{Cursor};
    ghost use Rattle.newt_cursor.specs.Seen.{cursors_of};
    ghost use Rattle.newt_cursor.specs.Table.{IsDesk};

    ghost Value = { List (Option Cursor) };

    ghost view = { λ desk. cursors_of desk.cursors.items };

    ghost invariant = { λ desk. IsDesk (cursors_of desk.cursors.items) desk.rows.items };
}

impl Desk {
    /// A desk of 32 free places. The room for all of them is taken here.
    #[tactic(auto, using(crate::proofs::Places::all_free))]
    pub fn new(alloc: Global) -> Result<Desk, AllocError>
        ensures { IfOk result (λ desk. desk ≡ replicate 32 None) }
    {
        Ok(Desk {
            cursors: free_places(alloc)?,
            rows: ArrayVec::new(),
        })
    }

    /// Opens a cursor at the least free number, and answers this number. `Limit` exactly where 32
    /// are open. Only the query takes memory.
    #[tactic(auto, using(crate::proofs::Rows::free_at))]
    pub fn open(&mut self, query: Query, place: Place) -> Result<u8, DeskFault>
        ensures number { IfOk result (λ c. position is_none self.old ≡ Some c) }
        ensures ok { IfOk result (λ c. self.new ≡ slice_set self.old c
            (Some (record { query = query_of query; place = place_of place }))) }
        ensures limit { IsErrOf result DeskFault.Limit ↔ (position is_none self.old ≡ None) }
        ensures err { OnErr result (self.new ≡ self.old) }
    {
        let free = self.free()?;
        let query = Rc::new(*self.cursors.allocator(), query)?;
        self.seat(free as u8, query, place);
        Ok(free as u8)
    }

    /// Opens another cursor with the query and the place of one that is open, at the least free
    /// number, and answers this number. `Limit` exactly where 32 are open.
    #[tactic(auto, using(crate::proofs::Rows::free_at, crate::proofs::Places::seen_at))]
    pub fn clone_of(&mut self, cursor: u8) -> Result<u8, DeskFault>
        requires { IsSome (flat (slice_get self.old cursor)) }
        ensures number { IfOk result (λ c. position is_none self.old ≡ Some c) }
        ensures ok { IfOk result (λ c. self.new ≡ slice_set self.old c
            (flat (slice_get self.old cursor))) }
        ensures limit { IsErrOf result DeskFault.Limit ↔ (position is_none self.old ≡ None) }
        ensures err { OnErr result (self.new ≡ self.old) }
    {
        let free = self.free()?;
        let copy = match self.at(cursor) {
            Some(open) => open.copy()?,
            None => unreachable!(),
        };
        self.seat(free as u8, copy.query, copy.place);
        Ok(free as u8)
    }

    /// What a cursor walks. None exactly where no cursor of this number is open.
    pub fn query(&self, cursor: u8) -> Option<&Query>
        ensures query { option_map (λ q. query_of q.now) result
            ≡ option_map (λ k. k.query) (flat (slice_get self.now cursor)) }
        ensures open { IsSome result → IsSome (flat (slice_get self.now cursor)) }
    {
        match self.at(cursor) {
            Some(open) => Some(open.query.as_ref()),
            None => None,
        }
    }

    /// Where a cursor stands. None exactly where no cursor of this number is open.
    pub fn place(&self, cursor: u8) -> Option<&Place>
        ensures { option_map (λ p. place_of p.now) result
            ≡ option_map (λ k. k.place) (flat (slice_get self.now cursor)) }
    {
        match self.at(cursor) {
            Some(open) => Some(&open.place),
            None => None,
        }
    }

    /// Puts a cursor at another place. Where no cursor of this number is open, nothing changes. It
    /// takes no memory.
    #[tactic(auto, using(crate::proofs::Rows::put_twice, crate::proofs::Rows::left_nowhere))]
    pub fn step(&mut self, cursor: u8, place: Place)
        ensures { self.new ≡ change_at cursor (put_on (place_of place)) self.old }
    {
        self.leave(cursor);
        self.land(cursor, place);
    }

    /// Which cursors stand on an entry, whatever its key: bit c is that of cursor c. It takes no
    /// memory.
    #[tactic(auto, using(crate::proofs::Rows::looked_up))]
    pub fn watchers(&self, store: Sig, soup: Sig, uid: Uid) -> u32
        ensures { result ≡ number (map (stands_on store soup uid) self.now) }
    {
        cursors_on(&self.rows, store, soup, uid)
    }

    /// Sets the key of the entry on which a cursor stands, whose graph has changed. Where the
    /// cursor is not open or stands on no entry, nothing changes. It takes no memory.
    #[tactic(auto, using(crate::proofs::Places::changed_at, crate::proofs::Places::stays_at))]
    pub fn changed(&mut self, cursor: u8, key: Key)
        ensures { self.new ≡ change_at cursor (keyed key) self.old }
    {
        if usize::from(cursor) < self.cursors.len() {
            key_at(&mut self.cursors[usize::from(cursor)], key);
        }
    }

    /// Closes a cursor and frees its place. Where no cursor of this number is open, nothing
    /// changes. It takes no memory.
    #[tactic(auto, using(crate::proofs::Places::set_seen, crate::proofs::Rows::set_changed))]
    pub fn close(&mut self, cursor: u8)
        ensures { self.new ≡ slice_set self.old cursor None }
    {
        self.leave(cursor);
        if usize::from(cursor) < self.cursors.len() {
            close_at(&mut self.cursors[usize::from(cursor)]);
        }
    }

    /// Opens a cursor at a number that is free.
    #[tactic(auto, using(crate::proofs::Places::set_seen, crate::proofs::Rows::seated))]
    fn seat(&mut self, free: u8, query: Rc<Query>, place: Place)
        requires { slice_get self.old free ≡ Some None }
        ensures { self.new ≡ slice_set self.old free
            (Some (record { query = query_of query.value; place = place_of place })) }
    {
        open_at(
            &mut self.cursors[usize::from(free)],
            Cursor {
                query,
                place: Place::Start,
            },
        );
        self.land(free, place);
    }

    /// Puts a cursor before all hits, so that it stands on no entry.
    #[tactic(auto, using(crate::proofs::Places::changed_at, crate::proofs::Places::stays_at))]
    fn leave(&mut self, cursor: u8)
        ensures { self.new ≡ change_at cursor (put_on start) self.old }
    {
        let at = usize::from(cursor);
        if at < self.cursors.len() {
            let left = entry_at(&self.cursors[at]);
            put_at(&mut self.cursors[at], Place::Start);
            if let Some(entry) = left {
                let standing = cursors_on(&self.rows, entry.0, entry.1, entry.2);
                let row = Row {
                    store: entry.0,
                    soup: entry.1,
                    uid: entry.2,
                    cursors: standing - bit_of(cursor),
                };
                set_row(&mut self.rows, row);
            }
        }
    }

    /// Puts a cursor that is before all hits at another place.
    #[tactic(auto, using(crate::proofs::Places::changed_at, crate::proofs::Places::stays_at))]
    fn land(&mut self, cursor: u8, place: Place)
        requires { entry_of (flat (slice_get self.old cursor)) ≡ None }
        ensures { self.new ≡ change_at cursor (put_on (place_of place)) self.old }
    {
        let at = usize::from(cursor);
        if at < self.cursors.len() {
            put_at(&mut self.cursors[at], place);
            let reached = entry_at(&self.cursors[at]);
            if let Some(entry) = reached {
                let standing = cursors_on(&self.rows, entry.0, entry.1, entry.2);
                let row = Row {
                    store: entry.0,
                    soup: entry.1,
                    uid: entry.2,
                    cursors: standing + bit_of(cursor),
                };
                set_row(&mut self.rows, row);
            }
        }
    }

    /// The least free number. `Limit` exactly where 32 are open.
    #[tactic(auto, using(crate::proofs::Places::free_alike))]
    fn free(&self) -> Result<usize, DeskFault>
        ensures least { IfOk result (λ free. position is_none self.now ≡ Some free) }
        ensures below { IfOk result (λ free. free < 32) }
        ensures limit { IfErr result (λ fault. fault ≡ DeskFault.Limit) }
        ensures none { OnErr result (position is_none self.now ≡ None) }
    {
        match first_free(&self.cursors) {
            Some(free) => Ok(free),
            None => Err(DeskFault::Limit),
        }
    }

    /// The cursor of this number, if it is open.
    #[tactic(auto, using(crate::proofs::Places::seen_at))]
    fn at(&self, cursor: u8) -> Option<&Cursor>
        ensures { option_map (λ k. cursor_of k.now) result ≡ flat (slice_get self.now cursor) }
    {
        match self.cursors.get(usize::from(cursor)) {
            Some(Some(open)) => Some(open),
            _ => None,
        }
    }
}

fn free_places(alloc: Global) -> Result<Vec<Option<Cursor>>, AllocError>
    ensures { IfOk result (λ places. places.items ≡ replicate 32 None) }
{
    let mut places = Vec::with_capacity(alloc, PLACES)?;
    'fill: while places.len() < PLACES {
        places.push(None)?;
    }
    Ok(places)
}

/// The first free place.
fn first_free(cursors: &[Option<Cursor>]) -> Option<usize>
    ensures least { result ≡ position is_none cursors.now }
    ensures below { IfSome result (λ free. free < length cursors.now) }
{
    cursors.iter().position(|cursor| cursor.is_none())
}

/// Opens a cursor at a place for one.
fn open_at(cursor: &mut Option<Cursor>, opened: Cursor)
    ensures { cursor.new ≡ Some opened }
{
    *cursor = Some(opened);
}

/// Frees a place for a cursor.
fn close_at(cursor: &mut Option<Cursor>)
    ensures { cursor.new ≡ None }
{
    *cursor = None;
}

/// Puts the cursor at a place, where there is a cursor.
fn put_at(cursor: &mut Option<Cursor>, place: Place)
    ensures { option_map cursor_of cursor.new
        ≡ option_map (put_on (place_of place)) (option_map cursor_of cursor.old) }
{
    if let Some(open) = cursor {
        open.place = place;
    }
}

/// Gives the place of the cursor this key, where there is a cursor that stands on an entry.
fn key_at(cursor: &mut Option<Cursor>, key: Key)
    ensures { option_map cursor_of cursor.new
        ≡ option_map (keyed key) (option_map cursor_of cursor.old) }
{
    if let Some(open) = cursor {
        open.place.set_key(key);
    }
}

/// The entry on which a cursor stands, if there is a cursor and it stands on one.
fn entry_at(cursor: &Option<Cursor>) -> Option<(Sig, Sig, Uid)>
    ensures { result ≡ entry_of (option_map cursor_of cursor.now) }
{
    match cursor {
        Some(open) => open.place.entry(),
        None => None,
    }
}

/// The bit of a cursor.
fn bit_of(cursor: u8) -> u32
    requires { cursor < 32 }
    ensures { result ≡ 2 ^ cursor }
{
    1 << cursor
}
