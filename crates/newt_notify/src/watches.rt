//! The eight places for watches.
ghost use Rattle.std.specs.Prelude.{◌≡◌, ◌≤◌, ◌<◌, ◌↔◌, List, Option, Some, None, IsSome, IfSome};
ghost use Rattle.std.specs.Prelude.{IfOk, IfErr, OnErr, IsErrOf, length, is_none, is_some};
ghost use Rattle.std.specs.Prelude.{replicate, slice_set, option_map};
ghost use Rattle.std.specs.List.{position};
ghost use Rattle.newt_notify.specs.Watch.{Watching, watching, kept_of, kept_all, taking, noted};
ghost use Rattle.newt_notify.specs.Watch.{as_new, watch_at};
ghost use Rattle.newt_notify.specs.declared.fault.WatchFault.{WatchFault};

use crate::fault::WatchFault;
use crate::note::{Note, Notes};
use crate::watch::Watch;
use newt_base::Name;
use std::alloc::{AllocError, Global};
use std::marker::Model;

/// The watches that there can be at once.
const PLACES: usize = 8;

/// The eight places for watches, numbered from 0. At each is a watch, or the place is free.
#[derive(Drop)]
pub struct Watches {
    places: Vec<Option<Watch>>,
}

impl Model for Watches {
    ghost use Rattle.std.specs.Prelude.{◌≡◌, List, Option, length};
    ghost use Rattle.newt_notify.specs.Watch.{Kept};

    ghost Value = { List (Option Kept) };

    ghost view = { λ watches. watches.places.items };

    ghost invariant = { λ watches. length watches.places.items ≡ 8 };
}

impl Watches {
    /// Eight free places. The room for all of them is taken here.
    pub fn new(alloc: Global) -> Result<Watches, AllocError>
        ensures { IfOk result (λ watches. watches ≡ replicate 8 None) }
    {
        Ok(Watches {
            places: free_places(alloc)?,
        })
    }

    /// Watches the soups of a name at the least free number, and answers this number. `Limit`
    /// exactly where there are eight watches.
    pub fn watch(&mut self, name: Name, most: u32) -> Result<u8, WatchFault>
        requires some { 1 ≤ most }
        requires few { most ≤ 64 }
        ensures number { IfOk result (λ n. position is_none self.old ≡ Some n) }
        ensures ok { IfOk result (λ n. self.new
            ≡ slice_set self.old n (Some (kept_of (watching name most)))) }
        ensures limit { IsErrOf result WatchFault.Limit ↔ (position is_none self.old ≡ None) }
        ensures err { OnErr result (self.new ≡ self.old) }
    {
        let free = self.free()?;
        let watch = Watch::new(*self.places.allocator(), name, most)?;
        self.places[free] = Some(watch);
        Ok(free as u8)
    }

    /// Whether there is a watch of this number. It takes no memory.
    pub fn has(&self, number: u8) -> bool
        ensures { result ≡ is_some (watch_at number self.now) }
    {
        match self.places.get(usize::from(number)) {
            Some(Some(_)) => true,
            _ => false,
        }
    }

    /// Gives a note of a soup of this name to each watch of the name. It takes no memory.
    pub fn note(&mut self, name: &Name, note: Note)
        ensures { (ws : List (Option Watching)) → self.old ≡ kept_all ws
            → self.new ≡ kept_all (noted name.now note ws) }
    {
        note_each(&mut self.places, name, &note);
    }

    /// The notes of a watch, and the number of those that it lost. The watch is empty afterwards;
    /// where memory is refused, nothing is changed.
    pub fn take(&mut self, number: u8) -> Result<Notes, AllocError>
        requires { IsSome (watch_at number self.old) }
        ensures lost { IfOk result (λ notes. Some notes.lost
            ≡ option_map (λ k. k.lost) (watch_at number self.old)) }
        ensures last { IfOk result (λ notes. Some notes.list
            ≡ option_map (λ k. k.last) (watch_at number self.old)) }
        ensures empty { IfOk result (λ _. self.new
            ≡ slice_set self.old number (option_map as_new (watch_at number self.old))) }
        ensures err { OnErr result (self.new ≡ self.old) }
    {
        take_at(&mut self.places[usize::from(number)])
    }

    /// Takes a watch away. Where no watch has this number, nothing changes. It takes no memory.
    pub fn unwatch(&mut self, number: u8)
        ensures { self.new ≡ slice_set self.old number None }
    {
        if usize::from(number) < self.places.len() {
            self.places[usize::from(number)] = None;
        }
    }

    /// The least free number. `Limit` exactly where there are eight watches.
    fn free(&self) -> Result<usize, WatchFault>
        ensures least { IfOk result (λ free. position is_none self.now ≡ Some free) }
        ensures below { IfOk result (λ free. free < 8) }
        ensures limit { IfErr result (λ fault. fault ≡ WatchFault.Limit) }
        ensures none { OnErr result (position is_none self.now ≡ None) }
    {
        match first_free(&self.places) {
            Some(free) => Ok(free),
            None => Err(WatchFault::Limit),
        }
    }
}

fn free_places(alloc: Global) -> Result<Vec<Option<Watch>>, AllocError>
    ensures { IfOk result (λ places. places.items ≡ replicate 8 None) }
{
    let mut places = Vec::with_capacity(alloc, PLACES)?;
    'fill: while places.len() < PLACES {
        places.push(None)?;
    }
    Ok(places)
}

/// The first free place.
fn first_free(places: &[Option<Watch>]) -> Option<usize>
    ensures least { result ≡ position is_none places.now }
    ensures below { IfSome result (λ free. free < length places.now) }
{
    places.iter().position(|place| place.is_none())
}

/// The notes of the watch that is there, which is empty afterwards.
fn take_at(place: &mut Option<Watch>) -> Result<Notes, AllocError>
    requires { IsSome place.old }
    ensures lost { IfOk result (λ notes. Some notes.lost ≡ option_map (λ k. k.lost) place.old) }
    ensures last { IfOk result (λ notes. Some notes.list ≡ option_map (λ k. k.last) place.old) }
    ensures empty { IfOk result (λ _. place.new ≡ option_map as_new place.old) }
    ensures err { OnErr result (place.new ≡ place.old) }
{
    match place {
        Some(watch) => watch.take(),
        None => unreachable!(),
    }
}

/// Gives a note to each watch of the name.
fn note_each(places: &mut [Option<Watch>], name: &Name, note: &Note)
    ensures { (ws : List (Option Watching)) → places.old ≡ kept_all ws
        → places.new ≡ kept_all (noted name.now note.now ws) }
{
    let mut at = 0;
    'each: while at < places.len() {
        note_at(&mut places[at], name, *note);
        at += 1;
    }
}

/// Gives a note to a watch, where there is one and it is of the name.
fn note_at(place: &mut Option<Watch>, name: &Name, note: Note)
    ensures { (w : Option Watching) → place.old ≡ option_map kept_of w
        → place.new ≡ option_map kept_of (option_map (taking name.now note) w) }
{
    if let Some(watch) = place {
        if name.list() == watch.name().list() {
            watch.push(note);
        }
    }
}
