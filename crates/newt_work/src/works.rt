//! The sixteen places for working copies.
ghost use Rattle.std.specs.Prelude.{◌≡◌, ◌<◌, ◌↔◌, Some, None, IsSome, IfSome, IfOk, IfErr, OnErr};
ghost use Rattle.std.specs.Prelude.{IsErrOf, length, is_none, replicate, slice_set, option_map};
ghost use Rattle.std.specs.List.{position};
ghost use Rattle.newt_work.specs.Work.{copy_at, edited, opened, rebased};
ghost use Rattle.newt_work.specs.declared.fault.WorkFault.{WorkFault};

use crate::fault::WorkFault;
use crate::work::Work;
use newt_base::{Sig, Uid};
use newt_graph::Graph;
use std::alloc::{AllocError, Global};
use std::marker::Model;

/// The copies that there can be at once.
const PLACES: usize = 16;

/// The sixteen places for working copies, numbered from 0. At each is a copy, or the place is free.
#[derive(Drop)]
pub struct Works {
    places: Vec<Option<Work>>,
}

impl Model for Works {
    ghost use Rattle.std.specs.Prelude.{◌≡◌, List, Option, length};
    ghost use Rattle.newt_work.specs.Work.{Copy};

    ghost Value = { List (Option Copy) };

    ghost view = { λ works. works.places.items };

    ghost invariant = { λ works. length works.places.items ≡ 16 };
}

impl Works {
    /// Sixteen free places. The room for all of them is taken here.
    pub fn new(alloc: Global) -> Result<Works, AllocError>
        ensures { IfOk result (λ works. works ≡ replicate 16 None) }
    {
        Ok(Works {
            places: free_places(alloc)?,
        })
    }

    /// Opens a copy of an entry at the least free number, and answers this number. `Limit` exactly
    /// where there are sixteen copies.
    pub fn open(
        &mut self,
        store: Sig,
        soup: Sig,
        uid: Uid,
        time: u32,
        graph: Graph,
    ) -> Result<u8, WorkFault>
        ensures number { IfOk result (λ n. position is_none self.old ≡ Some n) }
        ensures ok { IfOk result (λ n. self.new
            ≡ slice_set self.old n (Some (opened store soup uid time graph))) }
        ensures limit { IsErrOf result WorkFault.Limit ↔ (position is_none self.old ≡ None) }
        ensures err { OnErr result (self.new ≡ self.old) }
    {
        let free = self.free()?;
        let work = Work::open(*self.places.allocator(), store, soup, uid, time, graph)?;
        self.places[free] = Some(work);
        Ok(free as u8)
    }

    /// The copy of this number, if there is one. It takes no memory.
    pub fn at(&self, number: u8) -> Option<&Work>
        ensures { option_map (λ k. k.now) result ≡ copy_at number self.now }
    {
        match self.places.get(usize::from(number)) {
            Some(Some(work)) => Some(work),
            _ => None,
        }
    }

    /// Gives a copy another draft. It takes no memory.
    pub fn redraft(&mut self, number: u8, draft: Graph)
        requires { IsSome (copy_at number self.old) }
        ensures { self.new ≡ slice_set self.old number
            (option_map (edited draft) (copy_at number self.old)) }
    {
        redraft_at(&mut self.places[usize::from(number)], draft);
    }

    /// Begins a copy again from another state of its entry. It takes no memory.
    pub fn rebase(&mut self, number: u8, time: u32, graph: Graph)
        requires { IsSome (copy_at number self.old) }
        ensures { self.new ≡ slice_set self.old number
            (option_map (rebased time graph) (copy_at number self.old)) }
    {
        rebase_at(&mut self.places[usize::from(number)], time, graph);
    }

    /// Begins a copy again from its draft, which its entry has got at this time. It takes no
    /// memory.
    pub fn rebase_to_draft(&mut self, number: u8, time: u32)
        requires { IsSome (copy_at number self.old) }
        ensures { self.new ≡ slice_set self.old number
            (option_map (λ k. rebased time k.draft k) (copy_at number self.old)) }
    {
        rebase_to_draft_at(&mut self.places[usize::from(number)], time);
    }

    /// Discards a copy. Where no copy has this number, nothing changes. It takes no memory.
    pub fn discard(&mut self, number: u8)
        ensures { self.new ≡ slice_set self.old number None }
    {
        if usize::from(number) < self.places.len() {
            self.places[usize::from(number)] = None;
        }
    }

    /// The least free number. `Limit` exactly where there are sixteen copies.
    fn free(&self) -> Result<usize, WorkFault>
        ensures least { IfOk result (λ free. position is_none self.now ≡ Some free) }
        ensures below { IfOk result (λ free. free < 16) }
        ensures limit { IfErr result (λ fault. fault ≡ WorkFault.Limit) }
        ensures none { OnErr result (position is_none self.now ≡ None) }
    {
        match first_free(&self.places) {
            Some(free) => Ok(free),
            None => Err(WorkFault::Limit),
        }
    }
}

fn free_places(alloc: Global) -> Result<Vec<Option<Work>>, AllocError>
    ensures { IfOk result (λ places. places.items ≡ replicate 16 None) }
{
    let mut places = Vec::with_capacity(alloc, PLACES)?;
    'fill: while places.len() < PLACES {
        places.push(None)?;
    }
    Ok(places)
}

/// The first free place.
fn first_free(places: &[Option<Work>]) -> Option<usize>
    ensures least { result ≡ position is_none places.now }
    ensures below { IfSome result (λ free. free < length places.now) }
{
    places.iter().position(|place| place.is_none())
}

/// Gives another draft to the copy that is there.
fn redraft_at(place: &mut Option<Work>, draft: Graph)
    ensures { place.new ≡ option_map (edited draft) place.old }
{
    if let Some(work) = place {
        work.redraft(draft);
    }
}

/// Begins again the copy that is there.
fn rebase_at(place: &mut Option<Work>, time: u32, graph: Graph)
    ensures { place.new ≡ option_map (rebased time graph) place.old }
{
    if let Some(work) = place {
        work.begin_again(time, graph);
    }
}

/// Begins again, from its draft, the copy that is there.
fn rebase_to_draft_at(place: &mut Option<Work>, time: u32)
    ensures { place.new ≡ option_map (λ k. rebased time k.draft k) place.old }
{
    if let Some(work) = place {
        work.rebase_to_draft(time);
    }
}
