//! The outside by a reader, a writer, and one file for each unit. It tells no bytes.
ghost use Rattle.std.specs.Prelude.{◌≡◌, ℕ, IfOk, None, length, slice_get};
ghost use Rattle.newt_host_files.specs.Cards.{name_of};

use crate::card::{Card, count};
use crate::{counts, device, edge};
use newt_host::{Failed, Host, Unit};
use std::alloc::{AllocError, Global};
use std::fs::File;
use std::io::{Read, Write};
use std::rt::Files;

/// Standard input and output, and up to eight files.
#[derive(Drop)]
pub struct FileHost<S: Files<File = File> + Drop, R: Read + Drop, W: Write + Drop> {
    system: S,
    input: R,
    output: W,
    cards: [Card; 8],
    in_faults: u64,
    out_faults: u64,
    ghost eight: { length cards ≡ 8 },
}

impl<S: Files<File = File> + Drop, R: Read + Drop, W: Write + Drop> FileHost<S, R, W> {
    /// A host without files. It takes all the memory that a host needs.
    pub fn new(alloc: Global, system: S, input: R, output: W) -> Result<Self, AllocError>
        ensures { IfOk result (λ host. (unit : ℕ) → name_of (slice_get host.cards unit) ≡ None) }
    {
        Ok(FileHost {
            system,
            input,
            output,
            cards: blank_cards(alloc)?,
            in_faults: 0,
            out_faults: 0,
        })
    }
}

/// Eight units without files.
fn blank_cards(alloc: Global) -> Result<[Card; 8], AllocError>
    ensures { IfOk result (λ cards. (unit : ℕ) → name_of (slice_get cards unit) ≡ None) }
{
    Ok([
        Card::new(alloc)?,
        Card::new(alloc)?,
        Card::new(alloc)?,
        Card::new(alloc)?,
        Card::new(alloc)?,
        Card::new(alloc)?,
        Card::new(alloc)?,
        Card::new(alloc)?,
    ])
}

impl<S: Files<File = File> + Drop, R: Read + Drop, W: Write + Drop> Host for FileHost<S, R, W> {
    ghost use Rattle.std.specs.Prelude.{false};
    ghost use Rattle.newt_host_files.specs.Outside.{told_by};
    ghost use Rattle.newt_host_files.specs.Laws.{eight_of, few_of, none_of, untold};

    ghost told = { false };

    ghost outside = { λ s. told_by s.cards s.in_faults s.out_faults };

    ghost eight = { λ s unit past. eight_of s.cards unit s.eight past };

    ghost none = { λ s unit free. none_of (slice_get s.cards unit) free };

    ghost few = { λ s unit. few_of (slice_get s.cards unit) };

    ghost sized = { λ s unit told. untold told };

    ghost untouched = { λ s unit told free. untold told };

    ghost history = { λ s unit told some. untold told };

    fn attach(&mut self, unit: Unit, name: &str) -> bool {
        let card = &mut self.cards[unit.0 as usize];
        device::attach(card, &self.system, name)
    }

    fn read_in(&mut self, buf: &mut [u8]) -> Result<usize, Failed> {
        match edge::take(&mut self.input, buf) {
            Ok(moved) => Ok(moved),
            Err(failed) => {
                count(&mut self.in_faults);
                Err(failed)
            }
        }
    }

    fn write_out(&mut self, bytes: &[u8]) -> Result<usize, Failed> {
        if bytes.is_empty() {
            return Ok(0);
        }
        match edge::give(&mut self.output, bytes) {
            Ok(moved) => Ok(moved),
            Err(failed) => {
                count(&mut self.out_faults);
                Err(failed)
            }
        }
    }

    fn blocks(&self, unit: Unit) -> u32 {
        match self.cards.get(unit.0 as usize) {
            Some(card) => card.blocks,
            None => 0,
        }
    }

    fn read(&mut self, unit: Unit, at: u32, buf: &mut [u8]) -> Result<(), Failed> {
        let bytes = buf.len() as u64;
        let card = &mut self.cards[unit.0 as usize];
        let done = device::get(card, at as u64, buf);
        counts::fetched(card, bytes, done)
    }

    fn program(&mut self, unit: Unit, at: u32, bytes: &[u8]) -> Result<(), Failed> {
        let card = &mut self.cards[unit.0 as usize];
        let done = device::put(card, at as u64, bytes);
        counts::programmed(card, bytes.len() as u64, done)
    }

    fn erase(&mut self, unit: Unit, block: u32) -> Result<(), Failed> {
        let card = &mut self.cards[unit.0 as usize];
        let done = device::put(card, 4096 * block as u64, &[255; 4096]);
        counts::erased(card, done)
    }

    fn sync(&mut self, unit: Unit) -> Result<(), Failed> {
        let card = &mut self.cards[unit.0 as usize];
        let done = device::sync(card);
        counts::synced(card, done)
    }
}
