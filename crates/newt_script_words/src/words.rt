//! What is left of a line, read word by word.
ghost use Rattle.std.specs.Prelude.{◌≡◌, ◌≢◌, true, false, IfOk, IfErr, MatchResult, MatchBool};
ghost use Rattle.newt_base.specs.declared.Refusal.TheVariants.{Line as NotTheForm};
ghost use Rattle.newt_spec_script.specs.Line.{first_word};
ghost use Rattle.newt_script_words.specs.Readers.{unit_of, number_of, sig_of, length_of, cursor_of};
ghost use Rattle.newt_script_words.specs.Readers.{steps_of, star_of, name_of, soup_of, entry_of};
ghost use Rattle.newt_script_words.specs.Readers.{path_word, rest_of, is_ended};
ghost use Rattle.newt_script_words.specs.Readers.{most_of, watch_of, copy_of};
ghost use Rattle.newt_script_words.specs.Listed.{parts_in, paths_in, symbols_in};
ghost use Rattle.newt_script_words.specs.Reads.{Reads};

use crate::blanks::{skip_blanks, split_word, trimmed};
use crate::fault::WordFault;
use crate::listed::{parts_in, paths_in, symbols_in};
use crate::names::name_from;
use crate::numbers::{
    copy_number, cursor_number, most_notes, read_length, signature, unit_digit, watch_number,
};
use newt_base::{Name, Sig, Uid, decimal, signed};
use newt_host::Unit;
use newt_path::{Path, PathFault};
use newt_spec_world::{Parts, Paths, Syms};
use std::alloc::Global;
use std::marker::Model;

/// What is left of a line.
#[derive(Drop)]
pub struct Words<'a> {
    rest: &'a [u8],
}

impl<'a> Model for Words<'a> {
    ghost use Rattle.std.specs.Prelude.{List, ℕ};

    ghost Value = { List ℕ };

    ghost view = { λ words. words.rest.now };
}

impl<'a> Words<'a> {
    /// The words of a text.
    pub fn new(text: &'a [u8]) -> Words<'a>
        ensures { result ≡ text.now }
    {
        Words { rest: text }
    }

    /// What is left, without the blanks at its ends.
    #[tactic(auto, unfolding(crate::specs::Readers::rest_of))]
    pub fn rest(&self) -> &'a [u8]
        ensures { result.now ≡ rest_of self.now }
    {
        trimmed(self.rest)
    }

    /// Whether nothing but blanks is left.
    #[tactic(auto, unfolding(crate::specs::Readers::is_ended))]
    pub fn is_ended(&self) -> bool
        ensures { result ≡ is_ended self.now }
    {
        self.rest().is_empty()
    }

    /// Ok where nothing but blanks is left.
    pub fn end(&self) -> Result<(), WordFault>
        ensures { MatchResult result (λ _. is_ended self.now ≡ true) (λ fault.
            (fault ≡ WordFault.Form) × (is_ended self.now ≡ false)) }
    {
        if self.is_ended() {
            Ok(())
        } else {
            Err(WordFault::Form)
        }
    }

    /// The next word, empty where there is none.
    pub fn word(&mut self) -> &'a [u8]
        ensures word { result.now ≡ (first_word self.old).0 }
        ensures rest { self.new ≡ (first_word self.old).1 }
    {
        let (word, rest) = split_word(self.rest);
        self.rest = rest;
        word
    }

    /// U: the number of a unit, 0 to 7.
    pub fn unit(&mut self) -> Result<Unit, WordFault>
        ensures reads { Reads (unit_of self.old) result (λ unit. (unit, self.new)) }
        ensures no_memory { result ≢ Err WordFault.Memory }
    {
        unit_digit(self.word()).ok_or(WordFault::Form)
    }

    /// UID, T or AT: a number of 32 bits.
    pub fn number(&mut self) -> Result<u32, WordFault>
        ensures reads { Reads (number_of self.old) result (λ number. (number, self.new)) }
        ensures no_memory { result ≢ Err WordFault.Memory }
    {
        decimal(self.word()).ok_or(WordFault::Form)
    }

    /// SIG: the signature of a store.
    pub fn sig(&mut self) -> Result<Sig, WordFault>
        ensures reads { Reads (sig_of self.old) result (λ sig. (sig, self.new)) }
        ensures no_memory { result ≢ Err WordFault.Memory }
    {
        signature(self.word()).ok_or(WordFault::Form)
    }

    /// LEN: how many bytes are read, at most 60,000.
    pub fn length(&mut self) -> Result<u32, WordFault>
        ensures reads { Reads (length_of self.old) result (λ length. (length, self.new)) }
        ensures no_memory { result ≢ Err WordFault.Memory }
    {
        read_length(self.word()).ok_or(WordFault::Form)
    }

    /// C: the number of a cursor, 0 to 31.
    pub fn cursor(&mut self) -> Result<u8, WordFault>
        ensures reads { Reads (cursor_of self.old) result (λ cursor. (cursor, self.new)) }
        ensures no_memory { result ≢ Err WordFault.Memory }
    {
        cursor_number(self.word()).ok_or(WordFault::Form)
    }

    /// LIMIT: how many notes a watch keeps, 1 to 64.
    pub fn most(&mut self) -> Result<u32, WordFault>
        ensures reads { Reads (most_of self.old) result (λ most. (most, self.new)) }
        ensures no_memory { result ≢ Err WordFault.Memory }
    {
        most_notes(self.word()).ok_or(WordFault::Form)
    }

    /// W: the number of a watch, 0 to 7.
    pub fn watch(&mut self) -> Result<u8, WordFault>
        ensures reads { Reads (watch_of self.old) result (λ watch. (watch, self.new)) }
        ensures no_memory { result ≢ Err WordFault.Memory }
    {
        watch_number(self.word()).ok_or(WordFault::Form)
    }

    /// W: the number of a working copy, 0 to 15.
    pub fn copy(&mut self) -> Result<u8, WordFault>
        ensures reads { Reads (copy_of self.old) result (λ copy. (copy, self.new)) }
        ensures no_memory { result ≢ Err WordFault.Memory }
    {
        copy_number(self.word()).ok_or(WordFault::Form)
    }

    /// K: how many steps a cursor is moved, from the lowest to the highest number of 32 bits with a
    /// sign.
    pub fn steps(&mut self) -> Result<i32, WordFault>
        ensures reads { Reads (steps_of self.old) result (λ steps. (steps, self.new)) }
        ensures no_memory { result ≢ Err WordFault.Memory }
    {
        signed(self.word()).ok_or(WordFault::Form)
    }

    /// Whether the next word is a star. A star is passed.
    #[tactic(auto, using(crate::proofs::Forms::stars))]
    pub fn star(&mut self) -> bool
        ensures { MatchBool result (star_of self.old ≡ Ok (0, self.new))
            ((star_of self.old ≡ Err NotTheForm) × (self.new ≡ self.old)) }
    {
        let (word, rest) = split_word(self.rest);
        if word == b"*".as_slice() {
            self.rest = rest;
            true
        } else {
            false
        }
    }

    /// S or NAME: a name, bare or in quotes.
    #[tactic(auto, unfolding(crate::specs::Readers::name_of))]
    pub fn name(&mut self, alloc: Global) -> Result<Name, WordFault>
        ensures { Reads (name_of self.old) result (λ name. (name, self.new)) }
    {
        let (name, rest) = name_from(alloc, skip_blanks(self.rest))?;
        self.rest = rest;
        Ok(name)
    }

    /// U S: the number of a unit and the name of a soup.
    #[tactic(auto, unfolding(crate::specs::Readers::soup_of))]
    pub fn soup(&mut self, alloc: Global) -> Result<(Unit, Name), WordFault>
        ensures { Reads (soup_of self.old) result (λ found. ((found.0, found.1), self.new)) }
    {
        let unit = self.unit()?;
        let name = self.name(alloc)?;
        Ok((unit, name))
    }

    /// U S UID: the number of a unit, the name of a soup and the id of an entry.
    #[tactic(auto, unfolding(crate::specs::Readers::entry_of))]
    pub fn entry(&mut self, alloc: Global) -> Result<(Unit, Name, Uid), WordFault>
        ensures { Reads (entry_of self.old) result (λ found.
            ((found.0, found.1, found.2), self.new)) }
    {
        let unit = self.unit()?;
        let name = self.name(alloc)?;
        let uid = self.number()?;
        Ok((unit, name, Uid(uid)))
    }

    /// PATH: the names of slots from the root down.
    pub fn path(&mut self, alloc: Global) -> Result<Path, WordFault>
        ensures { Reads (path_word self.old) result (λ path. (path, self.new)) }
    {
        match Path::read(alloc, self.word()) {
            Ok(path) => Ok(path),
            Err(PathFault::Path) => Err(WordFault::Form),
            Err(PathFault::Memory) => Err(WordFault::Memory),
        }
    }

    /// PART..: the parts of an index that are left, 1 to 4.
    pub fn parts(&self, alloc: Global) -> Result<Parts, WordFault>
        ensures { result ≢ Err WordFault.Memory → result ≡ parts_in self.now }
    {
        parts_in(alloc, self.rest)
    }

    /// PATH..: the paths that are left, 1 to 4.
    pub fn paths(&self, alloc: Global) -> Result<Paths, WordFault>
        ensures { result ≢ Err WordFault.Memory → result ≡ paths_in self.now }
    {
        paths_in(alloc, self.rest)
    }

    /// SYM..: the symbols that are left, one or more, no two of them alike but for ASCII case.
    pub fn symbols(&self, alloc: Global) -> Result<Syms, WordFault>
        ensures { result ≢ Err WordFault.Memory → result ≡ symbols_in self.now }
    {
        symbols_in(alloc, self.rest)
    }
}
