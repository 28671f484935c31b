//! The counting of replies, and the lines that tell their numbers.
ghost use Rattle.std.specs.Prelude.{IsTrue, ◌≡◌, ◌++◌, ◌∷◌, ℕ, List, [], OnOk, IfOk, false};
ghost use Rattle.newt_spec_script.specs.Generator.{summary_line};
ghost use Rattle.newt_script_session.specs.Counts.{Tallies, lines_of_tally};

use crate::sink::Sink;
use newt_host::{Failed, Host};
use std::alloc::{AllocError, Global};

/// What replies come to: a tally. Each number stops at the last of its type.
#[derive(Drop)]
pub(crate) struct Tally {
    /// The replies.
    pub(crate) commands: u64,
    /// Those that begin with `ok`.
    pub(crate) oks: u64,
    /// Those that begin with `error`.
    pub(crate) errors: u64,
    /// Their bytes, with those of their ends.
    pub(crate) bytes: u128,
}

impl Tally {
    /// The tally of no reply.
    pub(crate) fn new() -> Tally
        ensures { Tallies result [] }
    {
        Tally {
            commands: 0,
            oks: 0,
            errors: 0,
            bytes: 0,
        }
    }

    /// Counts a reply with this text.
    fn add(&mut self, text: &[u8])
        ensures { (texts : List (List ℕ)) → Tallies self.old texts
            → Tallies self.new (texts ++ text.now ∷ []) }
    {
        let ok = u64::from(text.starts_with(b"ok"));
        let error = u64::from(text.starts_with(b"error"));
        *self = Tally {
            commands: self.commands.saturating_add(1),
            oks: self.oks.saturating_add(ok),
            errors: self.errors.saturating_add(error),
            bytes: self.bytes.saturating_add(text.len() as u128),
        };
    }

    /// The lines of the summary: how many replies there are, how many are ok, how many are
    /// refusals, and how many bytes they have (this project's own).
    pub(crate) fn lines(&self, alloc: Global) -> Result<Vec<u8>, AllocError>
        ensures { IfOk result (λ text. text.items ≡ lines_of_tally self.now) }
    {
        let mut text = Vec::new(alloc);
        push_line(alloc, &mut text, b"commands", u128::from(self.commands))?;
        push_line(alloc, &mut text, b"ok", u128::from(self.oks))?;
        push_line(alloc, &mut text, b"errors", u128::from(self.errors))?;
        push_line(alloc, &mut text, b"bytes", self.bytes)?;
        Ok(text)
    }
}

impl Sink for Tally {
    ghost shows = { false };

    ghost has = { Tallies };

    fn take<H: Host>(&mut self, _host: &mut H, text: &[u8]) -> Result<(), Failed> {
        self.add(text);
        Ok(())
    }
}

/// A line of a word and a number.
#[tactic(auto, using(crate::proofs::Texts::line_written))]
fn push_line(alloc: Global, text: &mut Vec<u8>, word: &[u8], number: u128) -> Result<(), AllocError>
    ensures { OnOk result (text.new.items ≡ text.old.items ++ summary_line word.now number) }
{
    let number = format!(in alloc; " {number}\n")?;
    text.extend_from_slice(word)?;
    text.extend_from_slice(number.as_bytes())?;
    Ok(())
}
