//! The page that a graph is printed on.
ghost use Rattle.std.specs.Prelude.{◌≡◌, ◌+◌, nat_lt, OnOk};
ghost use Rattle.newt_base.specs.Text.{hex_text};
ghost use Rattle.newt_spec_literal.specs.Spelling.{plain, spelled};
ghost use Rattle.newt_spec_literal.specs.Printed as printed;

use crate::tokens;
use std::alloc::AllocError;
use std::marker::Model;

/// What is printed so far, and below which number all objects have been met.
#[derive(Drop)]
pub(crate) struct Page {
    text: Vec<u8>,
    met: usize,
}

impl Model for Page {
    ghost use Rattle.newt_spec_literal.specs.Spelling.{Page as Spelled};

    ghost Value = { Spelled };

    ghost view = { λ p. (p.text.items, p.met) };
}

impl Page {
    /// A page with this text, on which no object has been met.
    pub(crate) fn after(text: Vec<u8>) -> Page
        ensures { result ≡ (text.items, 0) }
    {
        Page { text, met: 0 }
    }

    /// The text alone.
    pub(crate) fn into_text(self) -> Vec<u8>
        ensures { result.items ≡ self.0 }
    {
        self.text
    }

    /// Whether object n has been met.
    pub(crate) fn has_met(&self, n: u32) -> bool
        ensures { result ≡ nat_lt n self.now.1 }
    {
        (n as usize) < self.met
    }

    /// Object n and all before it have been met.
    pub(crate) fn meet(&mut self, n: u32)
        ensures { self.new ≡ (self.old.0, n + 1) }
    {
        self.met = n as usize + 1;
    }

    /// Appends a text as it is.
    pub(crate) fn put(&mut self, text: &[u8]) -> Result<(), AllocError>
        ensures { OnOk result (self.new ≡ spelled self.old (plain text.now)) }
    {
        self.text.extend_from_slice(text)?;
        Ok(())
    }

    /// Appends an immediate, as a literal writes it.
    pub(crate) fn word(&mut self, word: i32) -> Result<(), AllocError>
        ensures { OnOk result (self.new ≡ spelled self.old (plain (printed.word_text word))) }
    {
        tokens::word(&mut self.text, word)
    }

    /// Appends a name, in bars where it has to be.
    pub(crate) fn name(&mut self, name: &[u8]) -> Result<(), AllocError>
        ensures { OnOk result (self.new ≡ spelled self.old (plain (printed.name_text name.now))) }
    {
        tokens::name(&mut self.text, name)
    }

    /// Appends a string, in quotes.
    pub(crate) fn string(&mut self, units: &[u16]) -> Result<(), AllocError>
        ensures { OnOk result (self.new ≡ spelled self.old (plain
            (printed.string_text units.now))) }
    {
        tokens::string(&mut self.text, units)
    }

    /// Appends bytes, two hexadecimal digits each.
    pub(crate) fn hex(&mut self, bytes: &[u8]) -> Result<(), AllocError>
        ensures { OnOk result (self.new ≡ spelled self.old (plain (hex_text bytes.now))) }
    {
        tokens::hex(&mut self.text, bytes)
    }

    /// Appends a label and the mark after it, or nothing.
    pub(crate) fn label(&mut self, label: Option<u32>, mark: u8) -> Result<(), AllocError>
        ensures { OnOk result (self.new ≡ spelled self.old (plain
            (printed.label_text label mark))) }
    {
        if let Some(n) = label {
            self.text.push(b'#')?;
            tokens::decimal(&mut self.text, n)?;
            self.text.push(mark)?;
        }
        Ok(())
    }
}
