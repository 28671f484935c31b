//! Names of stores and soups.
ghost use Rattle.std.specs.Prelude.{◌≡◌, ◌↔◌, false, IfOk, IsErrOf, IsTrue};
ghost use Rattle.std.specs.List.{list_all};
ghost use Rattle.newt_base.specs.Names.{is_name, is_printable, needs_quotes};

use std::alloc::{AllocError, Global};
use std::marker::Model;

/// Bytes of a name: 32 to 126.
const FIRST: u8 = 32;

const LAST: u8 = 126;

/// The most bytes of a name.
const MOST: usize = 39;

/// Why no name is made of bytes.
#[derive(Clone, Copy, PartialEq, Eq, Debug)]
pub enum NameFault {
    /// The length or a byte is outside the rule.
    Name,
    /// Memory was refused.
    Memory,
}

impl From<AllocError> for NameFault {
    ghost use Rattle.newt_base.specs.declared.names.NameFault.TheVariants.{Memory};

    ghost from_gives = { λ _ fault. fault ≡ Memory };

    fn from(_error: AllocError) -> NameFault {
        NameFault::Memory
    }
}

/// The name of a store or a soup: 1 to 39 bytes from 32 to 126, compared byte for byte.
#[derive(Drop)]
pub struct Name {
    text: Vec<u8>,
}

impl Model for Name {
    ghost use Rattle.std.specs.Prelude.{List, ℕ, IsTrue};
    ghost use Rattle.newt_base.specs.Names.{is_name};

    ghost Value = { List ℕ };

    ghost view = { λ name. name.text.items };

    ghost invariant = { λ name. IsTrue (is_name name.text.items) };
}

impl Name {
    /// Makes a name of bytes. `NameFault::Name` comes exactly where they are not 1 to 39 bytes from
    /// 32 to 126.
    pub fn read(alloc: Global, bytes: &[u8]) -> Result<Name, NameFault>
        ensures ok { IfOk result (λ name. name ≡ bytes.now) }
        ensures name { IsErrOf result NameFault.Name ↔ (is_name bytes.now ≡ false) }
    {
        if !has_the_form(bytes) {
            return Err(NameFault::Name);
        }
        Ok(Name {
            text: Vec::from_slice(alloc, bytes)?,
        })
    }

    /// The bytes of the name.
    pub fn list(&self) -> &[u8]
        ensures bytes { result.now ≡ self.now }
        ensures named { IsTrue (is_name self.now) }
    {
        self.text.as_slice()
    }

    /// An equal name.
    pub fn copy(&self) -> Result<Name, AllocError>
        ensures { IfOk result (λ copy. copy ≡ self.now) }
    {
        Ok(Name {
            text: self.text.clone()?,
        })
    }
}

fn has_the_form(bytes: &[u8]) -> bool
    ensures { result ≡ is_name bytes.now }
{
    1 <= bytes.len() && bytes.len() <= MOST && all_printable(bytes)
}

fn all_printable(bytes: &[u8]) -> bool
    ensures { result ≡ list_all is_printable bytes.now }
{
    bytes.iter().all(|b| FIRST <= *b && *b <= LAST)
}

/// Whether a name that has this byte is written in quotes.
pub fn needs_quotes(byte: u8) -> bool
    ensures { result ≡ needs_quotes byte }
{
    byte == b' ' || byte == b'"' || byte == b'\\'
}
