//! What a query asks of an entry's tags.
ghost use Rattle.std.specs.Prelude.{◌≡◌, ◌&&◌, ◌==◌, ◌%◌, Some, None, not, option_map};
ghost use Rattle.std.specs.List.{list_all, list_any};
ghost use Rattle.newt_base.specs.Names.{same_name};
ghost use Rattle.newt_spec_query.specs.Tags.{is_among, if_given, tags_pass};
ghost use Rattle.newt_tags.specs.Masks.{selected, tags_by};

use crate::names::{Names, is_among};
use crate::table::TagTable;
use newt_graph::Bytes;
use std::marker::Model;

/// A tag spec: four lists of symbols that a query may give. They ask for exactly these tags, for
/// all of them, for any of them, and for none of them.
#[derive(Drop)]
pub struct TagSpec {
    equal: Option<Names>,
    all: Option<Names>,
    any: Option<Names>,
    none_of: Option<Names>,
}

impl Model for TagSpec {
    ghost use Rattle.newt_spec_query.specs.Tags.{TagSpec};

    ghost Value = { TagSpec };

    ghost view = { λ s. record { equal = s.equal; all = s.all; any = s.any; none_of = s.none_of } };
}

impl TagSpec {
    /// The tag spec that asks nothing: all tags pass.
    pub fn empty() -> TagSpec
        ensures { result ≡ record { equal = None; all = None; any = None; none_of = None } }
    {
        TagSpec::of(None, None, None, None)
    }

    /// The tag spec of these four lists.
    pub(crate) fn of(
        equal: Option<Names>,
        all: Option<Names>,
        any: Option<Names>,
        none_of: Option<Names>,
    ) -> TagSpec
        ensures { result ≡ record { equal = equal; all = all; any = any; none_of = none_of } }
    {
        TagSpec {
            equal,
            all,
            any,
            none_of,
        }
    }

    /// Whether tags with this mask pass. Without a declaration there are no tags. It takes no
    /// memory.
    pub fn passes(&self, table: Option<&TagTable>, mask: u64) -> bool
        ensures { result ≡ tags_pass self.now (tags_by (option_map (λ t. t.now) table.entry) mask) }
    {
        match table {
            Some(table) => self.pass(table.symbols(), mask),
            None => self.pass(&[], mask),
        }
    }

    fn pass(&self, symbols: &[Bytes], mask: u64) -> bool
        ensures { result ≡ tags_pass self.now (selected mask symbols.now) }
    {
        equal_pass(&self.equal, symbols, mask)
            && all_pass(&self.all, symbols, mask)
            && any_pass(&self.any, symbols, mask)
            && none_pass(&self.none_of, symbols, mask)
    }
}

fn equal_pass(names: &Option<Names>, symbols: &[Bytes], mask: u64) -> bool
    ensures { result ≡ if_given (λ names. list_all (is_among (selected mask symbols.now)) names &&
        list_all (is_among names) (selected mask symbols.now)) names.now }
{
    match names {
        Some(names) => {
            has_all(symbols, mask, names.list()) && are_among(symbols, mask, names.list())
        }
        None => true,
    }
}

fn all_pass(names: &Option<Names>, symbols: &[Bytes], mask: u64) -> bool
    ensures { result ≡ if_given (λ names. list_all (is_among (selected mask symbols.now)) names)
        names.now }
{
    match names {
        Some(names) => has_all(symbols, mask, names.list()),
        None => true,
    }
}

fn any_pass(names: &Option<Names>, symbols: &[Bytes], mask: u64) -> bool
    ensures { result ≡ if_given (λ names. list_any (is_among (selected mask symbols.now)) names)
        names.now }
{
    match names {
        Some(names) => has_any(symbols, mask, names.list()),
        None => true,
    }
}

fn none_pass(names: &Option<Names>, symbols: &[Bytes], mask: u64) -> bool
    ensures { result ≡ if_given (λ names. not (list_any (is_among (selected mask symbols.now))
        names)) names.now }
{
    match names {
        Some(names) => !has_any(symbols, mask, names.list()),
        None => true,
    }
}

fn has_all(symbols: &[Bytes], mask: u64, names: &[Bytes]) -> bool
    ensures { result ≡ list_all (is_among (selected mask symbols.now)) names.now }
{
    names.iter().all(|name| has(symbols, mask, name.list()))
}

fn has_any(symbols: &[Bytes], mask: u64, names: &[Bytes]) -> bool
    ensures { result ≡ list_any (is_among (selected mask symbols.now)) names.now }
{
    names.iter().any(|name| has(symbols, mask, name.list()))
}

/// Whether a symbol whose bit is set has this name.
fn has(symbols: &[Bytes], mask: u64, name: &[u8]) -> bool
    ensures { result ≡ is_among (selected mask symbols.now) name.now }
{
    let mut rest = mask;
    for symbol in symbols {
        if is_hit(rest, symbol.list(), name) {
            return true;
        }
        rest /= 2;
    }
    false
}

/// Whether each symbol whose bit is set has one of the names.
fn are_among(symbols: &[Bytes], mask: u64, names: &[Bytes]) -> bool
    ensures { result ≡ list_all (is_among names.now) (selected mask symbols.now) }
{
    let mut rest = mask;
    for symbol in symbols {
        if is_miss(rest, symbol.list(), names) {
            return false;
        }
        rest /= 2;
    }
    true
}

/// Whether the lowest bit is set, and the symbol has this name.
fn is_hit(mask: u64, symbol: &[u8], name: &[u8]) -> bool
    ensures { result ≡ (mask % 2 == 1 && same_name name.now symbol.now) }
{
    mask % 2 == 1 && name.eq_ignore_ascii_case(symbol)
}

/// Whether the lowest bit is set, and the symbol has none of these names.
fn is_miss(mask: u64, symbol: &[u8], names: &[Bytes]) -> bool
    ensures { result ≡ (mask % 2 == 1 && not (is_among names.now symbol.now)) }
{
    mask % 2 == 1 && !is_among(names, symbol)
}
