//! Keys of literals.
ghost use Rattle.std.specs.Prelude.{IfOk, IsTrue};
ghost use Rattle.newt_base.specs.Names.{valid_path};

use crate::calls::Call;
use newt_graph::Graph;
use newt_keys::{IndexPart, IndexSpec, Key, Kind, Order, Part, key_from, key_of};
use newt_lit_read::read_literal;
use newt_path::Path;
use newt_test_tables::expect_rows;
use std::alloc::Global;
use std::test::*;

/// A declaration.
#[derive(Clone, Copy)]
pub(crate) enum Declared {
    /// One part at the path `a`.
    One(Kind),
    /// A string at `a` and an integer at `b.c`.
    Two,
}

/// A part of a declaration, whose path is read.
#[tactic(auto, using(newt_keys::proofs::Valid::path_valid))]
pub(crate) fn part(alloc: Global, path: &str, kind: Kind, order: Order) -> Result<IndexPart, Fail>
    ensures { IfOk result (λ part. IsTrue (valid_path part.path)) }
{
    match Path::read(alloc, path.as_bytes()) {
        Ok(path) => Ok(IndexPart { path, kind, order }),
        Err(_) => Err("a path".into()),
    }
}

fn spec_of(alloc: Global, declared: &Declared) -> Result<IndexSpec, Fail> {
    match declared {
        Declared::One(kind) => {
            Ok(IndexSpec::new(vec![in alloc; part(alloc, "a", *kind, Order::Ascend)?]?))
        }
        Declared::Two => {
            let text = part(alloc, "a", Kind::Text, Order::Ascend)?;
            let number = part(alloc, "b.c", Kind::Int, Order::Ascend)?;
            Ok(IndexSpec::new(vec![in alloc; text, number]?))
        }
    }
}

/// The graph of a literal.
pub(crate) fn literal(alloc: Global, text: &str) -> Result<Graph, Fail> {
    match read_literal(alloc, text) {
        Ok(graph) => Ok(graph),
        Err(_) => Err("a literal".into()),
    }
}

/// A text after a sign.
fn told_text(alloc: Global, sign: char, text: &[u8]) -> Result<String, Fail> {
    Ok(format!(in alloc; "{sign}{}", str::from_utf8(text)?)?)
}

/// A part: `-` where it is missing; otherwise a number, or a text after what says its type.
fn told_part(alloc: Global, part: &Part) -> Result<String, Fail> {
    match part {
        Part::Missing => Ok(String::from_str(alloc, "-")?),
        Part::Text(text) => told_text(alloc, '"', text.list()),
        Part::Int(number) => Ok(format!(in alloc; "{number}")?),
        Part::Char(unit) => Ok(format!(in alloc; "${unit}")?),
        Part::Symbol(name) => told_text(alloc, '\'', name.list()),
    }
}

fn push_parts(alloc: Global, to: &mut String, key: &Key) -> Result<(), Fail> {
    let mut mark = "";
    for part in key.list() {
        to.push_str(mark)?;
        to.push_str(&told_part(alloc, part)?)?;
        mark = " ";
    }
    Ok(())
}

/// The parts of a key, or that there is none.
fn told(alloc: Global, found: &Option<Key>) -> Result<String, Fail> {
    let Some(key) = found else {
        return Ok(String::from_str(alloc, "no key")?);
    };
    let mut out = String::new(alloc);
    push_parts(alloc, &mut out, key)?;
    Ok(out)
}

/// The key that a graph has.
pub(crate) fn key(alloc: Global, declared: &Declared, text: &str) -> Result<String, Fail> {
    let spec = spec_of(alloc, declared)?;
    let graph = literal(alloc, text)?;
    told(alloc, &key_of(alloc, &graph, &spec)?)
}

/// The key that a value writes down.
pub(crate) fn written(alloc: Global, declared: &Declared, text: &str) -> Result<String, Fail> {
    let spec = spec_of(alloc, declared)?;
    let graph = literal(alloc, text)?;
    told(alloc, &key_from(alloc, &graph, graph.root(), &spec)?)
}

/// Strings are cut at 39 units, even within a pair, and then folded. A folded text may be longer.
const TEXTS: &str = "
{a: \"Stra\\u00DFe\"} => \"strasse
{a: \"\\u0130\"} => \"i\u{307}
{a: \"\"} => \"
{a: \"123456789 123456789 123456789 123456789X\"} => \"123456789 123456789 123456789 123456789
{a: \"123456789 123456789 123456789 12345678\\u00DF\"} => \"123456789 123456789 123456789 12345678ss
{a: \"123456789 123456789 123456789 12345678\\uD83D\\uDE00\"} => \"123456789 123456789 123456789 12345678\u{fffd}
";

/// An entry has a key where the first part is there.
const PAIRS: &str = "
{a: \"A\", b: {c: 7}} => \"a 7
{A: \"A\", B: {C: -7}} => \"a -7
{a: \"A\", b: {c: 0}} => \"a 0
{a: \"A\", b: {c: $7}} => \"a -
{a: \"A\", b: [7]} => \"a -
{a: \"A\"} => \"a -
{a: 'A, b: {c: 7}} => no key
{b: {c: 7}} => no key
{a: nil, b: {c: 7}} => no key
[\"A\"] => no key
";

/// A value for one part is of its type.
const VALUES: &str = "
\"A\" => \"a
[\"A\"] => no key
nil => no key
'A => no key
7 => no key
";

/// A value for two parts is an array, whose first value is there.
const ARRAYS: &str = "
[\"A\", 7] => \"a 7
[\"A\", nil] => \"a -
[\"A\"] => \"a -
[nil, 7] => no key
[] => no key
[\"A\", 7, nil] => no key
\"A\" => no key
[x: \"A\", 7] => no key
[\"A\", 'b] => no key
";

#[test]
fn strings_are_cut_at_39_units_and_then_folded(rt: HostRuntime) -> Result<(), Fail> {
    expect_rows(rt.alloc(), &Call::Key(Declared::One(Kind::Text)), TEXTS)
}

#[test]
fn an_entry_has_a_key_where_the_first_part_is_there(rt: HostRuntime) -> Result<(), Fail> {
    expect_rows(rt.alloc(), &Call::Key(Declared::Two), PAIRS)
}

#[test]
fn a_value_of_a_query_is_a_key_of_the_types(rt: HostRuntime) -> Result<(), Fail> {
    expect_rows(
        rt.alloc(),
        &Call::Written(Declared::One(Kind::Text)),
        VALUES,
    )?;
    expect_rows(rt.alloc(), &Call::Written(Declared::Two), ARRAYS)
}

#[test]
fn each_type_takes_its_values(rt: HostRuntime) -> Result<(), Fail> {
    let alloc = rt.alloc();
    let integer = Call::Key(Declared::One(Kind::Int));
    expect_rows(alloc, &integer, "{a: -536870912} => -536870912")?;
    let character = Call::Key(Declared::One(Kind::Char));
    expect_rows(alloc, &character, "{a: $Z} => $90")?;
    let symbol = Call::Key(Declared::One(Kind::Symbol));
    expect_rows(alloc, &symbol, "{a: 'ABC} => 'abc")
}
