//! Declarations of indexes and tags, made of words.
ghost use Rattle.std.specs.Prelude.{◌≡◌, ◌≤◌, true, IfOk, length, map, zip};
ghost use Rattle.std.specs.List.{list_all};
ghost use Rattle.newt_base.specs.Names.{same_path};
ghost use Rattle.newt_keys.specs.Seen.{declared, declared_all};
ghost use Rattle.newt_laws_world.specs.Worlds.{parts_fit, tags_fit};
ghost use Rattle.newt_spec_store.specs.Keys.{has_paths, paths_of, same_paths};
ghost use Rattle.newt_spec_world.specs.Changed.{kind_of, spec_of_words};

use newt_graph::Bytes;
use newt_keys::{IndexPart, IndexSpec};
use newt_path::Path;
use newt_spec_store::Kind;
use newt_spec_world::PartWord;
use newt_tags::TagTable;
use std::alloc::{AllocError, Global};

/// The declaration of an index of these parts. The type of a part that has none becomes the
/// integer's.
#[tactic(auto, using(newt_laws_world::proofs::Rows::spec_valid))]
pub(crate) fn new_spec(alloc: Global, parts: &[PartWord]) -> Result<IndexSpec, AllocError>
    requires { parts_fit parts.now ≡ true }
    ensures { IfOk result (λ spec. spec ≡ spec_of_words parts.now) }
{
    Ok(IndexSpec::new(new_parts(alloc, parts)?))
}

fn new_parts(alloc: Global, parts: &[PartWord]) -> Result<Vec<IndexPart>, AllocError>
    ensures { IfOk result (λ made. declared_all made.items ≡ spec_of_words parts.now) }
{
    let mut made = Vec::new(alloc);
    let mut left = parts;
    while let [part, rest @ ..] = left {
        made.push(new_part(part)?)?;
        left = rest;
    }
    Ok(made)
}

fn new_part(part: &PartWord) -> Result<IndexPart, AllocError>
    ensures { IfOk result (λ made. declared made ≡ record {
      path = part.now.path;
      kind = kind_of
          part.now.kind;
      direction = part.now.order;
    }) }
{
    Ok(IndexPart {
        path: part.path.copy()?,
        kind: part.kind.unwrap_or(Kind::Int),
        order: part.order,
    })
}

/// The tags declaration of this path and these symbols.
#[tactic(auto, using(crate::proofs::Agree::table_valid))]
pub(crate) fn new_table(
    alloc: Global,
    path: &Path,
    symbols: &[Bytes],
) -> Result<TagTable, AllocError>
    requires fit { tags_fit path.now symbols.now ≡ true }
    requires few { length symbols.now ≤ 64 }
    ensures { IfOk result (λ table. table ≡ record { path = path.now; symbols = symbols.now }) }
{
    let symbols = copied_symbols(alloc, symbols)?;
    Ok(TagTable::new(path.copy()?, symbols))
}

fn copied_symbols(alloc: Global, symbols: &[Bytes]) -> Result<Vec<Bytes>, AllocError>
    ensures { IfOk result (λ copies. copies.items ≡ symbols.now) }
{
    let mut copies = Vec::new(alloc);
    for symbol in symbols {
        copies.push(symbol.copy()?)?;
    }
    Ok(copies)
}

/// Equal declarations.
pub(crate) fn copied_specs(alloc: Global, specs: &[IndexSpec]) -> Result<Vec<IndexSpec>, AllocError>
    ensures { IfOk result (λ copies. copies.items ≡ specs.now) }
{
    let mut copies = Vec::new(alloc);
    for spec in specs {
        copies.push(spec.copy()?)?;
    }
    Ok(copies)
}

/// Whether one of the declarations has these paths, but for ASCII case.
pub(crate) fn has_paths(specs: &[IndexSpec], paths: &[Path]) -> bool
    ensures { result ≡ has_paths paths.now specs.now }
{
    specs.iter().any(|spec| spec.has_paths(paths))
}

/// Whether one of the declarations has the paths of these parts, but for ASCII case.
pub(crate) fn has_paths_of(specs: &[IndexSpec], parts: &[PartWord]) -> bool
    ensures { result ≡ has_paths (map (λ p. p.path) parts.now) specs.now }
{
    specs.iter().any(|spec| are_parts_of(spec, parts))
}

#[tactic(auto, using(crate::proofs::Agree::parts_seen))]
fn are_parts_of(spec: &IndexSpec, parts: &[PartWord]) -> bool
    ensures { result ≡ same_paths (paths_of spec.now) (map (λ p. p.path) parts.now) }
{
    let seen = spec.list();
    seen.len() == parts.len() && all_same_parts(seen, parts)
}

/// Whether the paths agree one by one, as far as the shorter list goes.
fn all_same_parts(parts: &[IndexPart], words: &[PartWord]) -> bool
    ensures { result ≡ list_all (λ p. same_path p.0.path p.1.path) (zip parts.now words.now) }
{
    parts
        .iter()
        .zip(words)
        .all(|(part, word)| part.path.same(&word.path))
}
