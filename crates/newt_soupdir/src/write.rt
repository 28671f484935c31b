//! Writing a directory: what `read` reads, field by field, after the bytes that are there.
ghost use Rattle.std.specs.Prelude.{◌≡◌, ◌<◌, ◌^◌, ◌++◌, length, map, All, OnOk, IfOk, IsTrue};
ghost use Rattle.std.specs.Prelude.{IfSome};
ghost use Rattle.newt_spec_nsof.specs.Flat.{flat};
ghost use Rattle.newt_spec_store.specs.Cost.{text_bytes, path_bytes, kind_byte, direction_byte};
ghost use Rattle.newt_spec_store.specs.Cost.{part_bytes, table_bytes, info_bytes, extra_bytes};
ghost use Rattle.newt_spec_store.specs.Cost.{soup_bytes, directory_bytes, counted};
ghost use Rattle.newt_spec_store.specs.Valid.{well_formed};
ghost use Rattle.newt_keys.specs.Seen.{declared};
ghost use Rattle.newt_soupdir.specs.Bare.{bare_soup, bare_store, fits};

use crate::rows::{Directory, SoupRow};
use newt_base::{push16, push32};
use newt_graph::{Bytes, Graph};
use newt_keys::{IndexPart, IndexSpec, Kind, Order};
use newt_nsof_write::encode_flat;
use newt_path::Path;
use newt_tags::TagTable;
use std::alloc::{AllocError, Global};

/// A text, after a byte that says its length.
fn put_text(out: &mut Vec<u8>, text: &[u8]) -> Result<(), AllocError>
    requires { length text.now < 256 }
    ensures { OnOk result (out.new.items ≡ out.old.items ++ text_bytes text.now) }
{
    out.push(text.len() as u8)?;
    out.extend_from_slice(text)?;
    Ok(())
}

/// Texts, after their count.
fn put_texts(out: &mut Vec<u8>, texts: &[Bytes]) -> Result<(), AllocError>
    requires few { length texts.now < 256 }
    requires short { All (λ text. length text < 256) texts.now }
    ensures { OnOk result (out.new.items ≡ out.old.items ++ counted text_bytes texts.now) }
{
    out.push(texts.len() as u8)?;
    for text in texts {
        put_text(out, text.list())?;
    }
    Ok(())
}

/// A path: its names, after their count.
fn put_path(out: &mut Vec<u8>, path: &Path) -> Result<(), AllocError>
    ensures { OnOk result (out.new.items ≡ out.old.items ++ path_bytes path.now) }
{
    put_texts(out, path.list())
}

/// The byte of a type.
fn kind_byte(kind: Kind) -> u8
    ensures { result ≡ kind_byte kind }
{
    match kind {
        Kind::Text => 0,
        Kind::Int => 1,
        Kind::Char => 2,
        Kind::Symbol => 3,
    }
}

/// The byte of a direction.
fn order_byte(order: Order) -> u8
    ensures { result ≡ direction_byte order }
{
    match order {
        Order::Ascend => 0,
        Order::Descend => 1,
    }
}

/// A part of an index: its type, its direction and its path.
fn put_part(out: &mut Vec<u8>, part: &IndexPart) -> Result<(), AllocError>
    ensures { OnOk result (out.new.items ≡ out.old.items ++ part_bytes (declared part.now)) }
{
    out.push(kind_byte(part.kind))?;
    out.push(order_byte(part.order))?;
    put_path(out, &part.path)
}

/// An index: its parts, after their count.
#[tactic(auto, using(crate::proofs::Spelled::parts_few))]
fn put_spec(out: &mut Vec<u8>, spec: &IndexSpec) -> Result<(), AllocError>
    ensures { OnOk result (out.new.items ≡ out.old.items ++ counted part_bytes spec.now) }
{
    let parts = spec.list();
    out.push(parts.len() as u8)?;
    for part in parts {
        put_part(out, part)?;
    }
    Ok(())
}

/// Indexes, after their count.
fn put_specs(out: &mut Vec<u8>, specs: &[IndexSpec]) -> Result<(), AllocError>
    requires { length specs.now < 256 }
    ensures { OnOk result (out.new.items ≡ out.old.items ++ counted (counted part_bytes)
        specs.now) }
{
    out.push(specs.len() as u8)?;
    for spec in specs {
        put_spec(out, spec)?;
    }
    Ok(())
}

/// A tags declaration: its path and its symbols.
fn put_table(out: &mut Vec<u8>, table: &TagTable) -> Result<(), AllocError>
    ensures { OnOk result (out.new.items ≡ out.old.items ++ table_bytes table.now) }
{
    put_path(out, table.path())?;
    put_texts(out, table.symbols())
}

/// An info frame: two bytes of the length of its flat text, and the text.
fn put_info(out: &mut Vec<u8>, info: &Graph) -> Result<(), AllocError>
    requires { length (flat info.now) < 2 ^ 16 }
    ensures { OnOk result (out.new.items ≡ out.old.items ++ info_bytes info.now) }
{
    let text = encode_flat(*out.allocator(), info)?;
    push16(out, text.len() as u16)?;
    out.extend_from_slice(&text)?;
    Ok(())
}

/// A tags declaration and an info frame, as far as there are any, after a byte that says which.
fn put_extra(
    out: &mut Vec<u8>,
    tags: &Option<TagTable>,
    info: &Option<Graph>,
) -> Result<(), AllocError>
    requires { IfSome info.now (λ g. length (flat g) < 2 ^ 16) }
    ensures { OnOk result (out.new.items ≡ out.old.items ++ extra_bytes tags.now info.now) }
{
    match (tags, info) {
        (None, None) => {
            out.push(0)?;
            Ok(())
        }
        (Some(table), None) => {
            out.push(1)?;
            put_table(out, table)
        }
        (None, Some(info)) => {
            out.push(2)?;
            put_info(out, info)
        }
        (Some(table), Some(info)) => {
            out.push(3)?;
            put_table(out, table)?;
            put_info(out, info)
        }
    }
}

/// A soup: its name, signature, next entry id, indexes, tags and info frame.
fn put_soup(out: &mut Vec<u8>, row: &SoupRow) -> Result<(), AllocError>
    requires sig { row.now.sig < 2 ^ 16 }
    requires few { length row.now.specs < 256 }
    requires info { IfSome row.now.info (λ g. length (flat g) < 2 ^ 16) }
    ensures { OnOk result (out.new.items ≡ out.old.items ++ soup_bytes (bare_soup row.now)) }
{
    put_text(out, row.name.list())?;
    push16(out, row.sig.0 as u16)?;
    push32(out, row.next_uid)?;
    put_specs(out, row.specs.list())?;
    put_extra(out, &row.tags, &row.info)
}

/// Soups, after their count.
fn put_soups(out: &mut Vec<u8>, soups: &[SoupRow]) -> Result<(), AllocError>
    requires few { length soups.now < 256 }
    requires fit { All fits soups.now }
    ensures { OnOk result (out.new.items ≡ out.old.items ++ counted soup_bytes
        (map bare_soup soups.now)) }
{
    out.push(soups.len() as u8)?;
    for row in soups {
        put_soup(out, row)?;
    }
    Ok(())
}

/// The bytes of a directory of version 2, as they stand in its object.
#[tactic(auto, using(crate::proofs::Lists::rows_fit))]
pub fn write_directory(alloc: Global, directory: &Directory) -> Result<Vec<u8>, AllocError>
    requires { IsTrue (well_formed (bare_store directory.now)) }
    ensures { IfOk result (λ v. v.items ≡ directory_bytes (bare_store directory.now)) }
{
    let mut out = Vec::new(alloc);
    put_text(&mut out, directory.name.list())?;
    push32(&mut out, directory.sig.0)?;
    push16(&mut out, directory.next_soup as u16)?;
    put_soups(&mut out, directory.soups.list())?;
    Ok(out)
}
