//! Writing an entry record.
ghost use Rattle.std.specs.Prelude.{◌≡◌, ◌<◌, ◌++◌, ℕ, List, length, flat_map, OnOk, IfOk};
ghost use Rattle.newt_base.specs.Text.{be16, be32};
ghost use Rattle.newt_spec_nsof.specs.Flat.{flat};
ghost use Rattle.newt_spec_store.specs.Image.{entry_bytes};
ghost use Rattle.newt_spec_store.specs.Store.{Entry};
ghost use Rattle.newt_entries.specs.Entry.{large_bytes, row_bytes, AreRowsOf};

use crate::row::{EntryRow, LargeAt};
use newt_base::{push16, push32};
use newt_nsof_write::encode_flat;
use std::alloc::{AllocError, Global};

/// The row of a large binary.
fn put_large(out: &mut Vec<u8>, large: &LargeAt) -> Result<(), AllocError>
    ensures { OnOk result (out.new.items ≡ out.old.items ++ large_bytes large.now) }
{
    push32(out, large.node)?;
    push32(out, large.object)?;
    push32(out, large.length)
}

/// The rows of large binaries.
fn put_larges(out: &mut Vec<u8>, larges: &[LargeAt]) -> Result<(), AllocError>
    ensures { OnOk result (out.new.items ≡ out.old.items ++ flat_map large_bytes larges.now) }
{
    for large in larges {
        put_large(out, large)?;
    }
    Ok(())
}

/// The head of a record, and the flat text of its skeleton.
fn head_and_text(alloc: Global, row: &EntryRow) -> Result<Vec<u8>, AllocError>
    requires soup { row.now.soup < 65536 }
    requires few { length row.now.larges < 65536 }
    ensures { IfOk result (λ v. v.items ≡ be16 row.now.soup ++ be16 (length row.now.larges) ++ be32
        row.now.uid ++ be32 row.now.time ++ flat row.now.skeleton) }
{
    let mut out = Vec::new(alloc);
    push16(&mut out, row.soup.0 as u16)?;
    push16(&mut out, row.larges.list().len() as u16)?;
    push32(&mut out, row.uid.0)?;
    push32(&mut out, row.time)?;
    let text = encode_flat(alloc, &row.skeleton)?;
    out.extend_from_slice(&text)?;
    Ok(out)
}

/// The bytes of a row. They are the record of the entry that has this skeleton, and whose large
/// binaries have these objects and lengths.
pub fn write_entry(alloc: Global, row: &EntryRow) -> Result<Vec<u8>, AllocError>
    requires soup { row.now.soup < 65536 }
    requires few { length row.now.larges < 65536 }
    ensures bytes { IfOk result (λ v. v.items ≡ row_bytes row.now) }
    ensures of_entry { (e : Entry) (ids : List ℕ) → e.uid ≡ row.now.uid → e.time ≡ row.now.time
        → AreRowsOf row.now.skeleton row.now.larges e.graph ids
        → IfOk result (λ v. v.items ≡ entry_bytes row.now.soup e ids) }
{
    let mut out = head_and_text(alloc, row)?;
    put_larges(&mut out, row.larges.list())?;
    Ok(out)
}
