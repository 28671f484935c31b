//! Reading an entry record.
ghost use Rattle.std.specs.Prelude.{◌≡◌, ◌≤◌, ◌<◌, ◌*◌, true, All, length, map, Some, None, IfOk};
ghost use Rattle.std.specs.Prelude.{IsErrOf};
ghost use Rattle.newt_base.specs.Text.{be32_at};
ghost use Rattle.newt_spec_store.specs.Lies.{record_read};
ghost use Rattle.newt_spec_store.specs.Reading.{written};
ghost use Rattle.newt_nsof_flat.specs.Stream.{stream_graph};
ghost use Rattle.newt_entries.specs.Entry.{row_at, rows_in, fits, said};

use crate::fault::EntryFault;
use crate::fit::is_fit;
use crate::row::{EntryRow, LargeAt, Larges};
use newt_base::{Sig, Uid, be16, be32};
use newt_graph::Graph;
use newt_nsof_flat::{FlatFault, read_flat};
use std::alloc::{AllocError, Global};

/// The bytes before an entry's text: soup signature, number of large binaries, id and time.
const HEAD: usize = 12;

/// The bytes of the row of a large binary: node, object and length.
const ROW: usize = 12;

/// The graph whose flat text this is.
fn graph_of(alloc: Global, text: &[u8]) -> Result<Graph, EntryFault>
    ensures found { IfOk result (λ g. written stream_graph text.now ≡ Some g) }
    ensures bad { IsErrOf result EntryFault.Bad → written stream_graph text.now ≡ None }
{
    match read_flat(alloc, text) {
        Ok(graph) => Ok(graph),
        Err(FlatFault::Bad) => Err(EntryFault::Bad),
        Err(FlatFault::Memory) => Err(EntryFault::Memory),
    }
}

/// The row of a large binary at the front of bytes.
fn large_at(bytes: &[u8]) -> LargeAt
    requires { 12 ≤ length bytes.now }
    ensures { row_at result ≡ (be32_at bytes.now 0, be32_at bytes.now 4, be32_at bytes.now 8) }
{
    LargeAt {
        node: be32(bytes, 0),
        object: be32(bytes, 4),
        length: be32(bytes, 8),
    }
}

/// The rows of so many large binaries, which are all of the bytes.
fn rows_of(alloc: Global, bytes: &[u8], count: usize) -> Result<Vec<LargeAt>, AllocError>
    requires { length bytes.now ≡ 12 * count }
    ensures { IfOk result (λ rows. map row_at rows.items ≡ rows_in count bytes.now) }
{
    let mut rows = Vec::new(alloc);
    let mut left = bytes;
    let mut more = count;
    while more > 0 {
        rows.push(large_at(left))?;
        left = &left[ROW..];
        more -= 1;
    }
    Ok(rows)
}

/// The record that all of the bytes are read as. It has at most 65,535 large binaries of at most
/// 1,000,000 bytes each, which are those of its skeleton. `Bad` comes only where the bytes are no
/// record. The objects that it names are not looked at.
pub fn read_entry(alloc: Global, bytes: &[u8]) -> Result<EntryRow, EntryFault>
    ensures found { IfOk result (λ row. record_read stream_graph bytes.now ≡ Some (said row)) }
    ensures fit { IfOk result (λ row. fits (map row_at row.larges) row.skeleton ≡ true) }
    ensures few { IfOk result (λ row. length row.larges < 65536) }
    ensures short { IfOk result (λ row. All (λ l. l.length ≤ 1000000) row.larges) }
    ensures soup { IfOk result (λ row. row.soup < 65536) }
    ensures bad { IsErrOf result EntryFault.Bad → record_read stream_graph bytes.now ≡ None }
{
    if bytes.len() < HEAD {
        return Err(EntryFault::Bad);
    }
    let count = usize::from(be16(bytes, 2));
    if bytes.len() - HEAD < ROW * count {
        return Err(EntryFault::Bad);
    }
    let end = bytes.len() - ROW * count;
    let skeleton = graph_of(alloc, &bytes[HEAD..end])?;
    let larges = rows_of(alloc, &bytes[end..], count)?;
    if !is_fit(&skeleton, &larges) {
        return Err(EntryFault::Bad);
    }
    Ok(EntryRow {
        soup: Sig(u32::from(be16(bytes, 0))),
        uid: Uid(be32(bytes, 4)),
        time: be32(bytes, 8),
        skeleton,
        larges: Larges::of(larges),
    })
}
