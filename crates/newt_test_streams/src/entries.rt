//! Records in bytes that were spelt by hand, with ample memory.
ghost use Rattle.std.specs.Prelude.{◌≡◌, true, map, IfOk};
ghost use Rattle.newt_entries.specs.Entry.{row_at, fits};

use crate::records::Record;
use newt_entries::{
    EntryRow, FullEntry, Larges, filled, larges_of, read_entry, row_of, skeleton, write_entry,
};
use newt_graph::Graph;
use newt_test_tables::{bytes_of, expect_rows};
use std::alloc::{AllocError, Global};
use std::test::*;

/// An equal row, which is made of copies.
fn copied(row: &EntryRow) -> Result<EntryRow, AllocError>
    ensures { IfOk result (λ copy. copy ≡ row.now) }
{
    let EntryRow {
        soup,
        uid,
        time,
        skeleton: graph,
        larges,
    } = row.copy()?;
    let entry = FullEntry {
        soup,
        uid,
        time,
        graph,
    };
    let FullEntry {
        soup,
        uid,
        time,
        graph,
    } = entry.copy()?;
    Ok(EntryRow {
        soup,
        uid,
        time,
        skeleton: graph,
        larges: Larges::of(larges.into_vec()),
    })
}

/// The soup, the id and the minute of an entry, and whether its row is written as the same record;
/// or that there is none.
pub(crate) fn entry(alloc: Global, bytes: &[u8]) -> Result<String, Fail> {
    let row = match read_entry(alloc, bytes) {
        Ok(row) => row,
        Err(fault) => return Ok(format!(in alloc; "{fault:?}")?),
    };
    if row.soup.0 > 65_535 || row.larges.list().len() > 65_535 {
        return Err("a larger row".into());
    }
    let kept = write_entry(alloc, &copied(&row)?)?.as_slice() == bytes;
    Ok(format!(in alloc; "{} {} {} {kept}", row.soup.0, row.uid.0, row.time)?)
}

/// An entry: the soup, how many large binaries it has, the id, the minute and the flat text. For
/// each large binary its node, its object and its length follow.
const ENTRIES: &str = "
0003 0000 00000009 00000102 02 06 01 07 01 'a 0004 => 3 9 258 true
0003 0001 00000009 00000102 02 06 01 07 01 'a 0C 07 01 'b 00*17 00000002 00000004 00000005 => 3 9 258 true
0003 0001 00000009 00000102 02 06 01 07 01 'a 0C 07 01 'b 00*17 00000002 00000004 000F4240 => 3 9 258 true
0003 0001 00000009 00000102 02 06 01 07 01 'a 0C 07 01 'b 00*17 00000002 00000004 000F4241 => Bad
0003 0001 00000009 00000102 02 06 01 07 01 'a 0C 07 01 'b 00*17 00000001 00000004 00000005 => Bad
0003 0001 00000009 00000102 02 06 01 07 01 'a 0C 07 01 'b 00*17 00000002 00000005 00000005 => Bad
0003 0001 00000009 00000102 02 06 01 07 01 'a 0C 07 01 'b 00*17 00000002 00000000 00000005 => Bad
0003 0001 00000009 00000102 02 06 01 07 01 'a 0C 07 01 'b 00*17 => Bad
 => Bad
0003 0000 00000009 00000102 => Bad
0003 0000 00000009 00000102 02 0A => Bad
0003 0001 00000009 00000102 02 06 01 07 01 'a 0004 => Bad
0003 0000 00000009 00000102 02 06 01 07 01 'a 00FF 00000004 => Bad
0003 0000 00000009 00000102 02 06 04 07 03 'top 07 04 'left 07 06 'bottom 07 05 'right 0000*4 => 3 9 258 true
0003 0000 00000009 00000102 02 0B 00000000 => Bad
0003 0000 00000009 00000102 02 06 01 07 01 'a 06 04 07 03 'top 07 04 'left 07 06 'bottom 07 05 'right 0000*4 => 3 9 258 true
0003 0000 00000009 00000102 02 06 01 07 01 'a 0B 00000000 => Bad
0003 0001 00000009 00000102 02 06 02 07 03 'top 07 01 'v 06 04 09 01 07 04 'left 07 06 'bottom 07 05 'right 0000*4 0C 09 02 00*17 00000007 00000004 00000005 => 3 9 258 true
0003 0001 00000009 00000102 02 06 02 07 03 'top 07 01 'v 06 04 09 01 07 04 'left 07 06 'bottom 07 05 'right 0000*4 0C 09 02 00*17 00000004 00000004 00000005 => Bad
";

#[test]
fn records_of_entries_are_read_and_written(rt: HostRuntime) -> Result<(), Fail> {
    expect_rows(rt.alloc(), &Record::Entry, ENTRIES)
}

/// The record of a graph with one large binary, which has this object.
fn written_again(
    alloc: Global,
    row: &EntryRow,
    graph: &Graph,
    object: u32,
) -> Result<Option<Vec<u8>>, AllocError> {
    let larges = larges_of(alloc, graph)?;
    let [_] = larges.as_slice() else {
        return Ok(None);
    };
    if row.soup.0 > 65_535 {
        return Ok(None);
    }
    let again = row_of(alloc, row.soup, row.uid, row.time, graph, &[object])?;
    Ok(Some(write_entry(alloc, &again)?))
}

/// The graph of a row with one large binary, which has these bytes.
fn filled_by(alloc: Global, row: &EntryRow, bytes: &[u8]) -> Result<Option<Graph>, AllocError>
    requires { fits (map row_at row.now.larges) row.now.skeleton ≡ true }
{
    let [large] = row.larges.list() else {
        return Ok(None);
    };
    if bytes.len() != large.length as usize {
        return Ok(None);
    }
    let mut given = Vec::new(alloc);
    given.push(Vec::from_slice(alloc, bytes)?)?;
    Ok(Some(filled(alloc, row, given)?))
}

fn has_bytes(alloc: Global, graph: &Graph, bytes: &[u8]) -> bool {
    match larges_of(alloc, graph) {
        Ok(larges) => larges.len() == 1 && larges[0].as_slice() == bytes,
        Err(_) => false,
    }
}

/// Whether the graph's skeleton has no bytes.
fn is_bare(alloc: Global, graph: &Graph) -> Option<bool> {
    let bare = skeleton(alloc, graph).ok()?;
    Some(has_bytes(alloc, &bare, b""))
}

fn is_written(
    alloc: Global,
    row: &EntryRow,
    graph: &Graph,
    object: u32,
    record: &[u8],
) -> Option<bool> {
    let written = written_again(alloc, row, graph, object).ok()??;
    Some(written.as_slice() == record)
}

fn is_same(
    alloc: Global,
    row: &EntryRow,
    graph: &Graph,
    object: u32,
    record: &[u8],
) -> Option<bool> {
    Some(is_bare(alloc, graph)? && is_written(alloc, row, graph, object, record)?)
}

fn is_row_made_again(
    alloc: Global,
    row: &EntryRow,
    object: u32,
    bytes: &[u8],
    record: &[u8],
) -> Option<bool>
    requires { fits (map row_at row.now.larges) row.now.skeleton ≡ true }
{
    let graph = filled_by(alloc, row, bytes).ok()??;
    if !has_bytes(alloc, &graph, bytes) {
        return None;
    }
    is_same(alloc, row, &graph, object, record)
}

/// Whether the record of an entry with one large binary is made again from its graph, and the
/// graph's skeleton has no bytes.
fn is_made_again(alloc: Global, record: &[u8], object: u32, bytes: &[u8]) -> Option<bool> {
    let row = read_entry(alloc, record).ok()?;
    is_row_made_again(alloc, &row, object, bytes, record)
}

#[test]
fn a_large_binary_is_filled_in(rt: HostRuntime) -> Result<(), Fail> {
    let record = bytes_of(
        rt.alloc(),
        "0003 0001 00000009 00000102 02 06 01 07 01 'a 0C 07 01 'b 00*17 00000002 00000004 00000005",
    )?;
    assert!(rt; is_made_again(rt.alloc(), &record, 4, b"hello") == Some(true));
    Ok(())
}
