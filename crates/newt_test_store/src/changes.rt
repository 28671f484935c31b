//! The changes of a table.

use crate::digits::spelt;
use newt_base::{Name, Sig, Uid};
use newt_graph::Graph;
use newt_keys::IndexSpec;
use newt_nsof_read::decode;
use newt_soupdir::{Directory, SoupRow, read_directory};
use newt_store::{Change, Paths};
use newt_tags::TagTable;
use std::alloc::Global;
use std::test::Fail;

/// A store `S` with the soup `A`, up to the number of its indexes, as a directory has it.
const STORE: &str = "0153 00000001 0001 01 0141 0000 00000000 ";

/// The graph of a text.
fn graph_of(alloc: Global, text: &str) -> Result<Graph, Fail> {
    Ok(decode(alloc, &spelt(alloc, text)?)?)
}

/// The bytes of the store's directory with these indexes and tags, spelt as a directory has them.
fn store_with(alloc: Global, declared: &str) -> Result<Vec<u8>, Fail> {
    let text = format!(in alloc; "{STORE}{declared}")?;
    spelt(alloc, text.as_str())
}

/// The directory of a store whose soup has these indexes and tags.
fn directory_of(alloc: Global, declared: &str) -> Result<Directory, Fail> {
    let bytes = store_with(alloc, declared)?;
    Ok(read_directory(alloc, &bytes, 2).ok().ok_or("no directory")?)
}

/// Its soup.
fn soup_in(directory: &Directory) -> Result<&SoupRow, Fail> {
    Ok(directory.soup_of(Sig(0)).ok_or("no soup")?)
}

/// The first index of a directory's soup.
fn index_in(directory: &Directory) -> Result<IndexSpec, Fail> {
    let index = soup_in(directory)?.specs.list().first().ok_or("no index")?;
    Ok(index.copy()?)
}

/// The first of these indexes.
fn index_of(alloc: Global, declared: &str) -> Result<IndexSpec, Fail> {
    let directory = directory_of(alloc, declared)?;
    index_in(&directory)
}

/// The paths of an index.
fn paths_in(alloc: Global, index: &IndexSpec) -> Result<Paths, Fail> {
    let mut paths = Vec::new(alloc);
    for part in index.list() {
        paths.push(part.path.copy()?)?;
    }
    Ok(Paths::of(paths))
}

/// The paths of the first of these indexes.
fn paths_of(alloc: Global, declared: &str) -> Result<Paths, Fail> {
    let index = index_of(alloc, declared)?;
    paths_in(alloc, &index)
}

/// The tags of a directory's soup.
fn tags_in(directory: &Directory) -> Result<TagTable, Fail> {
    let table = soup_in(directory)?.tags.as_ref().ok_or("no tags")?;
    Ok(table.copy()?)
}

/// These tags.
fn tags_of(alloc: Global, declared: &str) -> Result<TagTable, Fail> {
    let directory = directory_of(alloc, declared)?;
    tags_in(&directory)
}

/// The info frame of a text, or none.
fn info_of(alloc: Global, text: &str) -> Result<Option<Graph>, Fail> {
    if text.is_empty() {
        return Ok(None);
    }
    Ok(Some(graph_of(alloc, text)?))
}

/// The change of an entry of a soup.
fn entry_change(alloc: Global, word: &str, soup: Sig, rest: &str) -> Result<Change, Fail> {
    let (uid, rest) = rest.split_once(' ').unwrap_or((rest, ""));
    let uid = Uid(uid.parse()?);
    match word {
        "remove" => Ok(Change::Remove(soup, uid)),
        "move" => Ok(Change::Move(soup, uid, Sig(rest.parse()?))),
        "replace" => Ok(Change::Replace(soup, uid, graph_of(alloc, rest)?)),
        _ => Err(Fail::new("no such change")),
    }
}

/// The change of a soup.
fn soup_change(alloc: Global, word: &str, soup: Sig, rest: &str) -> Result<Change, Fail> {
    match word {
        "drop" => Ok(Change::DropSoup(soup)),
        "add" => Ok(Change::Add(soup, graph_of(alloc, rest)?)),
        "index" => Ok(Change::AddIndex(soup, index_of(alloc, rest)?)),
        "unindex" => Ok(Change::DropIndex(soup, paths_of(alloc, rest)?)),
        "tags" => Ok(Change::SetTags(soup, tags_of(alloc, rest)?)),
        "info" => Ok(Change::SetInfo(soup, info_of(alloc, rest)?)),
        _ => entry_change(alloc, word, soup, rest),
    }
}

/// The change of a line without a minute.
fn change_in(alloc: Global, line: &str) -> Result<Change, Fail> {
    let (word, rest) = line.split_once(' ').ok_or("no change")?;
    if word == "make" {
        return Ok(Change::MakeSoup(Name::read(alloc, rest.as_bytes())?));
    }
    let (soup, rest) = rest.split_once(' ').unwrap_or((rest, ""));
    soup_change(alloc, word, Sig(soup.parse()?), rest)
}

/// The change of a line, and its minute.
pub(crate) fn change_of(alloc: Global, line: &str) -> Result<(Change, u32), Fail> {
    let (line, minute) = line.split_once(" @").unwrap_or((line, "0"));
    let minute: u32 = minute.parse()?;
    Ok((change_in(alloc, line)?, minute))
}

/// The change that adds an empty frame to a soup.
pub(crate) fn add_empty(alloc: Global, soup: u32) -> Result<Change, Fail> {
    Ok(Change::Add(Sig(soup), graph_of(alloc, "020600")?))
}
