//! A store read from its backup.
ghost use Rattle.std.specs.Prelude.{◌≡◌, ◌<◌, [], true, false, length, map, Some, None};
ghost use Rattle.std.specs.Prelude.{IfOk, IsErrOf};
ghost use Rattle.std.specs.List.{sum_by};
ghost use Rattle.newt_nsof_flat.specs.Stream.{stream_graph};
ghost use Rattle.newt_soupdir.specs.Bare.{bare_store};
ghost use Rattle.newt_spec_graph.specs.Graph.{every};
ghost use Rattle.newt_backup.specs.Backup.{backup, Unbacked};
ghost use Rattle.newt_spec_store.specs.Lies.{directory_read};
ghost use Rattle.newt_backup.specs.Texts.{texts_from, full_read, contents_read};
ghost use Rattle.newt_backup.specs.Contents.{AreKept, store_in};
ghost use Rattle.newt_entries.specs.Full.{told};

use crate::checks::is_store;
use crate::fault::BackupFault;
use crate::nodes::HEAD;
use crate::pack::pack_backup;
use newt_base::{Sig, Uid, be16, be32};
use newt_entries::FullEntry;
use newt_graph::{Graph, Node};
use newt_nsof_read::{NsofFault, decode};
use newt_nsof_write::encode_flat;
use newt_soupdir::{DirFault, Directory, read_directory};
use std::alloc::{AllocError, Global};
use std::mem;

/// The version of a directory in a backup.
const VERSION: u16 = 2;

/// The most bytes that the texts of a store's backup have together: 500 for each page of the
/// largest unit.
const MOST_BYTES: usize = 7_989_000;

/// The texts of nodes: the bytes of all binaries between two arrays, joined. The first text is what
/// stands before any array.
pub(crate) fn texts(alloc: Global, nodes: &[Node]) -> Result<Vec<Vec<u8>>, AllocError>
    ensures { IfOk result (λ v. map (λ text. text.items) v.items ≡ texts_from [] nodes.now) }
{
    let mut texts = Vec::new(alloc);
    let mut text = Vec::new(alloc);
    let mut left = nodes;
    while let [node, rest @ ..] = left {
        match node {
            Node::Array(_, _) => texts.push(mem::replace(&mut text, Vec::new(alloc)))?,
            Node::Binary(_, bytes) => text.extend_from_slice(bytes.list())?,
            Node::Symbol(_) | Node::Str(_) | Node::Large(_, _) | Node::Frame(_, _) => {}
        }
        left = rest;
    }
    texts.push(text)?;
    Ok(texts)
}

/// Whether texts have no more bytes together than those of a store's backup.
fn are_short(texts: &[Vec<u8>]) -> bool
    ensures { result ≡ false → 7_989_000 < sum_by (λ text. length text.items) texts.now }
{
    let mut room = MOST_BYTES;
    let mut left = texts;
    while let [text, rest @ ..] = left {
        if room < text.len() {
            return false;
        }
        room -= text.len();
        left = rest;
    }
    true
}

/// The entry whole that a text has.
#[tactic(auto, unfolding(crate::specs::Texts::full_read))]
pub(crate) fn read_full(alloc: Global, text: &[u8]) -> Result<FullEntry, BackupFault>
    ensures found { IfOk result (λ e. full_read text.now ≡ Some (told e)) }
    ensures bad { IsErrOf result BackupFault.Bad → full_read text.now ≡ None }
{
    if text.len() < HEAD {
        return Err(BackupFault::Bad);
    }
    let graph = match decode(alloc, &text[HEAD..]) {
        Ok(graph) => graph,
        Err(NsofFault::Memory) => return Err(BackupFault::Memory),
        Err(_) => return Err(BackupFault::Bad),
    };
    Ok(FullEntry {
        soup: Sig(u32::from(be16(text, 0))),
        uid: Uid(be32(text, 2)),
        time: be32(text, 6),
        graph,
    })
}

/// The entries whole that texts have.
fn read_fulls(alloc: Global, texts: &[Vec<u8>]) -> Result<Vec<FullEntry>, BackupFault>
    ensures found { IfOk result (λ v. every (map full_read (map (λ text. text.items) texts.now))
        ≡ Some (map told v.items)) }
    ensures bad { IsErrOf result BackupFault.Bad
        → every (map full_read (map (λ text. text.items) texts.now)) ≡ None }
{
    let mut entries = Vec::new(alloc);
    let mut left = texts;
    while let [text, rest @ ..] = left {
        entries.push(read_full(alloc, text.as_slice())?)?;
        left = rest;
    }
    Ok(entries)
}

/// A directory, by its bytes.
fn read_first(alloc: Global, bytes: &[u8]) -> Result<Directory, BackupFault>
    ensures found { IfOk result (λ d. directory_read stream_graph 2 bytes.now
        ≡ Some (bare_store d)) }
    ensures bad { IsErrOf result BackupFault.Bad → directory_read stream_graph 2 bytes.now ≡ None }
{
    match read_directory(alloc, bytes, VERSION) {
        Ok(directory) => Ok(directory),
        Err(DirFault::Memory) => Err(BackupFault::Memory),
        Err(DirFault::Bad) => Err(BackupFault::Bad),
    }
}

/// The directory and the entries of texts.
fn contents(alloc: Global, texts: &[Vec<u8>]) -> Result<(Directory, Vec<FullEntry>), BackupFault>
    ensures found { IfOk result (λ x. contents_read (map (λ text. text.items) texts.now)
        ≡ Some (bare_store x.0, map told x.1.items)) }
    ensures bad { IsErrOf result BackupFault.Bad
        → contents_read (map (λ text. text.items) texts.now) ≡ None }
{
    let [_, directory, _, entries @ ..] = texts else {
        return Err(BackupFault::Bad);
    };
    let directory = read_first(alloc, directory.as_slice())?;
    let entries = read_fulls(alloc, entries)?;
    Ok((directory, entries))
}

/// The directory and the entries that are read of a graph, if it is a backup. A graph with more
/// bytes than any store has is not read, so that only what may be a store takes memory.
fn store_of(alloc: Global, graph: &Graph) -> Result<(Directory, Vec<FullEntry>), BackupFault>
    ensures found { IfOk result (λ x. contents_read (texts_from [] graph.now.nodes)
        ≡ Some (bare_store x.0, map told x.1.items)) }
    ensures bad { IsErrOf result BackupFault.Bad → Unbacked graph.now }
{
    let texts = texts(alloc, graph.nodes())?;
    if !are_short(&texts) {
        return Err(BackupFault::Bad);
    }
    contents(alloc, &texts)
}

/// Whether two graphs are the same: they have the same text.
fn are_same(alloc: Global, graph: &Graph, other: &Graph) -> Result<bool, AllocError>
    ensures yes { IfOk result (λ yes. yes ≡ true → other.now ≡ graph.now) }
    ensures no { IfOk result (λ yes. yes ≡ false → other.now ≡ graph.now → ⊥) }
{
    let _nodes = graph.nodes();
    let _others = other.nodes();
    let text = encode_flat(alloc, graph)?;
    let text_again = encode_flat(alloc, other)?;
    Ok(text.as_slice() == text_again.as_slice())
}

/// The directory and the entries of the store that has this backup. `Bad` comes exactly where no
/// store of any unit has it.
pub fn read_backup(alloc: Global, graph: &Graph) -> Result<(Directory, Vec<FullEntry>), BackupFault>
    ensures kept { IfOk result (λ x. AreKept x.0 x.1.items) }
    ensures found { IfOk result (λ x. backup (store_in x.0 x.1.items) ≡ graph.now) }
    ensures bad { IsErrOf result BackupFault.Bad → Unbacked graph.now }
{
    let (directory, entries) = store_of(alloc, graph)?;
    if !is_store(alloc, &directory, &entries)? {
        return Err(BackupFault::Bad);
    }
    let again = pack_backup(alloc, &directory, &entries)?;
    if !are_same(alloc, graph, &again)? {
        return Err(BackupFault::Bad);
    }
    Ok((directory, entries))
}
