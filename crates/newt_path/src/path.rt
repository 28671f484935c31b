//! Paths, and how they are read.
ghost use Rattle.std.specs.Prelude.{◌≡◌, IfOk, IsErrOf, None, Some, zip};
ghost use Rattle.std.specs.List.{list_all};
ghost use Rattle.newt_base.specs.Names.{same_name, same_path};
ghost use Rattle.newt_path.specs.Names.{IsPath, path_of};
ghost use Rattle.newt_path.specs.declared.fault.PathFault.{PathFault};

use crate::fault::PathFault;
use newt_base::is_identifier;
use newt_graph::Bytes;
use std::alloc::{AllocError, Global};
use std::marker::Model;

/// The most names of a path.
const MOST: usize = 8;

/// A path: 1 to 8 names of slots, from the root down. A name has 1 to 254 bytes from 32 to 126.
#[derive(Drop)]
pub struct Path {
    items: Vec<Bytes>,
}

impl Model for Path {
    ghost use Rattle.std.specs.Prelude.{List, ℕ};
    ghost use Rattle.newt_path.specs.Names.{IsPath};

    ghost Value = { List (List ℕ) };

    ghost view = { λ path. path.items.items };

    ghost invariant = { λ path. IsPath path.items.items };
}

impl Path {
    /// The path of names that are one already.
    pub fn of(items: Vec<Bytes>) -> Self
        requires { IsPath items.items }
        ensures { result ≡ items.items }
    {
        Path { items }
    }

    /// Reads 1 to 8 identifiers with points between them. `Path` comes only where the text is no
    /// path; `Memory` may come in place of any answer.
    pub fn read(alloc: Global, text: &[u8]) -> Result<Path, PathFault>
        ensures ok { IfOk result (λ path. path_of text.now ≡ Some path) }
        ensures path { IsErrOf result PathFault.Path → path_of text.now ≡ None }
    {
        let mut items = Vec::new(alloc);
        for name in text.split(|byte| *byte == b'.') {
            if items.len() >= MOST || !is_identifier(name) {
                return Err(PathFault::Path);
            }
            items.push(Bytes::of(Vec::from_slice(alloc, name)?))?;
        }
        Ok(Path { items })
    }

    /// Whether two paths are alike but for ASCII case. It takes no memory.
    pub fn same(&self, other: &Path) -> bool
        ensures { result ≡ same_path self.now other.now }
    {
        self.items.len() == other.items.len() && all_same(&self.items, &other.items)
    }

    /// The names from the root down.
    pub fn list(&self) -> &[Bytes]
        ensures names { result.now ≡ self.now }
        ensures path { IsPath self.now }
    {
        self.items.as_slice()
    }

    /// An equal path.
    pub fn copy(&self) -> Result<Path, AllocError>
        ensures { IfOk result (λ copy. copy ≡ self.now) }
    {
        let mut items = Vec::new(*self.items.allocator());
        for name in &self.items {
            items.push(name.copy()?)?;
        }
        Ok(Path { items })
    }
}

/// Whether the names of one list are those of another but for ASCII case, as far as the shorter
/// list goes.
fn all_same(names: &[Bytes], others: &[Bytes]) -> bool
    ensures { result ≡ list_all (λ s. same_name s.0 s.1) (zip names.now others.now) }
{
    names
        .iter()
        .zip(others)
        .all(|(a, b)| a.list().eq_ignore_ascii_case(b.list()))
}
