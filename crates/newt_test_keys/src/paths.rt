//! What paths are read as, and what they reach, with ample memory. Paths into larger graphs are
//! tested where literals are read.
use crate::calls::Call;
use crate::keys::literal;
use newt_path::{Path, PathFault, set_at, value_at};
use newt_test_tables::expect_rows;
use std::alloc::Global;
use std::test::*;

fn copied(alloc: Global, path: &Path) -> Result<String, Fail> {
    let copy = path.copy()?;
    Ok(format!(in alloc; "{} {}", copy.list().len(), copy.same(path))?)
}

/// How many names a path has and whether its copy is the same path, or the fault.
pub(crate) fn named(alloc: Global, text: &str) -> Result<String, Fail> {
    match Path::read(alloc, text.as_bytes()) {
        Ok(path) => copied(alloc, &path),
        Err(PathFault::Path) => Ok(String::from_str(alloc, "path")?),
        Err(PathFault::Memory) => Ok(String::from_str(alloc, "memory")?),
    }
}

/// Whether a path is `Name.last`.
pub(crate) fn is_same(alloc: Global, text: &str) -> Result<String, Fail> {
    let path = Path::read(alloc, b"Name.last")?;
    let other = Path::read(alloc, text.as_bytes())?;
    Ok(format!(in alloc; "{}", path.same(&other))?)
}

/// What the path `a` reaches in a graph, and how a change there is refused.
pub(crate) fn reached(alloc: Global, text: &str) -> Result<String, Fail> {
    let graph = literal(alloc, text)?;
    let path = Path::read(alloc, b"a")?;
    let fault = set_at(alloc, &graph, &path, &graph).err();
    Ok(format!(in alloc; "{:?} {fault:?}", value_at(&graph, &path))?)
}

/// Up to eight identifiers of up to 254 characters, with points between them.
const NAMES: &str = "
a => 1 true
name.last => 2 true
_1.B2.c_ => 3 true
a.b.c.d.e.f.g.h => 8 true
~n*254~ => 1 true
 => path
. => path
a. => path
.a => path
a..b => path
1a => path
a b => path
a.|b| => path
a-b => path
a.b.c.d.e.f.g.h.i => path
~n*255~ => path
";

/// Paths are compared without case.
const SAME: &str = "
name.LAST => true
name => false
name.last.x => false
nameXlast => false
name.lost => false
";

/// Nothing is reached from what is no frame, and a frame gets the slot that it lacks.
const REACHED: &str = "
nil => None Some(NoPath)
7 => None Some(NoPath)
[7] => None Some(NoPath)
{b: 7} => None None
{A: nil} => Some(Imm(2)) None
";

#[test]
fn a_path_is_identifiers_with_points_between_them(rt: HostRuntime) -> Result<(), Fail> {
    expect_rows(rt.alloc(), &Call::Names, NAMES)
}

#[test]
fn paths_are_compared_without_case(rt: HostRuntime) -> Result<(), Fail> {
    expect_rows(rt.alloc(), &Call::Same, SAME)
}

#[test]
fn a_path_goes_through_frames(rt: HostRuntime) -> Result<(), Fail> {
    expect_rows(rt.alloc(), &Call::Reached, REACHED)
}
