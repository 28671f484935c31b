//! Edits of a working copy with ample memory.
use crate::records::check;
use newt_base::{Sig, Uid};
use newt_graph::Graph;
use newt_lit_print::print_literal;
use newt_lit_read::read_literal;
use newt_path::{Path, SetFault};
use newt_work::Work;
use std::alloc::Global;
use std::process::Abort;
use std::test::*;

fn literal(alloc: Global, text: &str) -> Result<Graph, Fail> {
    Ok(read_literal(alloc, text).ok().ok_or("a literal")?)
}

/// A copy of the entry `{a: 1}` of the minute 4.
fn opened(alloc: Global) -> Result<Work, Fail> {
    let entry = literal(alloc, "{a: 1}")?;
    Ok(Work::open(alloc, Sig(1), Sig(2), Uid(3), 4, entry)?)
}

/// The copy with 2 put at a path, or why it is not put.
fn edited(alloc: Global, work: &mut Work, path: &[u8]) -> Result<Result<(), SetFault>, Fail> {
    let path = Path::read(alloc, path).ok().ok_or("a path")?;
    let two = literal(alloc, "2")?;
    Ok(work.edit(&path, &two))
}

/// The entry stays what it was.
fn edit_draft(rt: &impl Abort, alloc: Global, work: &mut Work) -> Result<(), Fail> {
    check(rt, work.based(4, work.draft()), "the entry");
    check(rt, edited(alloc, work, b"a")? == Ok(()), "the edit");
    let text = print_literal(alloc, work.draft())?;
    check(rt, text.as_slice() == b"{a: 2}".as_slice(), "the draft");
    check(rt, !work.based(4, work.draft()), "another entry");
    Ok(())
}

#[test]
fn an_edit_changes_the_draft_alone(rt: HostRuntime) -> Result<(), Fail> {
    let mut work = opened(rt.alloc())?;
    edit_draft(&rt, rt.alloc(), &mut work)
}

#[test]
fn an_edit_without_a_path_leaves_the_draft(rt: HostRuntime) -> Result<(), Fail> {
    let mut work = opened(rt.alloc())?;
    let fault = edited(rt.alloc(), &mut work, b"b.c")?;
    check(&rt, fault == Err(SetFault::NoPath), "no path");
    check(&rt, work.based(4, work.draft()), "the draft");
    Ok(())
}

/// The draft is the entry that the copy then has, of another minute.
fn begin_anew(rt: &impl Abort, alloc: Global, work: &mut Work) -> Result<(), Fail> {
    check(rt, edited(alloc, work, b"b")? == Ok(()), "the edit");
    let base = work.draft().copy()?;
    let draft = base.copy()?;
    work.rebase(5, base, draft);
    check(rt, work.based(5, work.draft()), "the draft");
    check(rt, edited(alloc, work, b"c")? == Ok(()), "the next edit");
    check(rt, !work.based(5, work.draft()), "another draft");
    work.rebase_to_draft(6);
    check(rt, work.based(6, work.draft()), "the next draft");
    Ok(())
}

#[test]
fn a_copy_begins_anew_with_its_draft(rt: HostRuntime) -> Result<(), Fail> {
    let mut work = opened(rt.alloc())?;
    begin_anew(&rt, rt.alloc(), &mut work)
}
