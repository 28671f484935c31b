//! Aliases with ample memory.
use crate::records::check;
use newt_base::{Sig, Uid};
use newt_entries_alias::Alias;
use std::test::*;

#[test]
fn an_alias_is_read_back(rt: HostRuntime) -> Result<(), Fail> {
    let alias = Alias {
        store: Sig(7),
        soup: Sig(0),
        uid: Uid(12),
    };
    let graph = alias.graph(rt.alloc())?;
    check(&rt, graph.len() == 2, "an array and its class");
    check(&rt, Alias::read(&graph) == Some(alias), "the alias");
    Ok(())
}
