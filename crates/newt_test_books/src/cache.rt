//! Pages that were read are not read again while they are cached.
ghost use Rattle.std.specs.Prelude.{true, OnOk};
ghost use Rattle.newt_memhost.specs.Outside.{outside_of};

use crate::names::card;
use crate::sessions::{OnDevice, ask, started};
use newt_memhost::MemHost;
use newt_script_session::Interpreter;
use newt_test_scripts::over;
use std::alloc::Global;
use std::test::Fail;

/// Gets the entries of these ids, and answers how many calls that took.
fn gets<I: Interpreter>(
    alloc: Global,
    host: &mut MemHost,
    it: &mut I,
    from: u32,
    to: u32,
) -> Result<u64, Fail>
    requires { I.stands true it.old (outside_of host.old) }
    ensures { OnOk result (I.stands true it.new (outside_of host.new)) }
{
    let before = host.calls();
    for id in from..to {
        let text = format!(in alloc; "get 0 Names {id}")?;
        let reply = ask(alloc, host, it, text.as_str())?;
        if !reply.starts_with(b"ok 0 {name: {first: \"F") {
            return Err(Fail::new(format_args!("no entry {id}")));
        }
    }
    Ok(host.calls().saturating_sub(before))
}

/// Reads a hundred and some entries of the mounted card, the first ones again and again.
fn reads_once<I: Interpreter>(alloc: Global, host: &mut MemHost, it: &mut I) -> Result<(), Fail>
    requires { I.stands true it.old (outside_of host.old) }
{
    if ask(alloc, host, it, "mount 0")?.as_slice() != b"ok 1 Gen\n".as_slice() {
        return Err(Fail::new("it is not mounted"));
    }
    gets(alloc, host, it, 0, 60)?;
    if gets(alloc, host, it, 0, 60)? != 0 {
        return Err(Fail::new("what is cached is read again"));
    }
    gets(alloc, host, it, 60, 200)?;
    if gets(alloc, host, it, 0, 1)? == 0 {
        return Err(Fail::new("what is not cached is not read"));
    }
    Ok(())
}

#[test]
fn cache(rt: HostRuntime) -> Result<(), Fail> {
    let alloc = rt.alloc();
    let mut host = over(alloc, b"", &card(alloc)?, &[])?;
    let mut world: OnDevice = started(alloc, &mut host)?;
    reads_once(alloc, &mut host, &mut world)
}
