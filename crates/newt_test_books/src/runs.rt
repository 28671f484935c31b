//! Runs over real files.

use crate::filled::write_filled;
use newt_host_files::FileHost;
use newt_top::{Status, run};
use std::alloc::{AllocError, Global};
use std::fs::{self, File};
use std::test::Fail;

fn words(alloc: Global, texts: &[&str]) -> Result<Vec<String>, AllocError> {
    let mut words = Vec::new(alloc);
    for text in texts {
        words.push(String::from_str(alloc, text)?)?;
    }
    Ok(words)
}

/// How a run of the script over the files `internal` and `card` ends.
fn run_over_files(rt: &HostRuntime) -> Result<Status, Fail> {
    let words = words(rt.alloc(), &["run", "internal", "card"])?;
    let (input, output) = (File::open(rt, "script")?, File::create(rt, "replies")?);
    let mut host = FileHost::new(rt.alloc(), rt, input, output)?;
    Ok(run(rt.alloc(), &words, &mut host))
}

/// The bytes of a file, which is then removed.
fn taken(rt: &HostRuntime, name: &str) -> Result<Vec<u8>, Fail> {
    let bytes = fs::read(rt, name)?;
    fs::remove_file(rt, name)?;
    Ok(bytes)
}

/// How a run of a script ended, and what it wrote.
fn session(rt: &HostRuntime, script: &[u8]) -> Result<(Status, Vec<u8>), Fail> {
    fs::write(rt, "script", script)?;
    let status = run_over_files(rt)?;
    fs::remove_file(rt, "script")?;
    Ok((status, taken(rt, "replies")?))
}

const FIRST: &[u8] = b"format 0 Internal 7
format 1 Card 9
mount 0
mount 1
time 100
soup 0 Notes
soup 1 Notes
add 0 Notes {title: \"Milk\"}
add 0 Notes {title: \"Bread\"}
move 0 Notes 1 1 Notes
alias 1 Notes 0
";

const FIRST_REPLIES: &[u8] = b"ok
ok
ok 7 Internal
ok 9 Card
ok
ok 0
ok 0
ok 0
ok 1
ok 0
ok [alias: 9, 0, 0]
";

const SECOND: &[u8] = b"mount 1
mount 0
stores
resolve [alias: 9, 0, 0]
get 1 Notes 0
soups 0
add 0 Notes {}
quit
";

const SECOND_REPLIES: &[u8] = b"ok 9 Card
ok 7 Internal
ok 0 7 Internal, 1 9 Card
ok 1 Notes 0
ok 100 {title: \"Bread\"}
ok Notes 0 1
ok 2
ok
";

/// A run ended well, and wrote these replies and no others.
fn expect_replies(run: &(Status, Vec<u8>), wanted: &[u8]) -> Result<(), Fail> {
    let (status, written) = run;
    if *status != Status::Ok || written.as_slice() != wanted {
        return Err(Fail::new(format_args!("{status:?} after {written:?}")));
    }
    Ok(())
}

/// The devices of a first run, of thirteen blocks each.
fn write_cards(rt: &HostRuntime) -> Result<(), Fail> {
    write_filled(rt, "internal", 53_248, 0)?;
    write_filled(rt, "card", 53_248, 0)
}

fn remove_cards(rt: &HostRuntime) -> Result<(), Fail> {
    fs::remove_file(rt, "internal")?;
    fs::remove_file(rt, "card")?;
    Ok(())
}

#[test]
fn goes_on_with_the_stores_of_the_run_before(rt: HostRuntime) -> Result<(), Fail> {
    write_cards(&rt)?;
    let first = session(&rt, FIRST)?;
    let second = session(&rt, SECOND)?;
    remove_cards(&rt)?;
    expect_replies(&first, FIRST_REPLIES)?;
    expect_replies(&second, SECOND_REPLIES)
}
