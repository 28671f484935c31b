//! Directories in bytes that were spelt by hand, with ample memory.
use crate::records::{Record, check};
use newt_base::{Name, Sig};
use newt_graph::Graph;
use newt_keys::{IndexSpec, Kind, Order};
use newt_path::Path;
use newt_soupdir::{
    Directory, MOST_INFO, SoupRow, info_len, is_info, read_directory, write_directory,
};
use newt_tags::TagTable;
use newt_test_tables::{bytes_of, expect_rows};
use std::alloc::Global;
use std::process::Abort;
use std::test::*;

/// The name, the signature and the next soup of a directory of a version, and whether it is written
/// as the same bytes; or that there is none. A version other than 1 is read as 2.
pub(crate) fn directory(alloc: Global, bytes: &[u8], version: u16) -> Result<String, Fail> {
    let version = if version == 1 { 1 } else { 2 };
    match read_directory(alloc, bytes, version) {
        Ok(read) => described(alloc, &read, bytes),
        Err(fault) => Ok(format!(in alloc; "{fault:?}")?),
    }
}

fn described(alloc: Global, read: &Directory, bytes: &[u8]) -> Result<String, Fail> {
    let name = str::from_utf8(read.name.list())?;
    let kept = is_written(alloc, read, bytes);
    Ok(format!(in alloc; "{name} {} {} {kept}", read.sig.0, read.next_soup)?)
}

/// The same for the store `S` with the soup `A`, from the number of that soup's indexes on.
pub(crate) fn soup(alloc: Global, tail: &[u8], version: u16) -> Result<String, Fail> {
    directory(alloc, &with_tail(alloc, tail)?, version)
}

fn with_tail(alloc: Global, tail: &[u8]) -> Result<Vec<u8>, Fail> {
    let mut bytes = bytes_of(alloc, "01 'S 00000001 0001 01 01 'A 0000 00000000")?;
    bytes.extend_from_slice(tail)?;
    Ok(bytes)
}

fn read_words(alloc: Global, words: &str) -> Result<Directory, Fail> {
    Ok(read_directory(alloc, &bytes_of(alloc, words)?, 2)?)
}

fn read_tail(alloc: Global, words: &str) -> Result<Directory, Fail> {
    let tail = bytes_of(alloc, words)?;
    Ok(read_directory(alloc, &with_tail(alloc, &tail)?, 2)?)
}

fn copy_of(alloc: Global, words: &str) -> Result<Directory, Fail> {
    Ok(read_words(alloc, words)?.copy()?)
}

fn is_written(alloc: Global, directory: &Directory, bytes: &[u8]) -> bool {
    if !directory.is_well_formed() {
        return false;
    }
    match write_directory(alloc, directory) {
        Ok(written) => written.as_slice() == bytes,
        Err(_) => false,
    }
}

/// The name of the store, its signature, the next soup's signature, and the soups. A soup is its
/// name, its signature, the next entry id, indexes, tags and info frame.
const DIRECTORIES: &str = "
08 'Internal 00000007 0000 00 => Internal 7 0 true
01 'S 00000001 0002 02 01 'A 0000 00000003 00 00 01 'a 0001 00000000 00 00 => S 1 2 true
 => Bad
08 'Internal 00000007 0000 00 00 => Bad
08 'Internal 20000000 0000 00 => Bad
01 'S 00000001 0000 01 01 'A 0000 00000000 00 00 => Bad
";

/// The indexes, and whether there are tags. An index is how many parts it has, and for each of them
/// the type, the order and the path. The tags are their path, and each of them.
const SOUPS: &str = "
00 00 => S 1 1 true
01 01 00 00 02 04 'name 04 'last 00 => S 1 1 true
02 04 00 00 01 01 'a 01 01 02 01 'b 01 'c 02 00 01 01 'd 03 01 01 03 'e_1 01 01 01 01 01 'b 00 => S 1 1 true
00 01 01 06 'labels 02 08 'business 08 'personal => S 1 1 true
00 01 01 06 'labels 00 => S 1 1 true
10 ~01 00 00 01 02 'a№ *10~ ~01 00 00 01 02 'b№ *6~ 00 => S 1 1 true
11 ~01 00 00 01 02 'a№ *10~ ~01 00 00 01 02 'b№ *7~ 00 => Bad
00 01 01 06 'labels 40 ~02 'a№ *10~ ~02 'b№ *10~ ~02 'c№ *10~ ~02 'd№ *10~ ~02 'e№ *10~ ~02 'f№ *10~ ~02 'g№ *4~ => S 1 1 true
00 01 01 06 'labels 41 ~02 'a№ *10~ ~02 'b№ *10~ ~02 'c№ *10~ ~02 'd№ *10~ ~02 'e№ *10~ ~02 'f№ *10~ ~02 'g№ *5~ => Bad
01 01 04 00 01 01 'a 00 => Bad
01 01 00 02 01 01 'a 00 => Bad
01 00 00 => Bad
01 05 ~00 00 01 01 'a *5~ 00 => Bad
01 01 00 00 00 00 => Bad
01 01 00 00 08 ~01 'a *8~ 00 => S 1 1 true
01 01 00 00 09 ~01 'a *9~ 00 => Bad
01 01 00 00 01 00 00 => Bad
01 01 00 00 01 01 '1 00 => Bad
01 01 00 00 01 02 'a. 00 => Bad
02 01 00 00 01 01 'a 01 01 01 01 01 'A 00 => Bad
00 02 => Bad
00 04 => Bad
00 01 00 00 => Bad
00 01 01 01 'l 02 01 'a 01 'A => Bad
00 01 01 01 'l 01 02 'a- => Bad
00 01 01 01 'l 02 01 'a => Bad
00 00 00 => Bad
";

/// No indexes, and an info frame, alone or after tags: the length of its text, and the text. The
/// text is the one that is written for a frame without large binaries, and has at most 4,000 bytes.
const INFOS: &str = "
00 02 000A 02 06 01 07 03 'ver 00 08 => S 1 1 true
00 03 01 06 'labels 01 08 'business 000A 02 06 01 07 03 'ver 00 08 => S 1 1 true
00 01 01 06 'labels 01 08 'business 000A 02 06 01 07 03 'ver 00 08 => Bad
00 02 000B 02 06 01 07 03 'ver 00 08 => Bad
00 02 0009 02 06 01 07 03 'ver 00 08 => Bad
00 02 0A => Bad
00 02 000E 02 06 01 07 03 'ver 00 FF 00000008 => Bad
00 02 0003 02 05 00 => Bad
00 02 0002 02 0A => Bad
00 02 001F 02 06 01 07 01 'b 0C 07 01 'x 00 00000004 00000000 00000000 00000000 00000000 => Bad
00 02 0FA0 02 06 01 07 01 'b 03 FF 00000F91 07 01 'x ~00 *3985~ => S 1 1 true
00 02 0FA1 02 06 01 07 01 'b 03 FF 00000F92 07 01 'x ~00 *3986~ => Bad
";

/// The same in version 1, which has no info frames.
const OLD_SOUPS: &str = "
00 00 => S 1 1 true
00 01 01 06 'labels 02 08 'business 08 'personal => S 1 1 true
00 02 000A 02 06 01 07 03 'ver 00 08 => Bad
00 03 01 06 'labels 01 08 'business 000A 02 06 01 07 03 'ver 00 08 => Bad
";

#[test]
fn directories_are_read_and_written(rt: HostRuntime) -> Result<(), Fail> {
    expect_rows(rt.alloc(), &Record::Directory, DIRECTORIES)?;
    expect_rows(rt.alloc(), &Record::Soup, SOUPS)?;
    expect_rows(rt.alloc(), &Record::Soup, INFOS)?;
    expect_rows(rt.alloc(), &Record::OldSoup, OLD_SOUPS)
}

/// A directory with so many soups, none of which has an info frame.
fn with_soups(alloc: Global, count: u32) -> Result<Directory, Fail> {
    let mut directory = read_words(alloc, "01 'S 00000001 0000 00")?;
    for number in 0..count {
        add_soup(alloc, &mut directory, number)?;
    }
    Ok(directory)
}

fn add_soup(alloc: Global, directory: &mut Directory, number: u32) -> Result<(), Fail> {
    let name = Name::read(alloc, format!(in alloc; "{number}")?.as_bytes())?;
    if !directory.is_well_formed() {
        return Err(Fail::new("no form"));
    }
    directory.make_soup(name)?;
    Ok(())
}

/// Whether a directory is written, and read again in each version, and whether it takes no more
/// soups.
fn read_again(alloc: Global, directory: &Directory) -> Result<[bool; 3], Fail> {
    let is_full = directory.is_full();
    if !directory.is_well_formed() {
        return Ok([false, false, is_full]);
    }
    let bytes = write_directory(alloc, directory)?;
    let first = read_directory(alloc, &bytes, 1).is_ok();
    let second = read_directory(alloc, &bytes, 2).is_ok();
    Ok([first, second, is_full])
}

/// Fails where a directory with so many soups answers otherwise.
fn expect_soups(alloc: Global, count: u32, wanted: [bool; 3]) -> Result<(), Fail> {
    let directory = with_soups(alloc, count)?;
    if read_again(alloc, &directory)? != wanted {
        return Err(Fail::new(format_args!("{count} soups")));
    }
    Ok(())
}

/// How many soups there are, whether each version reads them, and whether there may be no more.
const COUNTS: [(u32, [bool; 3]); 4] = [
    (64, [true, true, false]),
    (65, [false, true, false]),
    (250, [false, true, true]),
    (251, [false, false, true]),
];

#[test]
fn versions_limit_the_number_of_soups(rt: HostRuntime) -> Result<(), Fail> {
    for (count, wanted) in COUNTS {
        expect_soups(rt.alloc(), count, wanted)?;
    }
    Ok(())
}

/// Takes an entry id of the soup 0, drops the soup 1 and makes another.
fn change(directory: &mut Directory, name: Name) -> Option<(u32, u32)> {
    if !directory.is_well_formed() {
        return None;
    }
    let made = directory.make_soup(name).ok()?;
    if !directory.is_well_formed() {
        return None;
    }
    let uid = directory.take_uid(Sig(0))?;
    directory.drop_soup(Sig(1));
    Some((uid.0, made.0))
}

/// The store `S` with the soups `A` and `a`.
const TWO_SOUPS: &str =
    "01 'S 00000001 0002 02 01 'A 0000 00000003 00 00 01 'a 0001 00000000 00 00";

/// The same when `a` is gone, `A` has one entry more, and `B` was made.
const CHANGED: &str = "01 'S 00000001 0003 02 01 'A 0000 00000004 00 00 01 'B 0002 00000000 00 00";

/// The signature of a soup, and its next entry id.
fn numbers_of(row: Option<&SoupRow>) -> Option<(u32, u32)> {
    match row {
        Some(row) => Some((row.sig.0, row.next_uid)),
        None => None,
    }
}

/// The soups of `TWO_SOUPS` are found, and no other.
fn assert_two(rt: &impl Abort, directory: &Directory) {
    check(
        rt,
        numbers_of(directory.soup_named(b"a")) == Some((1, 0)),
        "the soup a",
    );
    check(
        rt,
        numbers_of(directory.soup_of(Sig(0))) == Some((0, 3)),
        "the soup 0",
    );
    check(rt, directory.soup_named(b"B").is_none(), "no soup B");
    check(rt, !directory.is_full(), "room for a soup");
}

/// How many soups a directory had.
fn count_of(directory: Directory) -> usize {
    directory.soups.into_vec().len()
}

/// An entry id is taken, a soup goes and another comes; then the directory is what was wanted.
fn change_soups(rt: &impl Abort, alloc: Global, directory: &mut Directory) -> Result<(), Fail> {
    let name = Name::read(alloc, b"B")?;
    check(
        rt,
        change(directory, name) == Some((3, 2)),
        "the id and the soup",
    );
    check(
        rt,
        is_written(alloc, directory, &bytes_of(alloc, CHANGED)?),
        "the changed soups",
    );
    Ok(())
}

#[test]
fn soups_are_found_and_changed(rt: HostRuntime) -> Result<(), Fail> {
    let mut directory = copy_of(rt.alloc(), TWO_SOUPS)?;
    assert_two(&rt, &directory);
    change_soups(&rt, rt.alloc(), &mut directory)?;
    check(&rt, count_of(directory) == 2, "two soups");
    Ok(())
}

/// The index name.last.
const NAMES: &str = "01 01 00 00 02 04 'name 04 'last 00";

/// An index of four parts, of all types, and one of one part.
const PARTS: &str =
    "02 04 00 00 01 01 'a 01 01 02 01 'b 01 'c 02 00 01 01 'd 03 01 01 03 'e_1 01 01 01 01 01 'b 00";

/// The tags business and personal.
const TAGS: &str = "00 01 01 06 'labels 02 08 'business 08 'personal";

/// The last index of the first soup.
fn last_index(directory: &Directory) -> Option<IndexSpec> {
    let row = directory.soups.list().first()?;
    row.specs.list().last()?.copy().ok()
}

/// The tags declaration of the first soup.
fn first_tags(directory: &Directory) -> Option<TagTable> {
    let row = directory.soups.list().first()?;
    match &row.tags {
        Some(tags) => tags.copy().ok(),
        None => None,
    }
}

/// The info frame of the first soup.
fn first_info(directory: &Directory) -> Option<Graph> {
    let row = directory.soups.list().first()?;
    match &row.info {
        Some(info) => info.copy().ok(),
        None => None,
    }
}

/// Whether the second part of the first index of the first soup is an integer at this path, the
/// greatest first.
fn has_part(directory: &Directory, path: &Path) -> Option<bool> {
    let row = directory.soup_of(Sig(0))?;
    let part = row.specs.list().first()?.list().get(1)?;
    Some(part.kind == Kind::Int && part.order == Order::Descend && part.path.same(path))
}

#[test]
fn parts_keep_their_types_and_orders(rt: HostRuntime) -> Result<(), Fail> {
    let alloc = rt.alloc();
    let path = Path::read(alloc, b"b.c")?;
    let directory = read_tail(alloc, PARTS)?;
    check(&rt, has_part(&directory, &path) == Some(true), "the part");
    Ok(())
}

/// What `PARTS` is when `b` is gone, name.last was added, and the tags were set.
const CHANGED_PARTS: &str =
    "02 04 00 00 01 01 'a 01 01 02 01 'b 01 'c 02 00 01 01 'd 03 01 01 03 'e_1 01 00 00 02 04 'name 04 'last 01 01 06 'labels 02 08 'business 08 'personal";

/// The index that words say.
fn index_in(alloc: Global, words: &str) -> Result<IndexSpec, Fail> {
    Ok(last_index(&read_tail(alloc, words)?).ok_or("an index")?)
}

/// One path.
fn path_of(alloc: Global, text: &[u8]) -> Result<Vec<Path>, Fail> {
    let mut paths = Vec::new(alloc);
    paths.push(Path::read(alloc, text)?)?;
    Ok(paths)
}

/// An index is added, and the one of these paths goes.
fn change_with(
    rt: &impl Abort,
    directory: &mut Directory,
    spec: &IndexSpec,
    paths: &[Path],
) -> Result<(), Fail> {
    check(
        rt,
        directory.index_of(Sig(0), spec) == None,
        "no such index",
    );
    directory.add_spec(Sig(0), spec.copy()?)?;
    check(
        rt,
        directory.index_with_paths(Sig(0), paths) == Some(1),
        "the paths",
    );
    directory.drop_spec(Sig(0), paths);
    check(rt, directory.index_of(Sig(0), spec) == Some(1), "the index");
    Ok(())
}

/// The same for the index name.last and the path B.
fn change_indexes(rt: &impl Abort, alloc: Global, directory: &mut Directory) -> Result<(), Fail> {
    let spec = index_in(alloc, NAMES)?;
    change_with(rt, directory, &spec, &path_of(alloc, b"B")?)
}

/// The bytes of what was changed.
fn changed_parts(alloc: Global) -> Result<Vec<u8>, Fail> {
    with_tail(alloc, &bytes_of(alloc, CHANGED_PARTS)?)
}

/// The tags that words say.
fn tags_in(alloc: Global, words: &str) -> Result<Option<TagTable>, Fail> {
    Ok(first_tags(&read_tail(alloc, words)?))
}

/// The tags are set, which makes the directory what was wanted, and are then taken away.
fn change_tags(rt: &impl Abort, alloc: Global, directory: &mut Directory) -> Result<(), Fail> {
    directory.set_tags(Sig(0), tags_in(alloc, TAGS)?);
    check(
        rt,
        is_written(alloc, directory, &changed_parts(alloc)?),
        "the changed parts",
    );
    directory.set_tags(Sig(0), None);
    check(rt, first_tags(directory).is_none(), "no tags");
    Ok(())
}

#[test]
fn indexes_and_tags_are_changed(rt: HostRuntime) -> Result<(), Fail> {
    let mut directory = read_tail(rt.alloc(), PARTS)?;
    change_indexes(&rt, rt.alloc(), &mut directory)?;
    change_tags(&rt, rt.alloc(), &mut directory)
}

/// No indexes and tags, and the info frame {ver: 2}.
const INFO: &str = "00 02 000A 02 06 01 07 03 'ver 00 08";

/// The info frame that words say.
fn info_in(alloc: Global, words: &str) -> Result<Option<Graph>, Fail> {
    Ok(first_info(&read_tail(alloc, words)?))
}

#[test]
fn info_frames_are_changed(rt: HostRuntime) -> Result<(), Fail> {
    let alloc = rt.alloc();
    let mut directory = read_tail(alloc, "00 00")?;
    directory.set_info(Sig(0), info_in(alloc, INFO)?);
    let wanted = with_tail(alloc, &bytes_of(alloc, INFO)?)?;
    check(
        &rt,
        is_written(alloc, &directory, &wanted),
        "the info frame",
    );
    check(
        &rt,
        is_written(alloc, &directory.copy()?, &wanted),
        "the copy",
    );
    directory.set_info(Sig(0), None);
    check(&rt, first_info(&directory).is_none(), "no info frame");
    Ok(())
}

#[test]
fn info_frames_are_told_from_others(rt: HostRuntime) -> Result<(), Fail> {
    let info = info_in(rt.alloc(), INFO)?.ok_or("an info frame")?;
    check(&rt, is_info(&info) && MOST_INFO == 4_000, "an info frame");
    check(&rt, length_of(&info) == Some(10), "its length");
    Ok(())
}

/// How many bytes the flat text of an info frame has.
fn length_of(info: &Graph) -> Option<u64> {
    if !is_info(info) {
        return None;
    }
    Some(info_len(info))
}
