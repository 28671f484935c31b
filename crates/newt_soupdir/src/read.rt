//! Reading a directory: its bytes from the front, field by field, in the layout of docs/FORMATS.md.
//! At the end it is refused where bytes are left after the last field, where its rows are none of
//! the version, or where they make no well formed store.
ghost use Rattle.std.specs.Prelude.{◌≡◌, ◌⊎◌, Some, None, IfOk, IsErrOf};
ghost use Rattle.newt_spec_store.specs.Reading.{times};
ghost use Rattle.newt_spec_store.specs.Lies.{directory_read};
ghost use Rattle.newt_nsof_flat.specs.Stream.{stream_graph};
ghost use Rattle.newt_soupdir.specs.Bare.{bare_store};
ghost use Rattle.newt_soupdir.specs.Reading.{Gives, soup_at, soups_at, rows_at, directory_at};

use crate::declarations::{extra, specs};
use crate::fault::DirFault;
use crate::fields::{byte, name, number16, number32};
use crate::rows::{Directory, SoupRow, Soups};
use newt_base::Sig;
use std::alloc::Global;

/// A soup: its name, two bytes of its signature, four of its next entry id, its indexes, its tags
/// and its info frame.
#[tactic(auto, unfolding(crate::specs::Reading::soup_at))]
fn soup(alloc: Global, bytes: &[u8]) -> Result<(SoupRow, &[u8]), DirFault>
    ensures { Gives (λ x. (x.0, x.1.now)) result (soup_at bytes.now) }
{
    let (name, rest) = name(alloc, bytes)?;
    let (sig, rest) = number16(rest)?;
    let (next_uid, rest) = number32(rest)?;
    let (specs, rest) = specs(alloc, rest)?;
    let ((tags, info), rest) = extra(alloc, rest)?;
    let sig = Sig(u32::from(sig));
    Ok((
        SoupRow {
            name,
            sig,
            next_uid,
            specs,
            tags,
            info,
        },
        rest,
    ))
}

/// So many soups.
fn some_soups(alloc: Global, count: u8, bytes: &[u8]) -> Result<(Vec<SoupRow>, &[u8]), DirFault>
    ensures { Gives (λ x. (x.0.items, x.1.now)) result (times count soup_at bytes.now) }
{
    let mut soups = Vec::new(alloc);
    let mut rest = bytes;
    for _ in 0..count {
        let (one, after) = soup(alloc, rest)?;
        soups.push(one)?;
        rest = after;
    }
    Ok((soups, rest))
}

/// A byte that says how many, and as many soups.
#[tactic(auto, unfolding(crate::specs::Reading::soups_at))]
fn soups(alloc: Global, bytes: &[u8]) -> Result<(Soups, &[u8]), DirFault>
    ensures { Gives (λ x. (x.0, x.1.now)) result (soups_at bytes.now) }
{
    let (count, rest) = byte(bytes)?;
    let (soups, rest) = some_soups(alloc, count, rest)?;
    Ok((Soups::of(soups), rest))
}

/// The store's name, four bytes of its signature, two of the next soup's signature, and the soups.
#[tactic(auto, unfolding(crate::specs::Reading::rows_at))]
fn rows(alloc: Global, bytes: &[u8]) -> Result<(Directory, &[u8]), DirFault>
    ensures { Gives (λ x. (x.0, x.1.now)) result (rows_at bytes.now) }
{
    let (name, rest) = name(alloc, bytes)?;
    let (sig, rest) = number32(rest)?;
    let (next_soup, rest) = number16(rest)?;
    let (soups, rest) = soups(alloc, rest)?;
    let next_soup = u32::from(next_soup);
    Ok((
        Directory {
            name,
            sig: Sig(sig),
            next_soup,
            soups,
        },
        rest,
    ))
}

/// The rows that all of the bytes are, where they are rows of this version and make a well formed
/// store.
#[tactic(auto, unfolding(crate::specs::Reading::directory_at))]
fn whole(alloc: Global, bytes: &[u8], version: u16) -> Result<Directory, DirFault>
    ensures { Gives (λ d. d) result (directory_at version bytes.now) }
{
    let (directory, rest) = rows(alloc, bytes)?;
    if !rest.is_empty() || !directory.keeps_version(version) || !directory.is_well_formed() {
        return Err(DirFault::Bad);
    }
    Ok(directory)
}

/// The directory that all of the bytes are read as, in the form of this version. `Bad` comes only
/// where they are none, which is so too where a name, a path or a limit does not have its form.
pub fn read_directory(alloc: Global, bytes: &[u8], version: u16) -> Result<Directory, DirFault>
    requires { (version ≡ 1) ⊎ (version ≡ 2) }
    ensures found { IfOk result (λ d. directory_read stream_graph version bytes.now
        ≡ Some (bare_store d)) }
    ensures bad { IsErrOf result DirFault.Bad → directory_read stream_graph version bytes.now
        ≡ None }
{
    whole(alloc, bytes, version)
}
