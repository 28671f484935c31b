//! A fresh store.
ghost use Rattle.std.specs.Prelude.{IsTrue, ◌≡◌, ◌≤◌, IfOk, OnOk};
ghost use Rattle.newt_base.specs.Names.{is_name};
ghost use Rattle.newt_host.specs.Moments.{image};
ghost use Rattle.newt_pagebook.specs.Book.{IsFresh};
ghost use Rattle.newt_soupdir.specs.Bare.{bare_store};
ghost use Rattle.newt_spec_store.specs.Cost.{directory_bytes};
ghost use Rattle.newt_spec_store.specs.Store.{new_store};
ghost use Rattle.newt_store.specs.Calls.{FormatsUnit};

use newt_base::{Name, Sig};
use newt_host::{Host, Unit};
use newt_objects::Objects;
use newt_pagebook::{Batch, PageBook, Stop};
use newt_soupdir::{Directory, Soups, write_directory};
use std::alloc::{AllocError, Global};

/// The directory of a store without soups.
fn new_directory(alloc: Global, name: &Name, sig: Sig) -> Result<Directory, AllocError>
    ensures made { IfOk result (λ d. bare_store d ≡ new_store name.now sig) }
    ensures named { IsTrue (is_name name.now) }
{
    let _text = name.list();
    Ok(Directory {
        name: name.copy()?,
        sig,
        next_soup: 0,
        soups: Soups::of(Vec::new(alloc)),
    })
}

/// The bytes of the directory of a store without soups.
fn new_bytes(alloc: Global, name: &Name, sig: Sig) -> Result<Vec<u8>, AllocError>
    requires few { sig ≤ 536_870_911 }
    ensures made { IfOk result (λ bytes. bytes.items ≡ directory_bytes (new_store name.now sig)) }
    ensures named { IsTrue (is_name name.now) }
{
    let directory = new_directory(alloc, name, sig)?;
    write_directory(alloc, &directory)
}

/// Makes a unit's image that of a store without soups: its one record puts page 0 alone.
pub(crate) fn format_unit<P: PageBook, H: Host>(
    alloc: Global,
    host: &mut H,
    unit: Unit,
    name: &Name,
    sig: Sig,
) -> Result<(), Stop>
    requires enough { 13 ≤ (H.outside host.old).blocks unit }
    requires not_too_many { (H.outside host.old).blocks unit ≤ 4099 }
    requires few { sig ≤ 536_870_911 }
    ensures unit { FormatsUnit H.told unit (new_store name.now sig)
        (H.outside host.old) (H.outside host.new) result }
    ensures fresh { IsTrue H.told
        → OnOk result (IsFresh (image unit (H.outside host.new).now)) }
{
    let bytes = new_bytes(alloc, name, sig)?;
    let mut objects = Objects::empty(alloc);
    let mut batch = Batch::new(alloc);
    objects.plan_put(0, &bytes, &mut batch)?;
    match P::format(alloc, host, unit, &batch) {
        Ok(()) => Ok(()),
        Err(stop) => Err(stop),
    }
}
