//! Bytes of an object are overwritten, as one batch.
ghost use Rattle.std.specs.Prelude.{◌*◌, length, IsSome};
ghost use Rattle.newt_objects.specs.Held.{held};
ghost use Rattle.newt_vbo.specs.Ranges.{parts_met};
ghost use Rattle.newt_spec_store.specs.Cost.{patch_bytes};
ghost use Rattle.newt_objects_commit.specs.Calls.{CommitsObjects};
ghost use Rattle.newt_objects_commit.specs.Commit.{AreKept};
ghost use Rattle.newt_objects_commit.specs.Patch.{Overwrites};

use crate::write::commit_batch;
use newt_base::Refusal;
use newt_host::Host;
use newt_objects::Objects;
use newt_pagebook::{Batch, PageBook, Stop};
use newt_store_change::StoreFault;
use newt_vbo::{RangeFault, plan_patch};
use std::alloc::Global;

/// Puts bytes in place of those of an object from a place on, and writes only the pages that they
/// touch: each is loaded once and put once. Range where they end past the object's end, and Full
/// where the unit has more pages than it takes; then nothing is done. After any other fault the
/// book is spent.
pub fn patch_object<P: PageBook, H: Host>(
    alloc: Global,
    host: &mut H,
    book: &mut P,
    objects: &Objects,
    id: u32,
    at: u32,
    bytes: &[u8],
) -> Result<(), StoreFault>
    requires stands { P.stands H.told book.old (H.outside host.old) }
    requires kept { AreKept H.told objects.now (P.numbers book.old) (P.place book.old)
        (H.outside host.old) }
    requires there { IsSome (held objects.now id) }
    ensures commits { CommitsObjects P.place P.numbers P.stands H.told objects.now
        (patch_bytes (length bytes.now)) (512 * parts_met at (length bytes.now))
        book.old book.new (H.outside host.old) (H.outside host.new) result }
    ensures overwrites { Overwrites H.told (P.place book.old) id at bytes.now (P.numbers book.old)
        (H.outside host.old) (H.outside host.new) result }
{
    let unit = book.unit();
    let mut batch = Batch::new(alloc);
    match plan_patch(host, book, objects, id, at, bytes, &mut batch) {
        Ok(()) => commit_batch(host, book, &batch),
        Err(RangeFault::Range) => Err(StoreFault::Refused(Refusal::Range)),
        Err(RangeFault::Memory) => Err(StoreFault::Stop(Stop::Memory)),
        Err(RangeFault::Device) => Err(StoreFault::Stop(Stop::Device(unit))),
    }
}
