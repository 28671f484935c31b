//! One batch of objects: it is committed, and its plans are taken over.
ghost use Rattle.newt_host.specs.Moments.{image};
ghost use Rattle.newt_spec_image.specs.Objects.{Objects as Texts};
ghost use Rattle.newt_pagebook.specs.Book.{batch_bytes};
ghost use Rattle.newt_objects_commit.specs.Calls.{CommitsObjects};
ghost use Rattle.newt_objects_commit.specs.Commit.{IsPlanned, MakesPlanned};

use crate::write::commit_batch;
use newt_host::Host;
use newt_objects::Objects;
use newt_pagebook::{Batch, PageBook};
use newt_store_change::StoreFault;

/// Commits what is planned. Full where the objects would take more pages than the unit has, and
/// then nothing is changed and nothing is planned; after any other fault book and objects are
/// spent.
pub fn commit_plans<P: PageBook, H: Host>(
    host: &mut H,
    book: &mut P,
    objects: &mut Objects,
    batch: &Batch,
) -> Result<(), StoreFault>
    requires stands { P.stands H.told book.old (H.outside host.old) }
    requires planned { (before : Texts) × (after : Texts) × IsPlanned H.told objects.old batch.now
        (P.numbers book.old) (image (P.place book.old) (H.outside host.old).now) before after }
    ensures commits { CommitsObjects P.place P.numbers P.stands H.told objects.new
        (batch_bytes batch.now) 0 book.old book.new
        (H.outside host.old) (H.outside host.new) result }
    ensures makes { MakesPlanned H.told (P.place book.old) batch.now (P.numbers book.old)
        objects.old objects.new (H.outside host.old) (H.outside host.new) result }
{
    match commit_batch(host, book, batch) {
        Ok(()) => {
            objects.adopt();
            Ok(())
        }
        Err(StoreFault::Refused(refusal)) => {
            objects.forget();
            Err(StoreFault::Refused(refusal))
        }
        Err(StoreFault::Stop(stop)) => Err(StoreFault::Stop(stop)),
    }
}
