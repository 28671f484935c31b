//! One batch of pages: room is made for it, and it is committed.
ghost use Rattle.newt_objects_commit.specs.Calls.{CommitsBatch};

use newt_base::Refusal;
use newt_host::Host;
use newt_pagebook::{Batch, CommitFault, PageBook, Stop};
use newt_store_change::StoreFault;

/// Commits the pages of a batch. Full where more pages would be live than the unit takes, and then
/// nothing is done; after any other fault the book is spent. All memory is taken before anything is
/// written.
pub(crate) fn commit_batch<P: PageBook, H: Host>(
    host: &mut H,
    book: &mut P,
    batch: &Batch,
) -> Result<(), StoreFault>
    requires { P.stands H.told book.old (H.outside host.old) }
    ensures { CommitsBatch P.place P.numbers P.stands H.told batch.now (P.place book.old)
        (P.numbers book.old) book.new (H.outside host.old) (H.outside host.new) result }
{
    let unit = book.unit();
    let Ok(puts) = u32::try_from(batch.puts().len()) else {
        return Err(StoreFault::Stop(Stop::Memory));
    };
    book.reserve(puts)?;
    match book.commit(host, batch) {
        Ok(()) => Ok(()),
        Err(CommitFault::Full) => Err(StoreFault::Refused(Refusal::Full)),
        Err(CommitFault::Device) => Err(StoreFault::Stop(Stop::Device(unit))),
    }
}
