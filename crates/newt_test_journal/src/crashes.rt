//! What a crash leaves within the calls of a host.
use crate::card::{CARD, has_card, held_on};
use crate::records::Held;
use crate::row_fault::RowFault;
use newt_memhost::{MemHost, Pick};
use std::alloc::Global;
use std::process::Abort;

/// What is tried of each call.
const PICKS: [Pick; 5] = [
    Pick::Old,
    Pick::New,
    Pick::Half,
    Pick::Fill(0),
    Pick::Fill(255),
];

/// And of each call that mends what a crash left.
const FEW_PICKS: [Pick; 2] = [Pick::Half, Pick::Fill(0)];

/// An image that a crash might have left within the call of a number.
#[derive(Drop)]
pub(crate) struct Left {
    pub(crate) call: u64,
    pub(crate) image: Vec<u8>,
}

/// The images that a crash might have left since a call: all that are tried, or only a few of each
/// call.
pub(crate) fn images(
    alloc: Global,
    host: &MemHost,
    from: u64,
    few: bool,
) -> Result<Vec<Left>, RowFault> {
    let mut all = Vec::new(alloc);
    if !has_card(host) {
        return Err(RowFault::Row);
    }
    let picks: &[Pick] = if few { &FEW_PICKS } else { &PICKS };
    for call in from..host.calls() {
        for pick in picks {
            let image = host.images(CARD, call, *pick)?.image;
            all.push(Left { call, image })?;
        }
    }
    Ok(all)
}

/// Each image reads as before or as after, its version too.
pub(crate) fn expect_either(
    rt: &impl Abort,
    alloc: Global,
    images: &[Left],
    before: &Held,
    after: &Held,
) -> Result<(), RowFault> {
    for left in images {
        match held_on(rt, alloc, &left.image)? {
            Some(found) if found == *before || found == *after => {}
            _ => return Err(RowFault::Crash(left.call)),
        }
    }
    Ok(())
}
