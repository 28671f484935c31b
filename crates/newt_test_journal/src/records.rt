//! What a journal holds, read and changed by its calls.
ghost use Rattle.std.specs.Prelude.{◌≡◌, ◌+◌, ◌<◌, ◌≤◌, length, true, IfOk};
ghost use Rattle.newt_host.specs.Outside.{Touches};
ghost use Rattle.newt_journal.specs.Journal.{Stands, room};
ghost use Rattle.newt_memhost.specs.Outside.{outside_of};

use crate::row_fault::RowFault;
use newt_host::{Failed, Host};
use newt_journal::Journal;
use newt_memhost::MemHost;
use std::alloc::Global;

/// The payloads of a journal, in order.
pub(crate) type Records = Vec<Vec<u8>>;

/// What a journal holds: the version of its bank, and its records.
#[derive(Drop, PartialEq)]
pub(crate) struct Held {
    pub(crate) version: u16,
    pub(crate) records: Records,
}

/// What a journal holds.
pub(crate) fn held_by<H: Host>(
    alloc: Global,
    journal: &Journal,
    host: &mut H,
) -> Result<Held, RowFault>
    requires { Stands H.told journal.now (H.outside host.old) }
    ensures stands { Stands H.told journal.now (H.outside host.new) }
    ensures moment { (H.outside host.new).now ≡ (H.outside host.old).now }
    ensures alone { Touches journal.now.unit (H.outside host.old) (H.outside host.new) }
{
    let records = payloads(alloc, journal, host)?;
    Ok(Held {
        version: journal.version(),
        records,
    })
}

/// The payloads of a journal, in order.
fn payloads<H: Host>(alloc: Global, journal: &Journal, host: &mut H) -> Result<Records, RowFault>
    requires { Stands H.told journal.now (H.outside host.old) }
    ensures stands { Stands H.told journal.now (H.outside host.new) }
    ensures moment { (H.outside host.new).now ≡ (H.outside host.old).now }
    ensures alone { Touches journal.now.unit (H.outside host.old) (H.outside host.new) }
{
    let mut all = Vec::new(alloc);
    let mut at = journal.first();
    while let Some(found) = journal.walk(host, at)? {
        let mut bytes = Vec::new(alloc);
        bytes.resize(found.len as usize, 0)?;
        journal.read_at(host, found.at, bytes.as_mut_slice())?;
        all.push(bytes)?;
        at = found.next;
    }
    Ok(all)
}

/// Appends one record, its payload in two pieces.
fn append(journal: Journal, host: &mut MemHost, payload: &[u8]) -> Result<Journal, Failed>
    requires some { 0 < length payload.now }
    requires fits { length payload.now ≤ room journal }
    requires stands { Stands true journal (outside_of host.old) }
    ensures { IfOk result (λ after. Stands true after (outside_of host.new) ×
        (after.unit ≡ journal.unit)) }
{
    let (front, back) = payload.split_at(payload.len() / 2);
    let mut draft = journal.append(host, payload.len() as u32)?;
    draft.put(host, front)?;
    draft.put(host, back)?;
    draft.finish(host)
}

/// Mends the votes.
fn repair(journal: Journal, host: &mut MemHost) -> Result<Journal, Failed>
    requires { Stands true journal (outside_of host.old) }
    ensures { IfOk result (λ after. Stands true after (outside_of host.new) ×
        (after.unit ≡ journal.unit)) }
{
    let mut journal = journal;
    journal.repair(host)?;
    Ok(journal)
}

/// Mends the votes, and writes one record alone into the other bank.
fn replace(journal: Journal, host: &mut MemHost, payload: &[u8]) -> Result<Journal, Failed>
    requires short { length payload.now ≤ 4096 }
    requires stands { Stands true journal (outside_of host.old) }
    ensures { IfOk result (λ after. Stands true after (outside_of host.new) ×
        (after.unit ≡ journal.unit)) }
{
    let mut journal = journal;
    journal.repair(host)?;
    let mut draft = journal.switch(host, payload.len() as u32)?;
    draft.put(host, payload)?;
    draft.finish(host)
}

/// Carries one change out: `append`, `replace` or `repair`.
pub(crate) fn changed(
    journal: Journal,
    host: &mut MemHost,
    word: &str,
    payload: &[u8],
) -> Result<Journal, RowFault>
    requires { Stands true journal (outside_of host.old) × (journal.unit ≡ 0) }
    ensures { IfOk result (λ after. Stands true after (outside_of host.new) × (after.unit ≡ 0)) }
{
    let len = payload.len();
    match word {
        "append" if 0 < len && len <= journal.room() as usize => {
            Ok(append(journal, host, payload)?)
        }
        "replace" if len <= 4096 => Ok(replace(journal, host, payload)?),
        "repair" => Ok(repair(journal, host)?),
        _ => Err(RowFault::Row),
    }
}
