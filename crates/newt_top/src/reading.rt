//! What is said of a device that is read.
ghost use Rattle.std.specs.Prelude.{◌≡◌, IsTrue, IfOk, is_some, map, string_bytes};
ghost use Rattle.newt_host.specs.Meanings.{device_on};
ghost use Rattle.newt_host.specs.Moments.{IsDurable};
ghost use Rattle.newt_host.specs.Outside.{OnlyReads};
ghost use Rattle.newt_store_catalog.specs.Reading.{ReadEnds};
ghost use Rattle.newt_script_session.specs.Named.{HasNamed};
ghost use Rattle.newt_top.specs.Calls.{MayRun, RunEnds};
ghost use Rattle.newt_top.specs.Reading.{IsSaid, OnlyReadsDevices, RanReading};

use crate::status::{Mode, Reading, Status};
use newt_check::check_text;
use newt_host::{Host, Unit};
use newt_host_attach::attach_names;
use newt_pagebook::Stop;
use newt_pages::DiskBook;
use newt_script_session::write_all;
use newt_store_backup::backup_text;
use std::alloc::Global;

/// What is said of the device of a unit.
fn said<H: Host>(
    alloc: Global,
    reading: Reading,
    host: &mut H,
    unit: Unit,
    is_attached: bool,
) -> Result<Vec<u8>, Stop>
    requires attached { is_attached ≡ is_some ((H.outside host.old).card unit) }
    requires at_rest { IsTrue H.told → IsDurable unit (H.outside host.old).now }
    ensures text { IsTrue H.told → IfOk result (λ text.
        IsSaid reading (device_on unit (H.outside host.old)) text.items) }
    ensures looks { OnlyReads unit (H.outside host.old) (H.outside host.new) }
    ensures ends { ReadEnds unit (H.outside host.old) (H.outside host.new) result }
{
    match reading {
        Reading::Backup => backup_text::<DiskBook, H>(alloc, host, unit, is_attached),
        Reading::Check => check_text(alloc, host, unit, is_attached),
    }
}

/// Writes what is said of the device of the first name.
pub(crate) fn run_reading<H: Host>(
    alloc: Global,
    reading: Reading,
    names: &[String],
    host: &mut H,
) -> Status
    requires may { MayRun (map string_bytes names.now) (H.outside host.old) }
    ensures ran { IsTrue H.told → RanReading reading (map string_bytes names.now) result
        (H.outside host.old) (H.outside host.new) }
    ensures named { HasNamed (map string_bytes names.now) (H.outside host.new) }
    ensures devices { OnlyReadsDevices (H.outside host.old) (H.outside host.new) }
    ensures ends { RunEnds (Mode.Read reading) result (H.outside host.old) (H.outside host.new) }
{
    let attached = attach_names(host, names);
    let unit = Unit(0);
    let text = match said(alloc, reading, host, unit, attached[0]) {
        Ok(text) => text,
        Err(Stop::Memory) => return Status::Memory,
        Err(Stop::Device(_)) => return Status::Device(unit),
    };
    if write_all(host, &text).is_err() {
        return Status::Sink;
    }
    Status::Ok
}
