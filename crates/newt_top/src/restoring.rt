//! A store made on a device, from the stream of its backup.
ghost use Rattle.std.specs.Prelude.{◌≡◌, IsTrue, map, string_bytes};
ghost use Rattle.newt_script_session.specs.Named.{HasNamed};
ghost use Rattle.newt_top.specs.Calls.{MayRun, RunEnds};
ghost use Rattle.newt_top.specs.Restoring.{RanRestored, RanRestoring, WritesOneDevice};

use crate::converting::whole_input;
use crate::status::{Mode, Status, halted};
use newt_host::{Host, Unit};
use newt_host_attach::attach_names;
use newt_pagebook::Stop;
use newt_pages::DiskBook;
use newt_script_session::write_all;
use newt_store_backup::restore_text;
use std::alloc::Global;

/// Restores the store whose backup an input is to the device of the first name, and writes the
/// reply.
fn restore_input<H: Host>(alloc: Global, names: &[String], host: &mut H, input: Vec<u8>) -> Status
    requires may { MayRun (map string_bytes names.now) (H.outside host.old) }
    ensures ran { IsTrue H.told → RanRestored (map string_bytes names.now) input.items result
        (H.outside host.old) (H.outside host.new) }
    ensures left { (H.outside host.new).input ≡ (H.outside host.old).input }
    ensures named { HasNamed (map string_bytes names.now) (H.outside host.new) }
    ensures one { WritesOneDevice (H.outside host.old) (H.outside host.new) }
    ensures ends { RunEnds Mode.Restore result (H.outside host.old) (H.outside host.new) }
{
    let attached = attach_names(host, names);
    let unit = Unit(0);
    let text = match restore_text::<DiskBook, H>(alloc, host, unit, attached[0], input) {
        Ok(text) => text,
        Err(Stop::Memory) => return Status::Memory,
        Err(Stop::Device(_)) => return Status::Device(unit),
    };
    if write_all(host, &text).is_err() {
        return Status::Sink;
    }
    Status::Ok
}

/// Reads the whole input, and then restores the store whose backup it is to the device of the first
/// name. No device is attached before the input was read.
pub(crate) fn run_restore<H: Host>(
    alloc: Global,
    names: &[String],
    host: &mut H,
    limit: usize,
) -> Status
    requires may { MayRun (map string_bytes names.now) (H.outside host.old) }
    ensures ran { IsTrue H.told → RanRestoring (map string_bytes names.now) limit result
        (H.outside host.old) (H.outside host.new) }
    ensures named { HasNamed (map string_bytes names.now) (H.outside host.new) }
    ensures one { WritesOneDevice (H.outside host.old) (H.outside host.new) }
    ensures ends { RunEnds Mode.Restore result (H.outside host.old) (H.outside host.new) }
{
    match whole_input(alloc, host, limit) {
        Ok(input) => restore_input(alloc, names, host, input),
        Err(halt) => halted(halt),
    }
}
