//! Large binaries of entries: read.
ghost use Rattle.newt_spec_world.specs.Reply.{Reply};
ghost use Rattle.newt_spec_world.specs.declared.command.Command.{Command};
ghost use Rattle.newt_engine_units.specs.Calls.{Obeys};
ghost use Rattle.newt_engine_units.specs.Stands.{Stands};

use newt_base::{Name, Uid};
use newt_engine_card::Card;
use newt_engine_units::Units;
use newt_graph::Bytes;
use newt_host::{Host, Unit};
use newt_path::Path;
use newt_store_change::StoreFault;

/// So many bytes of the large binary that a path of an entry's graph reaches, from a place on.
/// Places and lengths are in bytes. Of the device the entry's record and the range alone are read.
pub fn vread<C: Card, H: Host>(
    units: &mut Units<C>,
    host: &mut H,
    unit: Unit,
    name: &Name,
    uid: Uid,
    path: &Path,
    at: u32,
    len: u32,
) -> Result<Bytes, StoreFault>
    requires { Stands C.place C.stands H.told units.old (H.outside host.old) }
    ensures { Obeys C.reads C.place C.stands H.told
        (Command.Vread unit name.now uid path.now at len) (λ bytes. Reply.hex bytes)
        units.old units.new (H.outside host.old) (H.outside host.new) result }
{
    let soup = units.find_soup(unit, name)?;
    units.large_on(host, unit, soup, uid, path, at, len)
}
