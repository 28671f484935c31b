//! Names attached to units.
ghost use Rattle.std.specs.Prelude.{◌≡◌, ℕ, ◌≤◌, None, false, length, map, slice_index_or};
ghost use Rattle.std.specs.Prelude.{string_bytes, is_some};
ghost use Rattle.newt_host_attach.specs.Named.{AreDistinct, AreAttached};

use newt_host::{Host, Unit};

/// Attaches the names, at most eight and no two alike, to the units of their places. Answers which
/// units have a device then.
pub fn attach_names<H: Host>(host: &mut H, names: &[String]) -> [bool; 8]
    requires few { length names.now ≤ 8 }
    requires distinct { AreDistinct (map string_bytes names.now) }
    requires free { (unit : ℕ) → (H.outside host.old).card unit ≡ None }
    ensures attached { AreAttached H.told (map string_bytes names.now) (H.outside host.old)
        (H.outside host.new) }
    ensures flags { (unit : ℕ) → slice_index_or result unit false ≡ is_some
        ((H.outside host.new).card unit) }
{
    let mut attached = [false; 8];
    for (number, name) in names.iter().enumerate() {
        attached[number] = host.attach(Unit(number as u8), name.as_str());
    }
    attached
}
