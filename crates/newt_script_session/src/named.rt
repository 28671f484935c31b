//! A script over the devices of names, whose replies are written or counted.
ghost use Rattle.std.specs.Prelude.{IsTrue, ◌≡◌, ℕ, ◌≤◌, None, length, map, string_bytes};
ghost use Rattle.newt_host_attach.specs.Named.{AreDistinct};
ghost use Rattle.newt_script_session.specs.Calls.{Faults};
ghost use Rattle.newt_script_session.specs.Causes.{HasCause, HasSinkCause};
ghost use Rattle.newt_script_session.specs.Named.{AttachedFirst, CountedNamed, HasNamed, RanNamed};

use crate::count::tally_script;
use crate::halt::Halt;
use crate::interpreter::Interpreter;
use crate::pieces::run_script;
use newt_host::Host;
use std::alloc::Global;

/// Attaches the devices of the names, each to the unit of its place, and answers the script of the
/// input over them. It halts where more than `limit` bytes come before the end of the input and no
/// line that quits ended within the first `limit` bytes.
pub fn run_named<H: Host, I: Interpreter>(
    alloc: Global,
    host: &mut H,
    names: &[String],
    limit: usize,
) -> Result<(), Halt>
    requires few { length names.now ≤ 8 }
    requires distinct { AreDistinct (map string_bytes names.now) }
    requires free { (unit : ℕ) → (H.outside host.old).card unit ≡ None }
    ensures ran { IsTrue H.told → RanNamed I.step I.store_of_image limit result
        (map string_bytes names.now) (H.outside host.old) (H.outside host.new) }
    ensures named { HasNamed (map string_bytes names.now) (H.outside host.new) }
    ensures faults { Faults HasCause result (H.outside host.old) (H.outside host.new) }
{
    let Ok(mut interpreter) = I::new(alloc, host, names) else {
        return Err(Halt::Memory);
    };
    run_script(alloc, host, &mut interpreter, limit)
}

/// Attaches the devices of the names, each to the unit of its place, and answers a script over
/// them. It writes the summary of the replies and nothing else.
pub fn tally_named<H: Host, I: Interpreter>(
    alloc: Global,
    host: &mut H,
    names: &[String],
    script: &[u8],
) -> Result<(), Halt>
    requires few { length names.now ≤ 8 }
    requires distinct { AreDistinct (map string_bytes names.now) }
    requires free { (unit : ℕ) → (H.outside host.old).card unit ≡ None }
    ensures counted { IsTrue H.told → CountedNamed I.step I.store_of_image script.now result
        (map string_bytes names.now) (H.outside host.old) (H.outside host.new) }
    ensures attached { IsTrue H.told → AttachedFirst (map string_bytes names.now)
        (H.outside host.old) (H.outside host.new) }
    ensures named { HasNamed (map string_bytes names.now) (H.outside host.new) }
    ensures left { (H.outside host.new).input ≡ (H.outside host.old).input }
    ensures faults { Faults HasSinkCause result (H.outside host.old) (H.outside host.new) }
{
    let Ok(mut interpreter) = I::new(alloc, host, names) else {
        return Err(Halt::Memory);
    };
    tally_script(alloc, host, &mut interpreter, script)
}
