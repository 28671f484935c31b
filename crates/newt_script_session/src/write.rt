//! Whole texts of output, over a host that may take a part of one at a time.
ghost use Rattle.std.specs.Prelude.{◌≡◌, ◌<◌, ◌≤◌, length, take, IsTrue, IfOk};
ghost use Rattle.newt_host.specs.Outside.{PrintsSome, printed};
ghost use Rattle.newt_script_session.specs.Calls.{OutputFailed, WriteCall};
ghost use Rattle.newt_script_session.specs.Stream.{PutsText};

use newt_host::{Failed, Host};

/// Writes a first part of the bytes, and answers how many: none only where there are none.
fn write_part<H: Host>(host: &mut H, bytes: &[u8]) -> Result<usize, Failed>
    ensures within { IfOk result (λ n. n ≤ length bytes.now) }
    ensures moves { IfOk result (λ n. 0 < length bytes.now → 0 < n) }
    ensures grown { IsTrue H.told
        → IfOk result (λ n. (H.outside host.new).now
        ≡ printed (take n bytes.now) (H.outside host.old).now) }
    ensures prints { IsTrue H.told
        → PrintsSome bytes.now (H.outside host.old).now (H.outside host.new).now }
    ensures call { WriteCall H.told OutputFailed result
        (H.outside host.old) (H.outside host.new) }
{
    host.write_out(bytes)
}

/// Writes all the bytes.
pub fn write_all<H: Host>(host: &mut H, bytes: &[u8]) -> Result<(), Failed>
    ensures puts { IsTrue H.told
        → PutsText result bytes.now (H.outside host.old).now (H.outside host.new).now }
    ensures call { WriteCall H.told OutputFailed result
        (H.outside host.old) (H.outside host.new) }
{
    let mut rest = bytes;
    while !rest.is_empty() {
        let moved = write_part(host, rest)?;
        rest = rest.split_at(moved).1;
    }
    Ok(())
}
