//! Where the bytes of a range lie.
ghost use Rattle.std.specs.Prelude.{◌≡◌, ◌+◌, ◌*◌, ◌/◌, ◌<◌, ◌≤◌, ◌^◌, IsSome, IfSome, OnOk, OnErr};
ghost use Rattle.std.specs.Prelude.{IfErr};
ghost use Rattle.newt_objects.specs.Held.{held};
ghost use Rattle.newt_vbo.specs.Ranges.{parts_met as parts_of, IsPiece};

use crate::RangeFault;
use newt_objects::Objects;

/// Range exactly where so many bytes from a place on end past the object's end.
pub(crate) fn check_range(
    objects: &Objects,
    id: u32,
    at: u32,
    count: usize,
) -> Result<(), RangeFault>
    requires there { IsSome (held objects.now id) }
    ensures within { OnOk result (IfSome (held objects.now id) (λ x. at + count ≤ x.length)) }
    ensures small { OnOk result (at + count < 2 ^ 32) }
    ensures past { OnErr result (IfSome (held objects.now id) (λ x. x.length < at + count)) }
    ensures only { IfErr result (λ fault. fault ≡ RangeFault.Range) }
{
    let Some(length) = objects.length(id) else {
        unreachable!()
    };
    if at <= length && count <= (length - at) as usize {
        Ok(())
    } else {
        Err(RangeFault::Range)
    }
}

/// In how many parts so many bytes from a place on lie.
pub(crate) fn parts_met(at: u32, count: u32) -> u32
    requires { at + count < 2 ^ 32 }
    ensures { result ≡ parts_of at count }
{
    if count == 0 {
        return 0;
    }
    (at + count - 1) / 500 - at / 500 + 1
}

/// The bytes of a range that lie in one part: so many, from a place in the part on, which are those
/// of the range from `start` on.
#[derive(Clone, Copy)]
pub(crate) struct Piece {
    pub(crate) from: usize,
    pub(crate) start: usize,
    pub(crate) count: usize,
}

/// The bytes from `at` to `end` that lie in a part.
pub(crate) fn piece_in(part: u32, at: u32, end: u32) -> Piece
    requires begun { at / 500 ≤ part }
    requires not_over { 500 * part < end }
    requires forward { at ≤ end }
    ensures { IsPiece part at end result }
{
    let begin = 500 * part;
    let from = at.saturating_sub(begin);
    Piece {
        from: from as usize,
        start: begin.saturating_sub(at) as usize,
        count: ((end - begin).min(500) - from) as usize,
    }
}
