//! What a crash might have left, from the log alone.
ghost use Rattle.std.specs.Prelude.{◌≡◌, ◌≤◌, ◌<◌, ◌^◌, Some, length, take, slice_get, sum_by};
ghost use Rattle.newt_memhost.specs.Happened.{bytes_of, counts};
ghost use Rattle.newt_memhost.specs.Past.{before, call_at, printed_by, taken_by, torn, unit_at};
ghost use Rattle.newt_memhost.specs.Past.{within};

use crate::happened::Happened;
use newt_host::Unit;

/// What a crash leaves of each range that is pending: the bytes before, the bytes after, the first
/// half after and the rest before, or one byte everywhere.
#[derive(Clone, Copy, Debug, PartialEq, Eq)]
pub enum Pick {
    Old,
    New,
    Half,
    Fill(u8),
}

impl Happened {
    /// Whether it is a call that answers a Result, as a number: 1 or 0.
    fn counts(&self) -> u64
        ensures { result ≡ counts self.now }
    {
        match self {
            Happened::Attach(..) => 0,
            _ => 1,
        }
    }

    /// How many bytes of the store are its own.
    pub(crate) fn bytes(&self) -> usize
        ensures { result ≡ bytes_of self.now }
    {
        match self {
            Happened::Take(Some(n)) | Happened::Print(n) | Happened::Write(_, _, n) => *n,
            _ => 0,
        }
    }

    /// Whether a crash within it comes after it, as a number: 1 or 0.
    fn torn_images(&self) -> usize
        ensures { result ≡ length (torn (Some self.now)) }
    {
        match self {
            Happened::Attach(..) | Happened::Sync(..) => 0,
            _ => 1,
        }
    }

    /// How many bytes it printed.
    pub(crate) fn printed(&self) -> usize
        ensures { result ≡ printed_by self.now }
    {
        match self {
            Happened::Print(n) => *n,
            _ => 0,
        }
    }

    /// How many bytes of the input it took.
    fn taken(&self) -> usize
        ensures { result ≡ taken_by self.now }
    {
        match self {
            Happened::Take(Some(n)) => *n,
            _ => 0,
        }
    }

    /// The unit that a call was on.
    pub(crate) fn unit(&self) -> Option<Unit>
        ensures { result ≡ unit_at (Some self.now) }
    {
        match self {
            Happened::Read(unit) | Happened::Write(unit, _, _) | Happened::Sync(unit, _) => {
                Some(*unit)
            }
            _ => None,
        }
    }
}

/// The place in the log of the call of a number.
pub(crate) fn place_of(log: &[Happened], call: u64) -> usize
    ensures before { take result log.now ≡ before call log.now }
    ensures there { slice_get log.now result ≡ call_at call log.now }
    ensures inside { result ≤ length log.now }
{
    let mut left = call;
    for (place, entry) in log.iter().enumerate() {
        let one = entry.counts();
        if left < one {
            return place;
        }
        left -= one;
    }
    log.len()
}

/// How much of the log comes before a crash within a call. It includes the call itself, except a
/// sync.
pub(crate) fn end_of(log: &[Happened], call: u64) -> usize
    ensures within { take result log.now ≡ within call log.now }
    ensures inside { result ≤ length log.now }
{
    let place = place_of(log, call);
    if place < log.len() {
        place + log[place].torn_images()
    } else {
        place
    }
}

/// How many bytes were printed.
pub(crate) fn printed_in(log: &[Happened]) -> u64
    requires { sum_by printed_by log.now < 2 ^ 64 }
    ensures { result ≡ sum_by printed_by log.now }
{
    let mut out = 0;
    for entry in log {
        out += entry.printed() as u64;
    }
    out
}

/// How many bytes of the input were taken.
pub(crate) fn taken_in(log: &[Happened]) -> u64
    requires { sum_by taken_by log.now < 2 ^ 64 }
    ensures { result ≡ sum_by taken_by log.now }
{
    let mut taken = 0;
    for entry in log {
        taken += entry.taken() as u64;
    }
    taken
}
