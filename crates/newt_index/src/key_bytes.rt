//! The bytes of a key, with a number by which they are compared first.
ghost use Rattle.std.specs.Prelude.{◌≡◌, ◌<◌, ◌↔◌, [], IsTrue, get_or, nat_eq, IfOk, Some, refl};
ghost use Rattle.std.specs.Ordering.{nat_cmp};
ghost use Rattle.std.specs.Cmp.{partial_equiv_from_equiv};
ghost use Rattle.std.specs.Cmp.Lexicographic.{pointwise, slice_cmp, texts_ties, texts_po};
ghost use Rattle.std.specs.Cmp.Lexicographic.{nat_list_eq_equiv, nat_list_cmp_total};
ghost use Rattle.newt_index.specs.Front.{front_of};

use std::alloc::AllocError;
use std::cmp::Ordering;
use std::marker::Model;

/// The bytes of a key, and the number that the first eight of them are. Keys are compared by that
/// number first, and byte by byte only where the numbers are equal.
#[derive(Drop)]
pub(crate) struct KeyBytes {
    front: u64,
    items: Vec<u8>,
}

impl Model for KeyBytes {
    ghost use Rattle.std.specs.Prelude.{◌≡◌, ◌<◌, ℕ, List, All};
    ghost use Rattle.newt_index.specs.Front.{front_of};

    ghost Value = { List ℕ };

    ghost view = { λ k. k.items.items };

    ghost invariant = { λ k. (k.front ≡ front_of k.items.items) × All (λ b. b < 256) k.items.items };
}

impl KeyBytes {
    /// These bytes.
    pub(crate) fn of(items: Vec<u8>) -> KeyBytes
        ensures { result ≡ items.items }
    {
        KeyBytes {
            front: front_of(&items),
            items,
        }
    }

    /// Whether there are none.
    pub(crate) fn is_empty(&self) -> bool
        ensures { IsTrue result ↔ self.now ≡ [] }
    {
        self.items.is_empty()
    }

    /// Equal bytes.
    pub(crate) fn copy(&self) -> Result<KeyBytes, AllocError>
        ensures { IfOk result (λ copy. copy ≡ self.now) }
    {
        Ok(KeyBytes {
            front: self.front,
            items: self.items.clone()?,
        })
    }
}

/// The byte at a place; 0 after the last.
fn byte_at(bytes: &[u8], at: usize) -> u64
    ensures byte { result ≡ get_or bytes.now at 0 }
    ensures small { result < 256 }
{
    if at < bytes.len() {
        u64::from(bytes[at])
    } else {
        0
    }
}

/// The number that the first eight bytes are, with zeros after the last.
fn front_of(bytes: &[u8]) -> u64
    ensures { result ≡ front_of bytes.now }
{
    let two = byte_at(bytes, 0) * 256 + byte_at(bytes, 1);
    let four = (two * 256 + byte_at(bytes, 2)) * 256 + byte_at(bytes, 3);
    let six = (four * 256 + byte_at(bytes, 4)) * 256 + byte_at(bytes, 5);
    (six * 256 + byte_at(bytes, 6)) * 256 + byte_at(bytes, 7)
}

/// Compares bytes one by one. An index without a declaration has none, and nothing to compare.
fn compare(a: &[u8], b: &[u8]) -> Ordering
    ensures { result ≡ slice_cmp nat_cmp a.now b.now }
{
    if !a.is_empty() {
        return a.cmp(&b);
    }
    if b.is_empty() {
        Ordering::Equal
    } else {
        Ordering::Less
    }
}

impl PartialEq for KeyBytes {
    ghost eq = { pointwise nat_eq };

    ghost laws = { partial_equiv_from_equiv nat_list_eq_equiv };

    fn eq(&self, other: &KeyBytes) -> bool {
        self.items.as_slice() == other.items.as_slice()
    }
}

impl Eq for KeyBytes {
    ghost laws = { nat_list_eq_equiv };
}

impl PartialOrd for KeyBytes {
    ghost partial_cmp = { λ a b. Some (slice_cmp nat_cmp a b) };

    ghost laws = { texts_po };

    fn partial_cmp(&self, other: &KeyBytes) -> Option<Ordering> {
        Some(self.cmp(other))
    }
}

impl Ord for KeyBytes {
    ghost cmp = { slice_cmp nat_cmp };

    ghost total = { nat_list_cmp_total };

    ghost matches_partial_cmp = { λ a b. refl };

    ghost matches_eq = { texts_ties };

    fn cmp(&self, other: &KeyBytes) -> Ordering {
        match self.front.cmp(&other.front) {
            Ordering::Less => Ordering::Less,
            Ordering::Greater => Ordering::Greater,
            Ordering::Equal => compare(&self.items, &other.items),
        }
    }
}
