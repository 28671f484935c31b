//! The forms of the words that a declaration is made of.
ghost use Rattle.std.specs.Prelude.{◌≡◌, is_none};
ghost use Rattle.std.specs.List.{list_any};

use newt_spec_world::PartWord;

/// Whether a part has no type that an index can have.
pub(crate) fn has_real(parts: &[PartWord]) -> bool
    ensures { result ≡ list_any (λ p. is_none p.kind) parts.now }
{
    parts.iter().any(|part| part.kind.is_none())
}
