//! The lowest of some words.
ghost use Rattle.std.specs.Prelude.{◌≡◌};
ghost use Rattle.spv_base.specs.Lowest as spec;

/// The lower of two words, or of two lines, where there are any.
pub fn lower(one: Option<u32>, other: Option<u32>) -> Option<u32>
    ensures { result ≡ spec.lower one other }
{
    match (one, other) {
        (None, other) => other,
        (Some(word), None) => Some(word),
        (Some(word), Some(other)) => Some(word.min(other)),
    }
}
