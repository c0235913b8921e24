//! Counts, one a place.
ghost use Rattle.std.specs.Prelude.{◌≡◌, ℕ, slice_index, sum};

/// A count of 0 at each of `N` places.
pub(crate) fn no_counts<const N: usize>() -> [u64; N]
    ensures none { (place : ℕ) → slice_index result place ≡ 0 }
    ensures total { sum result ≡ 0 }
{
    [0; N]
}
