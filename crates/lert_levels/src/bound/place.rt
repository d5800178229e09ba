//! Where a tail's pair stands.

ghost use Rattle.std.specs.Prelude.{◌≡◌, ◌%◌, ◌≤◌};

/// A tail's place: its remainder. A division takes as long as the rest of a call, so a power of two is asked for first.
pub fn place_of(tail: u64, places: u64) -> u64
    requires { 1 ≤ places }
    ensures { result ≡ tail % places }
{
    if 1u64 << places.trailing_zeros() == places {
        tail & (places - 1)
    } else {
        tail % places
    }
}
