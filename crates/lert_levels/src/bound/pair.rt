//! The two bytes of a place.

/// How many events came at most in the generation before and in the present one, where 255 bounds nothing.
#[derive(Clone, Copy)]
pub struct Pair {
    pub before: u8,
    pub present: u8,
}

impl Pair {
    /// No event.
    pub const NONE: Pair = Pair {
        before: 0,
        present: 0,
    };
}
