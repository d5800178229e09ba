//! A place between two pieces.

/// A place between two pieces of a `Cqf`. It is of use for the table that made it, as long as that stays.
#[derive(Clone, Copy, Debug)]
pub struct CqfCursor {
    // The first quotient that isn't begun.
    pub(crate) next: u64,
    // The slots of the begun run that aren't given.
    pub(crate) at: u64,
    pub(crate) end: u64,
    // How many pieces were given.
    pub(crate) given: u64,
}
