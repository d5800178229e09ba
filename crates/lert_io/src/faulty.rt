//! Faults: the count that every object of the outside keeps, and the two ways in which a call fails.

ghost use Rattle.std.specs.Prelude.{ℕ};

use std::alloc::{AllocError, AllocFailed};

/// A call on the outside failed. The object's count of faults rose in that call.
#[derive(Clone, Copy, Debug, PartialEq, Eq)]
pub struct Failed;

/// There is no memory for what was asked. No clause says when this comes.
#[derive(Clone, Copy, Debug, PartialEq, Eq)]
pub struct OutOfMemory;

impl From<AllocError> for OutOfMemory {
    fn from(_error: AllocError) -> OutOfMemory {
        OutOfMemory
    }
}

impl<T: Drop> From<AllocFailed<T>> for OutOfMemory {
    fn from(_error: AllocFailed<T>) -> OutOfMemory {
        OutOfMemory
    }
}

/// An object of the outside, whose calls may fail.
pub trait Faulty {
    /// How many calls on the object failed so far. It never falls, and its last value is 2^64-1.
    ghost faults: { Self → ℕ };

    /// A number that no call on the object changes, by which an owner knows it again.
    ghost mark: { Self → ℕ };
}
