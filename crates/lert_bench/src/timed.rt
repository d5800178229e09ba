//! What a timed loop has to show.

use std::fmt;
use std::time::Duration;

/// A number, or two, which a line has.
#[derive(Clone, Copy)]
pub struct Line {
    pub first: u128,
    pub second: Option<u128>,
}

impl fmt::Display for Line {
    fn fmt<W: fmt::Write>(&self, f: &mut fmt::Formatter<W>) -> fmt::Result {
        let first = self.first;
        match self.second {
            Some(second) => write!(f, "{first} {second}"),
            None => write!(f, "{first}"),
        }
    }
}

/// What a loop came to, and the nanoseconds that it took.
#[derive(Clone, Copy)]
pub struct Timed {
    pub sums: Line,
    pub times: Line,
}

impl Timed {
    /// One sum and one time.
    pub fn once(sum: u64, time: Duration) -> Timed {
        Timed {
            sums: Line {
                first: u128::from(sum),
                second: None,
            },
            times: Line {
                first: time.as_nanos(),
                second: None,
            },
        }
    }
}
