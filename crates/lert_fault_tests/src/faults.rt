//! Which calls on the outside fail.

use lert_top::Status;

/// Of each trace and of each bay the number of a call, counted from 1, the number of an opening of the place, and that of a write
/// of the text, which fail; 0 for none. The sink has room for so many bytes.
#[derive(Clone, Copy)]
pub struct Faults {
    pub reads: (u64, u64),
    pub calls: (u64, u64),
    pub opening: u64,
    pub write: u64,
    pub room: u64,
}

/// No call fails.
pub const NO_FAULT: Faults = Faults {
    reads: (0, 0),
    calls: (0, 0),
    opening: 0,
    write: 0,
    room: 4_096,
};

/// An object whose calls are made to fail in turn.
#[derive(Clone, Copy)]
pub enum Object {
    FirstTrace,
    SecondTrace,
    FirstBay,
    SecondBay,
}

impl Object {
    /// That this call on it fails.
    pub fn failing(self, call: u64) -> Faults {
        match self {
            Object::FirstTrace => Faults {
                reads: (call, 0),
                ..NO_FAULT
            },
            Object::SecondTrace => Faults {
                reads: (0, call),
                ..NO_FAULT
            },
            Object::FirstBay => Faults {
                calls: (call, 0),
                ..NO_FAULT
            },
            Object::SecondBay => Faults {
                calls: (0, call),
                ..NO_FAULT
            },
        }
    }

    /// The status that is due where a call on it fails.
    pub fn status(self) -> Status {
        match self {
            Object::FirstTrace => Status::TraceFault { trace: 0 },
            Object::SecondTrace => Status::TraceFault { trace: 1 },
            Object::FirstBay => Status::BayFault { cone: 0 },
            Object::SecondBay => Status::BayFault { cone: 1 },
        }
    }
}
