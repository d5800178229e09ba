//! The files of a cone as plain bytes.

use lert_bay::{FRAMES, JOURNAL, LOG, MemBay};
use lert_io::OutOfMemory;
use std::alloc::Global;

/// What the three files of a cone hold.
#[derive(Drop)]
pub struct Files {
    pub journal: Vec<u8>,
    pub log: Vec<u8>,
    pub frames: Vec<u8>,
}

impl Files {
    /// Files without a byte.
    pub fn new(alloc: Global) -> Files {
        Files {
            journal: Vec::new(alloc),
            log: Vec::new(alloc),
            frames: Vec::new(alloc),
        }
    }

    /// Whether the files are those.
    pub fn are(&self, other: &Files) -> bool {
        self.journal == other.journal && self.log == other.log && self.frames == other.frames
    }

    /// What the files of a bay hold.
    pub fn of_bay(alloc: Global, bay: &MemBay) -> Result<Files, OutOfMemory> {
        Ok(Files {
            journal: Vec::from_slice(alloc, bay.bytes(JOURNAL))?,
            log: Vec::from_slice(alloc, bay.bytes(LOG))?,
            frames: Vec::from_slice(alloc, bay.bytes(FRAMES))?,
        })
    }
}

/// A bay with these files.
pub fn bay_of(alloc: Global, files: &Files) -> Result<MemBay, OutOfMemory> {
    let mut bay = MemBay::new(alloc)?;
    load(&mut bay, files)?;
    Ok(bay)
}

fn load(bay: &mut MemBay, files: &Files) -> Result<(), OutOfMemory> {
    bay.load(JOURNAL, files.journal.as_slice())?;
    bay.load(LOG, files.log.as_slice())?;
    bay.load(FRAMES, files.frames.as_slice())?;
    Ok(())
}
