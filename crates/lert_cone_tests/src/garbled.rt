//! A bay whose file of frames reads as zero bytes. It tells nothing.

ghost use Rattle.std.specs.Prelude.{◌<◌};

use lert_bay::{Bay, FRAMES, MemBay};
use lert_io::{Failed, Faulty};

#[derive(Drop)]
pub struct GarbledBay {
    bay: MemBay,
}

impl GarbledBay {
    /// The files of this bay.
    pub fn new(bay: MemBay) -> GarbledBay {
        GarbledBay { bay }
    }

    /// The bytes of one of its files, as they were written.
    pub fn bytes(&self, file: u8) -> &[u8]
        requires { file < 3 }
    {
        self.bay.bytes(file)
    }
}

impl Faulty for GarbledBay {
    ghost faults = { λ b. b.bay.faults };

    ghost mark = { λ b. b.bay.mark };
}

impl Bay for GarbledBay {
    ghost use Rattle.std.specs.Prelude.{None};
    ghost use Rattle.std.proofs.lemmas.Option.{none-some};

    ghost files = { λ _. None };

    ghost leaves = { λ _ image. ⊥ };

    ghost moment = { λ _. 0 };

    ghost left_since = { λ _ t image. ⊥ };

    ghost handed_out = { λ _ _. 0 };

    ghost as_read = { λ bay seen told. none-some seen told };

    ghost since_now = { λ bay image never. never };

    ghost only_now = { λ bay image never. never };

    ghost since_earlier = { λ bay t u image earlier never. never };

    fn len(&mut self, file: u8) -> Result<u64, Failed> {
        self.bay.len(file)
    }

    fn read_at(&mut self, file: u8, at: u64, into: &mut [u8]) -> Result<usize, Failed> {
        let count = self.bay.read_at(file, at, into)?;
        if file == FRAMES {
            into.fill(0);
        }
        Ok(count)
    }

    fn write_at(&mut self, file: u8, at: u64, bytes: &[u8]) -> Result<(), Failed> {
        self.bay.write_at(file, at, bytes)
    }

    fn sync(&mut self, file: u8) -> Result<(), Failed> {
        self.bay.sync(file)
    }
}
