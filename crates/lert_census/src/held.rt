//! A region as the state that a lock holds.

ghost use Rattle.std.specs.Prelude.{◌≡◌, ◌++◌, ◌∷◌, [], None, false, length};
ghost use Rattle.lert_base.specs.Packet.{events_of};
ghost use Rattle.lert_census.specs.Census.{IsRefused, MayTake, StandsFor};
ghost use Rattle.lert_census.specs.Short.{short};

use crate::region::{Region, add_all};
use lert_base::{ConeFault, Entry, Held, Numbers};

/// What no packet changes of a region: its settings and its number.
#[derive(Clone, Copy, Debug, PartialEq, Eq)]
pub struct RegionTerms {
    pub numbers: Numbers,
    pub region: u32,
}

impl Held for Region {
    type Terms = RegionTerms;

    type Reply = u64;

    type Refusal = ConeFault;

    ghost terms = { λ region. record { numbers = region.settings; region = region.region } };

    ghost stands_for = { λ region h. StandsFor region h };

    ghost stopped = { λ _. false };

    ghost over = { λ _. None };

    ghost answers = { λ terms h packet items. items ≡ length (events_of (h ++ packet ∷ [])) };

    ghost refuses = { λ terms h packet fault. IsRefused terms.numbers h packet fault };

    ghost fits = { λ terms packet. MayTake terms.numbers terms.region packet };

    /// Answers how many items the region has with those of the packet. It refuses exactly the packet that has more than
    /// there is room for, with `CapacityFull`, and is then as before. Takes no memory.
    fn apply(&mut self, entry: &Entry) -> Result<u64, ConeFault> {
        let keys = entry.keys.as_slice();
        let weights = entry.keys.weights();
        let n = self.items();
        let len = keys.len() as u64;
        if n + len > self.settings.numbers().room {
            return Err(ConeFault::CapacityFull { n, len });
        }
        add_all(&mut self.table, &self.settings, keys, weights);
        Ok(n + len)
    }

    ghost short = { λ region h stands. short region h stands };
}

// A region and its terms cross threads.
fn crosses(region: &Region, terms: &RegionTerms) {
    sent(region);
    sent(terms);
}

fn sent<T: Send>(_value: &T) {}
