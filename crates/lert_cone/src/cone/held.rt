//! A cone as the state that a lock holds.

ghost use Rattle.std.specs.Prelude.{◌≡◌};
ghost use Rattle.lert_cone.specs.History.{most_version};
ghost use Rattle.lert_journal.specs.Payload.{IsJournaled};
ghost use Rattle.lert_cone.specs.Locked.{AnswersUnder, RefusesUnder, is_stopped};
ghost use Rattle.lert_cone.specs.Stands.{StandsFor, terms_of};
ghost use Rattle.lert_cone.specs.Short.{short};

use crate::acked::Acked;
use crate::cone::{Cone, ConeTerms};
use lert_base::{ConeFault, CountTable, Entry, Held};
use lert_bay::Bay;

impl<B: Bay, T: CountTable> Held for Cone<B, T> {
    type Terms = ConeTerms<B>;

    type Reply = Acked;

    type Refusal = ConeFault;

    ghost terms = { λ c. terms_of B.faults B.mark c };

    ghost stands_for = { λ c h. StandsFor B.files B.leaves B.faults c h };

    ghost stopped = { λ c. is_stopped c.state };

    ghost over = { λ c. c.over };

    ghost answers = { λ terms h packet acked. AnswersUnder B.files terms h packet acked };

    ghost refuses = { λ terms h packet fault. RefusesUnder terms h packet fault };

    ghost fits = { λ terms packet. IsJournaled most_version terms.settings terms.cone packet };

    /// `admit`.
    fn apply(&mut self, entry: &Entry) -> Result<Acked, ConeFault> {
        let _state = self.state();
        self.admit(entry)
    }

    ghost short = { λ c h stands. short B.files B.leaves B.faults c h stands };
}

// A cone crosses threads where its bay, its tables and their cursors may.
fn crosses<B: Bay + Send, T: CountTable + Send>(cone: &Cone<B, T>)
where
    T::Cursor: Send,
{
    sent(cone);
}

fn sent<T: Send>(_value: &T) {}
