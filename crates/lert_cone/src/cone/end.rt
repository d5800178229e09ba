//! The end of a cone, and its reports.

ghost use Rattle.std.specs.Prelude.{◌≡◌, ℕ, List, length, true, false, None, Err, IfOk, IfErr, OnOk};
ghost use Rattle.lert_base.specs.Packet.{Packet, events_of};
ghost use Rattle.lert_bay.specs.Files.{Files, IfTold};
ghost use Rattle.lert_bay.specs.declared.bay.TheConstants.{FRAMES};
ghost use Rattle.lert_levels.specs.rows.Checked.{rows_left};
ghost use Rattle.lert_spec.specs.Counts.{weighed};
ghost use Rattle.lert_spec.specs.Look.{look_of, closing_of};
ghost use Rattle.lert_spec.specs.Timely.{IsTimelyIn, IsTimelySoFarIn};
ghost use Rattle.lert_cone.specs.Sound.{IsSound, IsSoundClosed, IsKept};
ghost use Rattle.lert_cone.specs.Stands.{StandsFor, WasSound, is_broken, is_refusal};
ghost use Rattle.lert_cone.specs.Steps.{StepsCone};

use crate::cone::{Cone, broken_by};
use crate::keys::finish;
use crate::state::ConeState;
use lert_base::{ConeFault, CountTable};
use lert_bay::Bay;
use lert_reports::ReportStore;

impl<B: Bay, T: CountTable> Cone<B, T> {
    /// Ends the cone: scans all levels, makes the reports that are left, and answers how many stand then. The closing record
    /// stands in the log then: four calls of the bay beside those of the scan. What it says of its refusals, of a fault in the
    /// middle and of the bay is what each call says that steps a cone on: `StepsCone`.
    pub fn finish(&mut self) -> Result<u64, ConeFault>
        ensures stands_for { OnOk result ((h : List Packet) → StandsFor B.files B.leaves B.faults self.old h →
            StandsFor B.files B.leaves B.faults self.new h) }
        ensures answers { IfOk result (λ reports. (h : List Packet) → StandsFor B.files B.leaves B.faults self.old h →
            WasSound B.files self.old → IfTold (B.files self.old.bay) (λ _. reports ≡ length (closing_of weighed self.old.listing.settings (events_of h)))) }
        ensures reports { IfOk result (λ reports. reports ≡ length self.new.reports) }
        ensures finished { OnOk result (self.new ≡ record self.old {
          bay = self.new.bay;
          listing = record self.old.listing { closed = true };
          reports = self.new.reports;
          state = ConeState.Finished;
          log = self.new.log;
        }) }

        // After Ok each key that has reached the threshold stands among the reports, and soon enough. No key stands there twice.
        ensures in_time { OnOk result ((h : List Packet) → StandsFor B.files B.leaves B.faults self.old h → WasSound B.files self.old →
            IfTold (B.files self.old.bay) (λ _. IsTimelyIn weighed self.old.listing.settings.threshold self.old.listing.settings.bins
            (events_of h) self.new.reports)) }

        // A refusal before the first step leaves all, and any other error the list.
        ensures step { StepsCone B.Bay self.old self.new result }
        ensures broke { IfErr result (λ fault. is_refusal fault ≡ false → self.new ≡ record self.old {
          bay = self.new.bay;
          listing = record self.old.listing { closed = self.new.listing.closed };
          reports = self.new.reports;
          state = self.new.state;
          log = self.new.log;
        }) }
        ensures never_full { (n len : ℕ) → result ≡ Err (ConeFault.CapacityFull n len) → ⊥ }
        ensures never_heavy { (weight more : ℕ) → result ≡ Err (ConeFault.WeightFull weight more) → ⊥ }
        ensures never_old { (place : ℕ) → result ≡ Err (ConeFault.OldJournal place) → ⊥ }

        // Where the bay tells its files, Ok comes only where each frame that the levels name was in its format to the end.
        ensures whole { IfTold (B.files self.old.bay) (λ seen. OnOk result (rows_left self.old.listing.settings self.old.listing.version (seen FRAMES) self.old.rows ≡ None)) }

        // In each image of each moment of the call the files are sound for the list, and after Ok they are closed.
        ensures each_moment { is_broken self.old.state ≡ false → WasSound B.files self.old → IfTold (B.files self.old.bay) (λ _. (h : List Packet) →
            StandsFor B.files B.leaves B.faults self.old h → (image : Files) →
            B.left_since self.new.bay (B.moment self.old.bay) image → IsSound self.old.listing.settings self.old.listing.cone h image) }
        ensures sound_closed { OnOk result (WasSound B.files self.old → IfTold (B.files self.new.bay) (λ seen. (h : List Packet) → StandsFor B.files B.leaves B.faults self.old h →
            IsKept (B.leaves self.new.bay) seen (IsSoundClosed self.old.listing.settings self.old.listing.cone h))) }
    {
        self.test_state()?;
        if let Err(fault) = finish(
            &mut self.tally,
            &mut self.log,
            &mut self.bay,
            &mut self.buffer,
        ) {
            self.state = broken_by(fault);
            return Err(ConeFault::from(fault));
        }
        self.state = ConeState::Finished;
        Ok(self.tally.store().len() as u64)
    }

    /// The reports, in the order of their positions. Of a broken cone's nothing is said.
    pub fn reports(&self) -> &ReportStore<T>
        ensures value { result.now.reports ≡ self.now.reports }
        ensures settings { is_broken self.now.state ≡ false → result.now.settings ≡ self.now.listing.settings }
        ensures running { self.now.state ≡ ConeState.Running → (h : List Packet) → StandsFor B.files B.leaves B.faults self.now h →
            WasSound B.files self.now → IfTold (B.files self.now.bay) (λ _. result.now.reports ≡ look_of weighed self.now.listing.settings (events_of h)) }
        ensures finished { self.now.state ≡ ConeState.Finished → (h : List Packet) → StandsFor B.files B.leaves B.faults self.now h →
            WasSound B.files self.now → IfTold (B.files self.now.bay) (λ _. result.now.reports ≡ closing_of weighed self.now.listing.settings (events_of h)) }

        // A key that reaches the threshold stands there, and soon enough. No key stands there twice.
        ensures in_time { self.now.state ≡ ConeState.Finished → (h : List Packet) → StandsFor B.files B.leaves B.faults self.now h →
            WasSound B.files self.now → IfTold (B.files self.now.bay) (λ _. IsTimelyIn weighed self.now.listing.settings.threshold self.now.listing.settings.bins (events_of h) result.now.reports) }
        ensures in_time_so_far { self.now.state ≡ ConeState.Running → (h : List Packet) → StandsFor B.files B.leaves B.faults self.now h →
            WasSound B.files self.now → IfTold (B.files self.now.bay) (λ _.
            IsTimelySoFarIn weighed self.now.listing.settings.threshold self.now.listing.settings.bins (events_of h) result.now.reports) }
    {
        self.tally.store()
    }
}
