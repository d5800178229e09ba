//! The packets of a journal, replayed one after the other.

ghost use Rattle.std.specs.Prelude.{◌≡◌, ℕ, ◌+◌, ◌*◌, ◌<◌, ◌≤◌, ◌^◌, List, length, None, MatchResult, OnOk, IfOk, IfErr, IsErrAnd};
ghost use Rattle.lert_base.specs.Packet.{Packet};
ghost use Rattle.lert_bay.specs.declared.bay.TheConstants.{JOURNAL, LOG, FRAMES};
ghost use Rattle.lert_bay.specs.Files.{Files, IfTold, Turns};
ghost use Rattle.lert_bay.specs.Kept.{CallsBay};
ghost use Rattle.lert_cone.specs.Framed.{HoldsSome};
ghost use Rattle.lert_cone.specs.KeepsLog.{KeepsLogOf, head_of};
ghost use Rattle.lert_cone.specs.Replay.{ReplayLeavesAt};
ghost use Rattle.lert_cone.specs.Replaying.{IsSameReplay};
ghost use Rattle.lert_cone.specs.Replays.{Replays};
ghost use Rattle.lert_cone.specs.Sound.{IsSound, StaysSound};
ghost use Rattle.lert_cone.specs.Wrote.{IsShutIfTold};
ghost use Rattle.lert_files.specs.Opened.{WritesNothing};
ghost use Rattle.lert_gatelog.specs.Gated.{IsClosed};
ghost use Rattle.lert_recover.specs.Moments.{AreSound};
ghost use Rattle.lert_recover.specs.Replayed.{FlushesNothing, HasReplayed, IsJournalSame, ReadsRest, ReplaysSome};
ghost use Rattle.lert_spec.specs.declared.item.Item.{Item};
ghost use Rattle.lert_spec.specs.Edges.{capacity};
ghost use Rattle.lert_spec.specs.Limits.{IsValid};

use lert_base::CountTable;
use lert_bay::Bay;
use lert_cone::{ReplayFault, ReplayingCone};

/// What stands before a gate of a journal: so many items, and what they weigh, by the frames that the log's last record names as far as
/// these hold them.
#[derive(Clone, Copy)]
pub struct Before {
    pub events: u64,
    pub weight: u64,
}

/// Where a replay stopped: at a gate, behind what stands before it, and why.
#[derive(Clone, Copy)]
pub struct Stop {
    pub fault: ReplayFault,
    pub gate: u64,
    pub before: Before,
}

/// Replays the packets of a cone's journal from this gate on, at which the cone waits, up to a closed gate, which is the answer.
pub fn replay_all<B: Bay, T: CountTable>(
    cone: &mut ReplayingCone<B, T>,
    first: u64,
) -> Result<u64, Stop>
    requires taking { cone.old.stopped ≡ None }
    requires valid { IsValid cone.old.listing.settings }
    requires begun { (cone.old.gate ≡ first) × (cone.old.events ≡ length cone.old.listing.events) }
    requires few { (cone.old.events ≤ cone.old.last.n0) × (cone.old.last.n0 ≤ capacity cone.old.listing.settings) }
    requires near { first ≤ 2 ^ 46 }
    requires light { cone.old.weight < 2 ^ 62 }
    requires log_shut { IsShutIfTold (B.files cone.old.bay) (B.leaves cone.old.bay) LOG cone.old.log.gate }

    // Where the files are told, these are the packets that stand there, up to a closed gate or to where it stopped.
    ensures told { IfTold (B.files cone.old.bay) (λ seen. MatchResult result
        (λ end. HasReplayed cone.old.listing.version cone.old.listing.settings cone.old.listing.cone cone.old.last.n0 cone.old.last.closed (seen JOURNAL) cone.old.listing.events cone.old.weight first
        end cone.new.listing.events cone.new.weight × IsClosed (seen JOURNAL) end)
        (λ stop. (events : List Item)
        × HasReplayed cone.old.listing.version cone.old.listing.settings cone.old.listing.cone cone.old.last.n0 cone.old.last.closed (seen JOURNAL) cone.old.listing.events cone.old.weight first
        stop.gate events stop.before.weight
        × (stop.before.events ≡ length events)
        × ((at : ℕ) → stop.fault ≡ ReplayFault.Malformed at →
        ReplayLeavesAt cone.old.listing.version cone.old.listing.settings cone.old.listing.cone cone.old.last.n0 cone.old.last.closed stop.before.events
        stop.before.weight (seen JOURNAL) stop.gate at))) }

    // Where the frames hold the bins of some events, whatever these are, only a full store may show that the files are sound for
    // no list.
    ensures full { IfTold (B.files cone.old.bay) (λ seen. HoldsSome cone.old.listing.version cone.old.listing.settings cone.old.last.n0 cone.old.rows (seen FRAMES) →
        IfErr result (λ stop. (file at : ℕ) → stop.fault ≡ ReplayFault.Unsound file at → (file ≡ LOG) × (at ≡ 0))) }

    // A cone on its way through the packets of a list is then behind all of them.
    ensures replays { IfTold (B.files cone.old.bay) (λ _. (h : List Packet) → ReplaysSome B.files B.leaves cone.old h →
        MatchResult result (λ _. Replays B.files B.leaves cone.new h h) (λ stop. stop.fault ≡ ReplayFault.Failed)) }

    // Whatever it answers, the files that it leaves are sound for that list, and every image of each moment is, where every image
    // was before; and they are as they were where no flush comes.
    ensures stays_sound { IfTold (B.files cone.old.bay) (λ _. (h : List Packet) → ReplaysSome B.files B.leaves cone.old h →
        IfTold (B.files cone.new.bay) (IsSound cone.old.listing.settings cone.old.listing.cone h)) }
    ensures each_moment { IfTold (B.files cone.old.bay) (λ _. (h : List Packet) → ReplaysSome B.files B.leaves cone.old h →
        AreSound (B.leaves cone.old.bay) cone.old.listing.settings cone.old.listing.cone h →
        StaysSound B.Bay cone.old.listing.settings cone.old.listing.cone h cone.old.bay cone.new.bay) }
    ensures unflushed { IfTold (B.files cone.old.bay) (λ seen.
        FlushesNothing cone.old.listing.version cone.old.listing.settings cone.old.last.n0 (seen JOURNAL) (length cone.old.listing.events) first →
        WritesNothing B.Bay cone.old.bay cone.new.bay ⊥) }

    // The log keeps its records, whatever it answers, and whether or not the files are sound for a list.
    ensures log { KeepsLogOf B.Bay cone.old.listing.version cone.old.listing.settings (head_of cone.old) (head_of cone.new) cone.old.bay cone.new.bay result }

    // On that way it reads each record once.
    ensures reads { IfTold (B.files cone.old.bay) (λ _. (h : List Packet) → ReplaysSome B.files B.leaves cone.old h →
        ReadsRest cone.old.listing.version cone.old.listing.settings first h (B.handed_out cone.old.bay JOURNAL) (B.handed_out cone.new.bay JOURNAL)) }

    // Told or not, it has at least the keys that the log speaks of, and waits at the gate.
    ensures passed { OnOk result (cone.old.last.n0 ≤ length cone.new.listing.events) }
    ensures taking { OnOk result (cone.new.stopped ≡ None) }
    ensures gate { IfOk result (λ end. cone.new.gate ≡ end) }
    ensures shut { IfOk result (λ end. IsShutIfTold (B.files cone.new.bay) (B.leaves cone.new.bay) 0 end) }
    ensures counted { OnOk result (cone.new.events ≡ length cone.new.listing.events) }
    ensures closed { OnOk result (cone.new.listing.closed ≡ cone.old.listing.closed) }
    ensures same_cone { IsSameReplay cone.old cone.new }
    ensures near { IfErr result (λ stop. (stop.gate ≤ 2 ^ 46 + 65536 * stop.before.events) × (stop.before.events ≤ capacity cone.old.listing.settings) × (stop.before.weight < 2 ^ 62)) }
    ensures journal { IsJournalSame (B.files cone.old.bay) (B.files cone.new.bay) }
    ensures kept { CallsBay B.Bay cone.old.bay cone.new.bay (IsErrAnd result (λ stop. stop.fault ≡ ReplayFault.Failed)) }
{
    let mut gate = first;
    'packets: loop {
        let events = cone.events();
        let weight = cone.weight();
        match cone.replay(gate) {
            Ok(Some(next)) => gate = next,
            Ok(None) => return Ok(gate),
            Err(fault) => {
                return Err(Stop {
                    fault,
                    gate,
                    before: Before { events, weight },
                });
            }
        }
    }
}
