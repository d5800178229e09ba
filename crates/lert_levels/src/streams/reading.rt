//! The bins of a flush as streams.

ghost use Rattle.std.specs.Prelude.{◌≡◌, ℕ};

use crate::flush::Bins;
use crate::streams::streams::BinStreams;
use lert_base::{CountTable, Piece, PieceFault};
use lert_bay::Bay;
use lert_merge::Streams;

// What is to come of a table are the pieces that are left, whether the bay tells its files or not; of a frame, what the
// file says from where its reader stands.
impl<'a, T: CountTable, B: Bay> Streams<B> for BinStreams<'a, T> {
    ghost use Rattle.std.specs.Prelude.{◌≢◌, length, Some, None};
    ghost use Rattle.std.proofs.Common.{◌∙◌};
    ghost use Rattle.lert_bay.specs.Kept.{OnlyReads};
    ghost use Rattle.lert_bay.proofs.KeptLaws.{reads_none, reads_on};
    ghost use Rattle.lert_merge.specs.order.Members.{given_at, limit_at};
    ghost use Rattle.lert_levels.specs.streams.Bin.{given_of, limit_of};
    ghost use Rattle.lert_levels.specs.streams.BinSet.{IsSameSet};
    ghost use Rattle.lert_levels.specs.streams.BinLaws.{same_set, same_set_on};
    ghost use Rattle.lert_levels.specs.streams.SetLaws.{to_come_at, LeavesIn, set_in_order, set_told, set_leaves};

    ghost count = { λ set. length set.bins };

    ghost to_come = { λ set k bay. to_come_at (B.files bay) set.bins k };

    ghost given = { λ set k. given_at given_of set.bins k };

    ghost limit = { λ set k. limit_at limit_of set.bins k };

    ghost breaks = { λ set k bay at. LeavesIn (B.files bay) set.bins k at };

    ghost keeps = { λ before after. OnlyReads B.Bay before after ⊥ };

    ghost tells = { λ bay. B.files bay ≢ None };

    ghost same = { IsSameSet };

    ghost in_order = { λ set k bay pieces within told. set_in_order (B.files bay) set.bins k pieces within told };

    ghost keeps_same = { λ bay. reads_none
        (record { faults = B.faults; mark = B.mark; files = B.files; leaves = B.leaves; moment = B.moment; left_since = B.left_since; handed_out = B.handed_out })
        (record { as_read = B.as_read; since_now = B.since_now; only_now = B.only_now; since_earlier = B.since_earlier })
        bay ⊥ (λ none. none) };

    ghost keeps_on = { λ a b c one two. reads_on
        (record { faults = B.faults; mark = B.mark; files = B.files; leaves = B.leaves; moment = B.moment; left_since = B.left_since; handed_out = B.handed_out })
        (record { as_read = B.as_read; since_now = B.since_now; only_now = B.only_now; since_earlier = B.since_earlier })
        a b c ⊥ ⊥ one two };

    ghost keeps_told = { λ set k a b ps one told. set_told (B.files a) (B.files b) set.bins k (Some ps) one.seen told };

    ghost keeps_untold = { λ set k a b one untold. set_told (B.files a) (B.files b) set.bins k None one.seen untold };

    ghost keeps_breaks = { λ set k a b at one. set_leaves (B.files a) (B.files b) set.bins k at one.seen };

    ghost keeps_tells = { λ a b one told none. told (one.seen ∙ none) };

    ghost same_self = { same_set };

    ghost same_on = { same_set_on };

    fn len(&self) -> usize {
        self.count()
    }

    fn next(&mut self, stream: usize, ctx: &mut B) -> Result<Option<Piece>, PieceFault> {
        self.ask(stream, ctx)
    }
}

impl<'a, T: CountTable, B: Bay> Bins<B> for BinStreams<'a, T> {
    ghost use Rattle.std.proofs.Common.{refl, sym, ◌∙◌};
    ghost use Rattle.lert_merge.specs.order.Members.{limit_at};
    ghost use Rattle.lert_levels.specs.streams.Bin.{version_of, wide_of};
    ghost use Rattle.lert_levels.specs.streams.BinSet.{Reads, AreSure};
    ghost use Rattle.lert_levels.specs.streams.StayLaws.{set_within, set_same_version, set_same_width, set_same_reads, set_same_sure, set_coming, set_breaking, set_sure};
    ghost use Rattle.lert_levels.specs.streams.SetLaws.{set_told, set_leaves};

    ghost version = { λ set k. limit_at (version_of set.version) set.bins k };

    ghost width = { λ set k. limit_at (wide_of set.version) set.bins k };

    ghost reads = { λ set from to. Reads set.bins from to };

    ghost sure = { λ set file. AreSure set.bins file };

    ghost summed = { λ set k within. set_within set.version set.bins k within };

    ghost version_same = { λ old new same k. set_same_version old.version new.version old.bins new.bins k same.version same.bins };

    ghost width_same = { λ old new same k. set_same_width old.version new.version old.bins new.bins k same.version same.bins };

    ghost reads_same = { λ old new same from to reads. set_same_reads old.bins new.bins from to same.bins reads };

    ghost sure_same = { λ old new before after seen same told later law sure.
        set_same_sure (B.files before) (B.files after) seen told later old.bins new.bins same.bins law sure };

    ghost stays = { λ set before after seen later told told_later sure rest k within. record {
      coming = set_coming (B.files before) (B.files after) seen later told told_later (Reads set.bins) rest set.bins k sure (λ from to reads. reads);
      breaking = set_breaking (B.files before) (B.files after) seen later told told_later (Reads set.bins) rest set.bins k sure (λ from to reads. reads);
    } };

    ghost sure_stays = { λ set before after seen later told told_later sure rest.
        set_sure (B.files before) (B.files after) seen later told told_later (Reads set.bins) rest set.bins sure (λ from to reads. reads) };

    ghost stays_untold = { λ set before after told told_later k within. record {
      coming = set_told (B.files before) (B.files after) set.bins k _ (told_later ∙ sym told) refl;
      breaking = λ at. set_leaves (B.files before) (B.files after) set.bins k at (told_later ∙ sym told);
    } };

    ghost telling = { λ bay. ((λ told. told), (λ told. told)) };

    ghost reading = { λ before after keeps. keeps };
}
