//! A vector of streams as one set.

ghost use Rattle.std.specs.Prelude.{◌≡◌};

use crate::order::streams::Streams;
use lert_base::{Piece, PieceFault, Pieces};
use lert_io::Faulty;
use std::marker::Model;

/// Streams that are each a value of their own, numbered by their places in a vector. It is seen as their list.
#[derive(Drop)]
pub struct Each<P> {
    streams: Vec<P>,
}

impl<P> Model for Each<P> {
    ghost use Rattle.std.specs.Prelude.{List};

    ghost Value = { List P };

    ghost view = { λ each. each.streams.items };
}

impl<P> Each<P> {
    /// The streams of a vector.
    pub fn of(streams: Vec<P>) -> Each<P>
        ensures { result ≡ streams.items }
    {
        Each { streams }
    }
}

impl<C: Faulty, P: Pieces<C>> Streams<C> for Each<P> {
    ghost use Rattle.std.specs.Prelude.{length, refl};
    ghost use Rattle.std.proofs.Common.{◌∙◌};
    ghost use Rattle.lert_merge.specs.order.Members.{told_at, given_at, limit_at, BreaksAt, at_in_order, at_told, at_untold, at_breaks};

    ghost count = { λ streams. length streams };

    ghost to_come = { told_at P.to_come };

    ghost given = { given_at P.given };

    ghost limit = { limit_at P.limit };

    ghost breaks = { BreaksAt P.breaks };

    ghost keeps = { P.keeps };

    // A value's own contract says nothing of where it ends.
    ghost tells = { λ ctx. ⊥ };

    ghost same = { λ old new. length new ≡ length old };

    ghost in_order = { at_in_order P.to_come P.given P.limit P.in_order };

    ghost keeps_same = { P.keeps_same };

    ghost keeps_on = { P.keeps_on };

    ghost keeps_told = { at_told P.to_come P.keeps P.keeps_told };

    ghost keeps_untold = { at_untold P.to_come P.keeps P.keeps_untold };

    ghost keeps_breaks = { at_breaks P.breaks P.keeps P.keeps_breaks };

    ghost keeps_tells = { λ a b kept told. told };

    ghost same_self = { λ streams. refl };

    ghost same_on = { λ a b c one two. two ∙ one };

    fn len(&self) -> usize {
        self.streams.len()
    }

    fn next(&mut self, stream: usize, ctx: &mut C) -> Result<Option<Piece>, PieceFault> {
        self.streams[stream].next(ctx)
    }
}
