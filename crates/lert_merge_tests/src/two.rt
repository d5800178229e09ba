//! A stream of two pieces.

use lert_base::{PieceFault, Pieces};
use lert_io::Faulty;
use lert_spec::Piece;

// A context that never fails.
#[derive(Clone, Copy)]
struct Quiet {}

impl Faulty for Quiet {
    ghost faults = { λ _. 0 };

    ghost mark = { λ _. 0 };
}

// A stream of two pieces, of which so many were given.
#[derive(Clone, Copy)]
struct Two {
    given: u64,
}

impl Pieces<Quiet> for Two {
    ghost use Rattle.std.specs.Prelude.{ℕ, ◌≡◌, ◌∷◌, [], take, drop, Some, List, refl};
    ghost use Rattle.lert_spec.specs.declared.piece.Piece.{Piece};
    ghost use Rattle.lert_merge_tests.specs.TwoPieces.{two, two_in_order};
    ghost use Rattle.std.proofs.Common.{sym, ◌∙◌};

    ghost to_come = { λ s _. Some (drop s.given two) };

    ghost given = { λ s. take s.given two };

    ghost limit = { λ _. 6 };

    ghost breaks = { λ _ _ _. ⊥ };

    ghost keeps = { λ _ _. Unit {0} };

    ghost in_order = { λ s _ pieces told. two_in_order s.given pieces told };

    ghost keeps_same = { λ _. tt };

    ghost keeps_on = { λ _ _ _ _ _. tt };

    ghost keeps_told = { λ _ _ _ _ _ told. told };

    ghost keeps_untold = { λ _ _ _ _ untold. untold };

    ghost keeps_breaks = { λ _ _ _ _ _. ((λ no. no), (λ no. no)) };

    fn next(&mut self, _ctx: &mut Quiet) -> Result<Option<Piece>, PieceFault> {
        let piece = match self.given {
            0 => Piece { tail: 3, count: 1 },
            1 => Piece { tail: 5, count: 2 },
            _ => return Ok(None),
        };
        self.given += 1;
        Ok(Some(piece))
    }
}

#[test]
fn a_stream_gives_its_pieces_in_order(rt: HostRuntime) {
    let mut stream = Two { given: 0 };
    let mut ctx = Quiet {};
    assert_eq!(rt;
        stream.next(&mut ctx),
        Ok(Some(Piece { tail: 3, count: 1 }))
    );
    assert_eq!(rt;
        stream.next(&mut ctx),
        Ok(Some(Piece { tail: 5, count: 2 }))
    );
    assert_eq!(rt; stream.next(&mut ctx), Ok(None));
}
