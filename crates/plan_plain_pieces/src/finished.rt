//! Which pieces of a strip are finished.

ghost use Rattle.std.specs.Prelude.{◌≡◌, not, ◌||◌, filter, IfOk};
ghost use Rattle.plan_model.specs.Blocks.{same_block};
ghost use Rattle.plan_model.specs.Claims.{is_finished};

use crate::blocks::same_block;
use plan_model::Piece;
use std::alloc::{AllocError, Global};

/// Whether the piece's block is that of a finished piece.
#[tactic(auto, unfolding(plan_model::specs::Claims::is_finished))]
pub fn is_finished(finished: &[Piece], piece: Piece) -> bool
    ensures value { result ≡ is_finished finished.now piece }
{
    finished.iter().any(|other| same_block(piece, *other))
}

/// Those of some pieces that aren't finished, in their order. It fails where memory runs out.
pub fn unfinished_of(
    alloc: Global,
    finished: &[Piece],
    some: &[Piece],
) -> Result<Vec<Piece>, AllocError>
    ensures value { IfOk result (λ v. v.items ≡ filter (λ piece. not (is_finished finished.now piece)) some.now) }
{
    some.iter()
        .copied()
        .filter(|piece| !is_finished(finished, *piece))
        .collect(alloc)
}

/// Those of a strip's pieces that are finished once one more is, in the strip's order. It fails where
/// memory runs out.
pub fn finished_with(
    alloc: Global,
    all: &[Piece],
    finished: &[Piece],
    piece: Piece,
) -> Result<Vec<Piece>, AllocError>
    ensures value { IfOk result (λ v. v.items ≡ filter (λ other. same_block other piece ||
        is_finished finished.now other) all.now) }
{
    all.iter()
        .copied()
        .filter(|other| same_block(*other, piece) || is_finished(finished, *other))
        .collect(alloc)
}
