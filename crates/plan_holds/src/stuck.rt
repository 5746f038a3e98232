//! What a claim finds where nothing can be claimed.

ghost use Rattle.plan_holds.specs.Stuck.{StuckPiecesAreBlocked, RestedPiecesAreOffered, IdleWhereSettled};

use plan_laws::{
    needs_lie_in_coarser_windows, strips_are_there_unless_whole, strips_lie_in_windows,
};

/// Where nothing can be claimed, the first unfinished piece of the coarsest level in use that isn't whole
/// is blocked: by its tile's holder, by a frame that pins its tile, or by a coarser tile's holder.
pub fn stuck_pieces_are_blocked()
    ensures { StuckPiecesAreBlocked }
{
    needs_lie_in_coarser_windows();
    strips_lie_in_windows();
    strips_are_there_unless_whole();
}

/// Where no pass has work, such a piece leaves something to claim.
pub fn rested_pieces_are_offered()
    ensures { RestedPiecesAreOffered }
{
    needs_lie_in_coarser_windows();
    strips_lie_in_windows();
    strips_are_there_unless_whole();
}

/// A claim of a pass without work answers Idle exactly where every level in use is whole.
pub fn claims_are_idle_where_settled()
    ensures { IdleWhereSettled }
{
    needs_lie_in_coarser_windows();
    strips_lie_in_windows();
    strips_are_there_unless_whole();
}
