//! The laws of the crates below, together.

ghost use Rattle.plan_flights.specs.Below.{LawsBelow};

use plan_histories::{
    legal_with_one_more, moves_leave_parts, others_keep_parts, publications_leave_parts,
    states_after_one_more,
};
use plan_laws::{
    finished_and_unfinished_are_all, held_regions_have_no_more_cells, hulls_add_strips,
    hulls_are_even_inside, inside_is_held, needs_have_cells, needs_lie_in_coarser_windows,
    parts_are_filled_in, pieces_are_no_more_than_cells, regions_have_pieces,
    strips_are_there_unless_whole, strips_lie_in_windows, unfilled_cells_are_the_rest,
};
use plan_sound::{starts_are_sound, steps_keep_soundness, windows_have_cells};

/// The laws on which those of flights stand.
pub fn laws_below()
    ensures { LawsBelow }
{
    regions_have_pieces();
    pieces_are_no_more_than_cells();
    held_regions_have_no_more_cells();
    hulls_add_strips();
    unfilled_cells_are_the_rest();
    finished_and_unfinished_are_all();
    inside_is_held();
    parts_are_filled_in();
    hulls_are_even_inside();
    strips_lie_in_windows();
    strips_are_there_unless_whole();
    needs_have_cells();
    needs_lie_in_coarser_windows();
    windows_have_cells();
    legal_with_one_more();
    states_after_one_more();
    moves_leave_parts();
    publications_leave_parts();
    others_keep_parts();
    starts_are_sound();
    steps_keep_soundness();
}
