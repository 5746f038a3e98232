//! What each kind of event does to the heights of a book.

ghost use Rattle.book_cells.specs.Laws.{CellsAtTheStart, CellsStay, CellsGoOut, CellsComeHome};

use crate::there::claims_give_jobs;
use plan_histories::{moves_leave_parts, others_keep_parts, publications_leave_parts};
use plan_holds::{steps_begin_frames, steps_fill_cells, steps_go_on};
use plan_model::blocks_have_one_tile;
use torus_grid::places_in_tiles_are_places;

/// At the start, any heights will do, once all tiles are at home.
pub fn cells_at_the_start()
    ensures { CellsAtTheStart }
{}

/// A move, a publication, a frame's beginning and its end leave all heights where they are.
pub fn cells_stay()
    ensures { CellsStay }
{
    steps_go_on();
    steps_fill_cells();
    steps_begin_frames();
    others_keep_parts();
    moves_leave_parts();
    publications_leave_parts();
}

/// A claim that is answered with a job takes the job's tile out.
pub fn cells_go_out()
    ensures { CellsGoOut }
{
    steps_go_on();
    steps_fill_cells();
    steps_begin_frames();
    others_keep_parts();
    claims_give_jobs();
}

/// A job that is given back, kept or stale, puts its tile back, with its cells filled.
pub fn cells_come_home()
    ensures { CellsComeHome }
{
    steps_go_on();
    steps_fill_cells();
    steps_begin_frames();
    others_keep_parts();
    blocks_have_one_tile();
    places_in_tiles_are_places();
}
