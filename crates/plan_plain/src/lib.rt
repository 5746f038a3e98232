//! The plain program of the plan: each definition of `plan_model` as a short and slow function.
//!
//! It shows on small inputs that the definitions say what was meant, and every faster body is compared
//! with it. It stays plain for good: lists and filters, no torus, no caches. Strips and pieces are in
//! `plan_plain_pieces` and states with their events in `plan_plain_steps`; this crate has runs,
//! histories and flights, and hands on the others.
#![tactic(auto)]

mod histories;
mod rounds;
mod runs;
#[cfg(test)]
mod tests;

pub use histories::{are_played, is_allowed, moves, places, state_of_history, stops_at};
pub use level_frame::window;
pub use plan_plain_pieces::{
    actives, are_near, block_cells, block_of, current_strip, drawable, finished_with, hull,
    is_finished, meets_tile, need, pieces, same_block, same_tile, strips, tile_of, tile_of_cell,
    tiles, tiles_met, tiles_per_side, unfinished_of, wrapped_place,
};
pub use plan_plain_steps::{
    PlainFrame, PlainLevel, PlainOffer, PlainState, PlainTile, finest_used, frame_number, has_work,
    holder_of, is_taken, is_viewer, job_of, pinner_of, same_region,
};
pub use rounds::{cells_to_fill, flight, fly_events, is_ripe, is_settled};
pub use runs::{PlainAsked, PlainRun, are_asked, events_of, run};
