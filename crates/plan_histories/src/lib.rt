//! Laws of legal histories, over the definitions of `plan_model` alone.
//!
//! Each function's contract says what is true of every history, its statement stands in `specs/`, and its
//! body is empty. `docs/PLAN.md` tells the definitions in prose.
#![tactic(auto)]

mod legality;
mod others;
mod plays;
mod room;

pub use legality::{
    legal_fronts, legal_together, legal_with_one_more, states_after_one_more, states_after_two,
};
pub use others::{
    entries_of_others_leave_parts, moves_leave_parts, no_entry_in_two, no_entry_no_part,
    others_keep_parts, passes_are_kept, publications_leave_parts,
};
pub use plays::{
    legal_histories_are_runs, runs_are_legal, runs_have_their_events, runs_leave_states,
};
pub use room::{
    moves_of_two, moves_with_one_more, no_entry_no_place, places_are_few, places_with_one_more,
};
