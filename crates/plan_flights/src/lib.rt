//! Laws of flights: what a script of moves, frames and settles does to a plan.
//!
//! Each function's contract says what is true of every flight, its statement stands in `specs/`, and its
//! body calls the laws from which it follows. `docs/SCRIPTS.md` tells the definitions in prose.
#![tactic(auto)]

mod below;
mod plays;
mod rests;

pub use below::laws_below;
pub use plays::{flights_are_legal, flights_are_runs};
pub use rests::{flights_end_at_rest, lines_keep_rest, settles_end};
