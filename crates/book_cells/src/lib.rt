//! What every book keeps of its heights, from event to event.
//!
//! `specs/Cells.antt` says it of a state and of the heights of its tiles, at home and as they were handed
//! out: each cell that is filled, finished or drawn has the terrain's level height at its wrapped place.
//! The functions are laws over the definitions of `plan_model` alone: their contracts say what each kind
//! of event keeps, and their bodies are empty or hand laws on.
#![tactic(auto)]

mod kept;
mod there;

pub use kept::{cells_at_the_start, cells_come_home, cells_go_out, cells_stay};
pub use there::{claims_give_jobs, drawn_cells_have_heights, needed_cells_have_heights};
