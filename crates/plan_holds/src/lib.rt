//! What holds between any two events of a book.
//!
//! `specs/Kept.antt` says it of a state, in one record with a name for each fact: which tiles are held
//! and pinned, which pieces are finished, and that no place that a job may write is that of a cell which
//! is filled, finished or drawn. The functions are laws of it over the definitions of `plan_model` alone:
//! their contracts say what is true of every book, and their bodies are empty or hand laws on.
#![tactic(auto)]

mod after;
mod changes;
mod kept;
mod stuck;

pub use after::{histories_go_on, steps_go_on};
pub use changes::{drawn_cells_are_at_home, steps_begin_frames, steps_fill_cells};
pub use kept::{kept_at_the_start, kept_by_each_step, kept_by_histories};
pub use stuck::{
    claims_are_idle_where_settled, rested_pieces_are_offered, stuck_pieces_are_blocked,
};
