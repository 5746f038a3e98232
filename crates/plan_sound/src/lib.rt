//! What is true of every state that a book of the plan reaches: its numbers are within their limits, and
//! its regions lie where windows put them.
//!
//! The words stand in `plan_model`. The functions of this crate are laws: their contracts say what is true,
//! and their bodies are empty, or call the laws that they stand on.
#![tactic(auto)]

mod events;
mod regions;

pub use events::{sizes_are_kept, sound_bounds_widen, starts_are_sound, steps_keep_soundness};
pub use regions::{
    actives_are_near, filled_regions_are_near, frames_are_sound, offers_are_there,
    strips_are_inside, strips_are_sound, windows_are_near, windows_have_cells,
};
