//! The plan of a geometry clipmap: which cells each level holds, in which order they are filled, and
//! what each event of a book answers.
//!
//! The definitions stand in `specs/`, for any number of levels, and the types that they speak of here.
//! The functions of this crate are laws of the definitions: their contracts say what is true of every
//! plan, and their bodies are empty. `docs/PLAN.md` tells the same in prose.
#![tactic(auto)]

mod cover;
mod drawn;
mod events;
mod refusals;
mod tiles;
mod windows;

pub use cover::{pieces_cover_the_region, strips_cover_the_window, strips_grow_rectangles};
pub use drawn::{actives_are_filled, actives_are_nested, actives_have_even_corners};
pub use events::{Answer, Entry, Event, FlyLine, JobNote, Work};
pub use refusals::refusals_change_nothing;
pub use tiles::{Piece, TileId};
pub use windows::{
    blocks_have_one_tile, windows_are_nested, windows_fit_the_torus, windows_have_even_corners,
};
