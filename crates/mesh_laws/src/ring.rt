//! The ring of a level.

use clip_regions::Region;

/// The ring of a level: the cells of its active region outside its hole. Their vertices stand one after
/// another in the list of a mesh, row by row.
#[derive(Clone, Copy, PartialEq, Eq, Debug)]
pub struct Ring {
    /// The active region.
    pub active: Region,
    /// What the next finer active region leaves out of it, border included.
    pub hole: Region,
    /// The place of the ring's first vertex, counted from 0.
    pub first: u32,
}
