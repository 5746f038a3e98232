//! The plain types of a mesh.

/// A vertex of a mesh.
#[derive(Clone, Copy, PartialEq, Eq, Debug)]
pub struct Vertex {
    /// The mosaic's column, in samples; it grows east.
    pub x: i32,
    /// The mosaic's row, in samples; it grows south.
    pub z: i32,
    /// The height in thirty-seconds of a metre.
    pub height: i32,
}

/// A box round the vertices of a part's triangles, all six ends included.
#[derive(Clone, Copy, PartialEq, Eq, Debug)]
pub struct Bounds {
    /// The westernmost column, in samples.
    pub x0: i32,
    /// The easternmost column, in samples.
    pub x1: i32,
    /// The northernmost row, in samples.
    pub z0: i32,
    /// The southernmost row, in samples.
    pub z1: i32,
    /// The least height, in thirty-seconds of a metre.
    pub low: i32,
    /// The greatest height, in thirty-seconds of a metre.
    pub high: i32,
}

/// Which part of a level's ring, or of the stitches at its border, a part is.
#[derive(Clone, Copy, PartialEq, Eq, Debug)]
pub enum PartKind {
    /// All squares of an active region without a hole.
    Whole,
    /// The squares north of the hole, over the region's whole width.
    North,
    /// The squares west of the hole, over the hole's rows.
    West,
    /// The squares east of the hole, over the hole's rows.
    East,
    /// The squares south of the hole, over the region's whole width.
    South,
    /// The stitches along the region's northern border.
    StitchNorth,
    /// The stitches along the region's eastern border.
    StitchEast,
    /// The stitches along the region's southern border.
    StitchSouth,
    /// The stitches along the region's western border.
    StitchWest,
}

/// A part of a mesh: triangles that stand together and can be left out together.
#[derive(Clone, Copy, PartialEq, Eq, Debug)]
pub struct Part {
    /// The level, from 0 at the finest.
    pub level: u8,
    /// Which part of the level it is.
    pub kind: PartKind,
    /// The place of its first triangle among the mesh's triangles.
    pub first: u32,
    /// How many triangles it has.
    pub count: u32,
    /// A box round the vertices of its triangles.
    pub bounds: Bounds,
}

/// A half-space: the points at which a·x + b·h + c·z + d isn't negative, for a column x and a row z in
/// samples and a height h in metres. A view is a list of at most six.
#[derive(Clone, Copy, PartialEq, Eq, Debug)]
pub struct HalfSpace {
    /// The factor of the column, no farther from zero than 2^20.
    pub a: i32,
    /// The factor of the height, no farther from zero than 2^20.
    pub b: i32,
    /// The factor of the row, no farther from zero than 2^20.
    pub c: i32,
    /// What is added, no farther from zero than 2^40.
    pub d: i64,
}
