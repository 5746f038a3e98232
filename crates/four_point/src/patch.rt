//! The coarser heights round a block.

/// The coarser heights that the prediction of a block needs: 7 by 7 of them, in metres.
///
/// `h[b][a]` is the height at the coarser cell (`i0` + a, `j0` + b). The patch of block (bx, by), whose
/// cells are the columns 8 bx to 8 bx + 7 and the rows 8 by to 8 by + 7, has `i0` = 4 bx - 1 and
/// `j0` = 4 by - 1.
#[derive(Clone, Copy, Debug, PartialEq, Eq)]
pub struct Patch {
    /// The first coarser column.
    pub i0: i32,
    /// The first coarser row.
    pub j0: i32,
    /// The heights, row by row.
    pub h: [[i16; 7]; 7],
}
