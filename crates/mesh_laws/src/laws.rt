//! Laws over the definitions alone: each function's contract is the law.

ghost use Rattle.mesh_laws.specs.Laws.{RingParts, RingStitches, RingRows, WholeRow, CutRow, HoleCells, CellsAreContained, HolesAreSmall, FirstRing, NextLinked, NextRing, RingSize, ActivesReach, CellsReach, LowerEnds, UpperEnds, UnstitchedNames, FewVertices, FewTriangles, FewRingTriangles, HeightsAreSmall, PartSquares, SquaresOnce, FilledParts};
ghost use Rattle.mesh_laws.specs.Seams.{BordersAgree, FlatStitches, CoveringSquares};

use mesh_model::{nested_counts, nested_names, vertices_apart};

/// The triangles of nested active regions, by places in closed form.
pub fn ring_parts_are_square_parts()
    ensures { RingParts }
{
    vertices_apart();
}

/// The stitches of nested active regions, by places in closed form.
pub fn ring_stitches_are_stitch_parts()
    ensures { RingStitches }
{
    vertices_apart();
}

/// The cells that a ring lists, row by row: a row is whole, or what lies west and east of the hole.
pub fn rings_have_rows()
    ensures rows { RingRows }
    ensures whole { WholeRow }
    ensures cut { CutRow }
{}

/// Cells of regions and of holes, which are cells of the finer region, and how large a hole is.
pub fn holes_are_in_regions()
    ensures finer { HoleCells }
    ensures contained { CellsAreContained }
    ensures small { HolesAreSmall }
{}

/// The rings of a frame's active regions come one after another, the finest first.
pub fn rings_are_linked()
    ensures first { FirstRing }
    ensures linked { NextLinked }
    ensures next { NextRing }
    ensures size { RingSize }
{}

/// The cells of active regions lie within 2^23 samples of the mosaic's corner.
pub fn actives_are_in_reach()
    ensures regions { ActivesReach }
    ensures cells { CellsReach }
{}

/// The two coarser cells between which a cell of an active region lies are cells of the coarser one.
pub fn ends_are_active()
    ensures lower { LowerEnds }
    ensures upper { UpperEnds }
{}

/// The mesh of a frame without its stitches names vertices, and no mesh of a frame has 2^31 of anything.
pub fn meshes_are_small()
    ensures names { UnstitchedNames }
    ensures vertices { FewVertices }
    ensures triangles { FewTriangles }
    ensures ring_triangles { FewRingTriangles }
{
    nested_names();
    nested_counts();
}

/// No vertex of a frame lies farther from height 0 than 2^20 thirty-seconds of a metre.
pub fn heights_are_small()
    ensures { HeightsAreSmall }
{}

/// The parts of an active region have its squares outside the hole, each once.
pub fn parts_have_ring_squares()
    ensures squares { PartSquares }
    ensures once { SquaresOnce }
{}

/// Each part of the mesh of a frame's active regions has a triangle.
pub fn parts_have_triangles()
    ensures { FilledParts }
{}

/// Where a level's vertices stand on the border of the finer active region, both levels give one height.
pub fn borders_agree()
    ensures { BordersAgree }
{}

/// The middle vertex of each stitch stands in the middle between the two others, in position and in height.
pub fn stitches_are_flat()
    ensures { FlatStitches }
{
    vertices_apart();
}

/// Each unit square of the coarsest active region lies in one ring square of one level.
pub fn squares_cover()
    ensures { CoveringSquares }
{}
