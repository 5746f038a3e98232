//! Laws over the definitions alone: each function does nothing, or calls the laws that it follows from, and its
//! contract is the law.

ghost use Rattle.mesh_model.specs.Laws.{OneLevelVertices, OneLevelPlaces, OneLevelTriangles, OneLevelParts, OneLevelVertexCount, OneLevelTriangleCount, OneLevelNames, BoxHolds, PartsCover, PartsAreBounded, NestedNames, VerticesApart, OwnPlaces, NestedVertexCount, NestedTriangleCount, DrawnNames, DrawnApart};
ghost use Rattle.mesh_model.specs.Dropped.{DroppedOutside, DroppedUnseen, FlagsKeep};

use plan_model::{actives_are_nested, actives_have_even_corners};

/// The mesh of one active region that isn't empty: its cells row by row, its squares row by row.
pub fn one_level_mesh()
    ensures vertices { OneLevelVertices }
    ensures places { OneLevelPlaces }
    ensures triangles { OneLevelTriangles }
    ensures parts { OneLevelParts }
{}

/// How many vertices and triangles one active region has, and that its triangles name its vertices.
pub fn one_level_counts()
    ensures vertices { OneLevelVertexCount }
    ensures triangles { OneLevelTriangleCount }
    ensures names { OneLevelNames }
{}

/// A box round all vertices of a mesh is a box round those of any part.
pub fn box_holds()
    ensures { BoxHolds }
{}

/// The parts of any mesh cover its triangles in order, and their bounds hold the vertices of these.
pub fn parts_of_mesh()
    ensures cover { PartsCover }
    ensures bounds { PartsAreBounded }
{}

/// The triangles of a mesh of nested active regions name its vertices.
pub fn nested_names()
    ensures { NestedNames }
{}

/// No two vertices of a mesh of nested active regions stand at one position, so that each has a place of its own.
pub fn vertices_apart()
    ensures positions { VerticesApart }
    ensures places { OwnPlaces }
{}

/// How many vertices and triangles the mesh of nested active regions has.
pub fn nested_counts()
    ensures vertices { NestedVertexCount }
    ensures triangles { NestedTriangleCount }
{}

/// The active regions of a plan are nested, so that the triangles of their mesh name its vertices and
/// no two of these stand at one position.
pub fn drawn_mesh()
    ensures names { DrawnNames }
    ensures apart { DrawnApart }
{
    actives_are_nested();
    actives_have_even_corners();
    nested_names();
    vertices_apart();
}

/// All of a part that a view drops lies outside one half-space of the view, so that no point of its triangles is seen.
pub fn dropped_parts_are_unseen()
    ensures outside { DroppedOutside }
    ensures unseen { DroppedUnseen }
{}

/// Flags that say of each part whether a view keeps it pick the parts that the view keeps.
pub fn flags_keep_parts()
    ensures { FlagsKeep }
{}
