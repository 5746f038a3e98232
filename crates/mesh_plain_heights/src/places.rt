//! Where vertices stand, and their places in a list.

ghost use Rattle.std.specs.Prelude.{◌≡◌, ◌+◌, ◌^◌, ◌<◌, ◌≤◌, pos, ◌+ℤ◌, ◌*ℤ◌, ◌≤ℤ◌, length, neg_ℤ, IfOk};
ghost use Rattle.std.specs.Prelude.{◌&&◌};
ghost use Rattle.std.specs.Ordering.{int_eq};
ghost use Rattle.mesh_plain_heights.specs.Placed.{IsPlacedAt};
ghost use Rattle.mesh_model.specs.Vertices.{place_of};
ghost use Rattle.mesh_model.specs.Parts.{corner_place};

use mesh_model::Vertex;

/// A position in the terrain, in samples.
#[derive(Clone, Copy, PartialEq, Eq, Debug)]
pub struct Position {
    /// The column.
    pub x: i32,
    /// The row.
    pub z: i32,
}

/// A cell of a level.
#[derive(Clone, Copy, PartialEq, Eq, Debug)]
pub struct Cell {
    /// The level, from 0 at the finest.
    pub level: u8,
    /// The column.
    pub i: i32,
    /// The row.
    pub j: i32,
}

/// How many samples the cells of a level lie apart, for levels 0 to 11.
pub fn spacing(level: u8) -> i32
    requires { level < 12 }
    ensures value { result ≡ pos (2 ^ level) }
{
    1 << level
}

/// The position of a cell, within 2^24 samples.
pub fn position_of(cell: &Cell) -> Position
    requires level { cell.now.level < 12 }
    requires i { IsPlacedAt cell.now.level cell.now.i }
    requires j { IsPlacedAt cell.now.level cell.now.j }
    ensures x { result.x ≡ cell.now.i *ℤ pos (2 ^ cell.now.level) }
    ensures z { result.z ≡ cell.now.j *ℤ pos (2 ^ cell.now.level) }
{
    let apart = spacing(cell.level);
    Position {
        x: cell.i * apart,
        z: cell.j * apart,
    }
}

// Whether a vertex stands at a position.
fn is_at(vertex: &Vertex, at: &Position) -> bool
    ensures { result ≡ (int_eq vertex.now.x at.now.x && int_eq vertex.now.z at.now.z) }
{
    vertex.x == at.x && vertex.z == at.z
}

/// The place of the first vertex at a position, or the number of vertices where there is none.
pub fn place_of(vertices: &[Vertex], at: &Position) -> u32
    requires { length vertices.now < 2 ^ 31 }
    ensures value { result ≡ place_of vertices.now at.now.x at.now.z }
{
    let mut place = 0;
    for vertex in vertices {
        if is_at(vertex, at) {
            return place;
        }
        place += 1;
    }
    place
}

/// The place of the vertex at the position of a cell.
pub fn corner_place(vertices: &[Vertex], cell: &Cell) -> u32
    requires few { length vertices.now < 2 ^ 31 }
    requires level { cell.now.level < 12 }
    requires i { IsPlacedAt cell.now.level cell.now.i }
    requires j { IsPlacedAt cell.now.level cell.now.j }
    ensures value { result ≡ corner_place vertices.now cell.now.level cell.now.i cell.now.j }
{
    place_of(vertices, &position_of(cell))
}
