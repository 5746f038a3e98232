//! Triangles that stand upright and aren't flat stitches.

ghost use Rattle.std.specs.Prelude.{◌≡◌, ◌<◌, ◌≤◌, ◌^◌, All, pos, neg_ℤ, ◌&&◌, ◌+ℤ◌, ◌-ℤ◌, ◌*ℤ◌, ◌≤ℤ◌, length};
ghost use Rattle.std.specs.List.{position_or_len};
ghost use Rattle.std.specs.Ordering.{int_eq};
ghost use Rattle.mesh_model.specs.Vertices.{vertex_of_place};
ghost use Rattle.mesh_model.specs.Watertight.{is_middle};
ghost use Rattle.mesh_lists.specs.Lists.{IsFace, IsNear};
ghost use Rattle.mesh_check.specs.Verdict.{is_tilted, is_tilted_face, on_one_line};

use mesh_model::Vertex;

// Whether two numbers are equal.
fn are_equal(a: i64, b: i64) -> bool
    ensures value { result ≡ int_eq a b }
{
    a == b
}

// Twice a number.
fn twice(m: i32) -> i64
    ensures value { result ≡ pos 2 *ℤ m }
{
    2 * i64::from(m)
}

// The sum of two numbers.
fn sum_of(p: i32, q: i32) -> i64
    ensures value { result ≡ p +ℤ q }
{
    i64::from(p) + i64::from(q)
}

// Whether m is the mean of p and q.
fn is_mean(p: i32, m: i32, q: i32) -> bool
    ensures value { result ≡ int_eq (pos 2 *ℤ m) (p +ℤ q) }
{
    are_equal(twice(m), sum_of(p, q))
}

// Whether m's position is the mean of those of p and q.
fn is_between(p: &Vertex, m: &Vertex, q: &Vertex) -> bool
    ensures value { result
        ≡ (int_eq (pos 2 *ℤ m.now.x) (p.now.x +ℤ q.now.x) && int_eq (pos 2 *ℤ m.now.z) (p.now.z +ℤ q.now.z)) }
{
    is_mean(p.x, m.x, q.x) && is_mean(p.z, m.z, q.z)
}

// Whether m stands in the middle between p and q.
#[tactic(auto, unfolding(mesh_model::specs::Watertight::is_middle))]
fn is_middle(p: &Vertex, m: &Vertex, q: &Vertex) -> bool
    ensures value { result ≡ is_middle p.now m.now q.now }
{
    is_between(p, m, q) && is_mean(p.height, m.height, q.height)
}

// How far b lies east of a.
fn east(a: &Vertex, b: &Vertex) -> i32
    requires a { IsNear a.now }
    requires b { IsNear b.now }
    ensures value { result ≡ b.now.x -ℤ a.now.x }
{
    b.x - a.x
}

// How far b lies south of a.
fn south(a: &Vertex, b: &Vertex) -> i32
    requires a { IsNear a.now }
    requires b { IsNear b.now }
    ensures value { result ≡ b.now.z -ℤ a.now.z }
{
    b.z - a.z
}

// The product of two numbers.
fn product(a: i32, b: i32) -> i64
    ensures value { result ≡ a *ℤ b }
{
    i64::from(a) * i64::from(b)
}

// How far b lies east of a, times how far c lies south of it.
fn east_south(a: &Vertex, b: &Vertex, c: &Vertex) -> i64
    requires a { IsNear a.now }
    requires b { IsNear b.now }
    requires c { IsNear c.now }
    ensures value { result ≡ (b.now.x -ℤ a.now.x) *ℤ (c.now.z -ℤ a.now.z) }
{
    product(east(a, b), south(a, c))
}

// How far b lies south of a, times how far c lies east of it.
fn south_east(a: &Vertex, b: &Vertex, c: &Vertex) -> i64
    requires a { IsNear a.now }
    requires b { IsNear b.now }
    requires c { IsNear c.now }
    ensures value { result ≡ (b.now.z -ℤ a.now.z) *ℤ (c.now.x -ℤ a.now.x) }
{
    product(south(a, b), east(a, c))
}

// Whether three vertices stand on one straight line.
#[tactic(auto, unfolding(crate::specs::Verdict::on_one_line))]
fn on_one_line(a: &Vertex, b: &Vertex, c: &Vertex) -> bool
    requires a { IsNear a.now }
    requires b { IsNear b.now }
    requires c { IsNear c.now }
    ensures value { result ≡ on_one_line a.now b.now c.now }
{
    are_equal(east_south(a, b, c), south_east(a, b, c))
}

// Whether they do, and none of them stands in the middle between the two others.
#[tactic(auto, unfolding(crate::specs::Verdict::is_tilted))]
fn is_tilted(a: &Vertex, b: &Vertex, c: &Vertex) -> bool
    requires a { IsNear a.now }
    requires b { IsNear b.now }
    requires c { IsNear c.now }
    ensures value { result ≡ is_tilted a.now b.now c.now }
{
    on_one_line(a, b, c) && !((is_middle(a, b, c) || is_middle(b, c, a)) || is_middle(c, a, b))
}

// The same of a triangle by the places of its vertices.
#[tactic(auto, unfolding(crate::specs::Verdict::is_tilted_face))]
fn is_tilted_face(vertices: &[Vertex], triangle: &[u32; 3]) -> bool
    requires near { All IsNear vertices.now }
    requires face { IsFace (length vertices.now) triangle.now }
    ensures value { result ≡ is_tilted_face vertices.now triangle.now }
{
    let [a, b, c] = *triangle;
    is_tilted(
        &vertices[a as usize],
        &vertices[b as usize],
        &vertices[c as usize],
    )
}

// The place of the first tilted triangle, or the number of triangles.
pub(crate) fn first_tilted(vertices: &[Vertex], triangles: &[[u32; 3]]) -> usize
    requires near { All IsNear vertices.now }
    requires faces { All (IsFace (length vertices.now)) triangles.now }
    ensures value { result ≡ position_or_len (is_tilted_face vertices.now) triangles.now }
{
    for (face, triangle) in triangles.iter().enumerate() {
        if is_tilted_face(vertices, triangle) {
            return face;
        }
    }
    triangles.len()
}
