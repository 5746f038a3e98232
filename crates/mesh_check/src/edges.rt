//! The edges of triangles as sorted numbers.

ghost use Rattle.std.specs.Prelude.{◌≡◌, ◌+◌, ◌*◌, ◌<◌, ◌≤◌, ◌^◌, ◌++◌, All, IfOk, OnOk, length};
ghost use Rattle.std.specs.List.Sorted.{IsNonDecreasing, IsPermutation};
ghost use Rattle.mesh_check.specs.Keys.{AreSmall, edge_key, edge_keys, pair_key, triangle_keys};

use std::alloc::{AllocError, Global};

// How many places there are room for in the number of a pair.
pub(crate) const PLACES: u64 = 1 << 32;

// The number of a pair of places.
fn pair_key(a: u32, b: u32) -> u64
    requires { a < 2 ^ 31 }
    ensures value { result ≡ pair_key a b }
    ensures small { result < 2 ^ 63 }
{
    u64::from(a) * PLACES + u64::from(b)
}

// The number of an edge from one place to another.
#[tactic(auto, unfolding(crate::specs::Keys::edge_key))]
fn edge_key(a: u32, b: u32) -> u64
    requires a { a < 2 ^ 31 }
    requires b { b < 2 ^ 31 }
    ensures value { result ≡ edge_key a b }
{
    if a < b {
        2 * pair_key(a, b)
    } else {
        2 * pair_key(b, a) + 1
    }
}

// Appends the three edges of a triangle.
#[tactic(auto, unfolding(crate::specs::Keys::triangle_keys))]
fn add_edges(keys: &mut Vec<u64>, triangle: &[u32; 3]) -> Result<(), AllocError>
    requires { AreSmall triangle.now }
    ensures ok { OnOk result (keys.new.items ≡ keys.old.items ++ triangle_keys triangle.now) }
{
    let [a, b, c] = *triangle;
    keys.push(edge_key(a, b))?;
    keys.push(edge_key(b, c))?;
    keys.push(edge_key(c, a))?;
    Ok(())
}

// The edges of some triangles.
fn edges_of(alloc: Global, triangles: &[[u32; 3]]) -> Result<Vec<u64>, AllocError>
    requires few { length triangles.now ≤ 2 ^ 28 }
    requires places { All AreSmall triangles.now }
    ensures keys { IfOk result (λ keys. keys.items ≡ edge_keys triangles.now) }
{
    let mut keys = Vec::with_capacity(alloc, 3 * triangles.len())?;
    for triangle in triangles {
        add_edges(&mut keys, triangle)?;
    }
    Ok(keys)
}

// The edges of some triangles in ascending order, so that an edge stands beside the same edge the other way.
pub(crate) fn sorted_edges(alloc: Global, triangles: &[[u32; 3]]) -> Result<Vec<u64>, AllocError>
    requires few { length triangles.now ≤ 2 ^ 28 }
    requires places { All AreSmall triangles.now }
    ensures keys { IfOk result (λ keys. IsPermutation (edge_keys triangles.now) keys.items) }
    ensures sorted { IfOk result (λ keys. IsNonDecreasing keys.items) }
    ensures few { IfOk result (λ keys. length keys.items < 2 ^ 32) }
{
    let mut keys = edges_of(alloc, triangles)?;
    keys.sort_unstable();
    Ok(keys)
}
