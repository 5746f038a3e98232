//! The stitches along a walk.

ghost use Rattle.std.specs.Prelude.{◌≡◌, IfOk};
ghost use Rattle.mesh_model.specs.Parts.{stitches_along};

use obj_frames::NoMemory;
use std::alloc::{AllocError, Global};

// Each two steps of a walk as a triangle.
fn two_steps(alloc: Global, walk: &[u32]) -> Result<Vec<[u32; 3]>, AllocError>
    ensures { IfOk result (λ stitches. stitches.items ≡ stitches_along walk.now) }
{
    let mut stitches = Vec::new(alloc);
    let mut rest = walk;
    while rest.len() > 2 {
        stitches.push([rest[0], rest[1], rest[2]])?;
        rest = &rest[2..];
    }
    Ok(stitches)
}

/// The stitches along a walk of places: each two steps, from p over m to q, give the triangle p, m, q.
pub fn stitches_along(alloc: Global, walk: &[u32]) -> Result<Vec<[u32; 3]>, NoMemory>
    ensures value { IfOk result (λ stitches. stitches.items ≡ stitches_along walk.now) }
{
    let stitches = two_steps(alloc, walk)?;
    Ok(stitches)
}
