//! The verdict on a text.

ghost use Rattle.std.specs.Prelude.{◌≡◌, ℕ, ◌≤◌, ◌^◌, Result, length};
ghost use Rattle.mesh_lists.specs.Lists.{IsStop, Lists};
ghost use Rattle.mesh_check.specs.Verdict.{IsAnswer, closed_verdict, verdict, verdict_of, verdict_of_lists};

use crate::edges::{PLACES, sorted_edges};
use crate::faces::first_tilted;
use crate::runs::{Places, first_open};
use mesh_lists::{ListsFault, TextLists, text_lists};
use std::alloc::Global;

/// What a text is.
#[derive(Clone, Copy, PartialEq, Eq, Debug, Drop)]
pub enum Verdict {
    /// Each edge on the border is in one triangle, each other edge in two, once in each direction, and
    /// no triangle is tilted.
    Watertight {
        /// How many triangles there are.
        triangles: u32,
    },
    /// An edge isn't in as many triangles as it has to be, or in two of one direction.
    Crack {
        /// The lesser vertex of the first such edge, counted from 1; of those with the same one, the edge
        /// with the least other vertex.
        a: u32,
        /// The greater vertex, counted from 1.
        b: u32,
        /// How many triangles have the edge.
        count: u32,
    },
    /// The edges close, and the positions of a triangle's vertices lie on one straight line, with no
    /// vertex in the middle between the two others.
    Tilted {
        /// The first such triangle, counted from 1.
        face: u32,
    },
    /// The text isn't that of a frame.
    Bad {
        /// The first bad line, counted from 1.
        line: u32,
    },
    /// There is no memory to judge the text.
    NoMemory,
}

// The verdict on lists whose edges close.
#[tactic(auto, unfolding(crate::specs::Verdict::closed_verdict))]
fn closed_verdict(lists: &TextLists) -> Verdict
    ensures value { result ≡ closed_verdict lists.now }
{
    let triangles = lists.triangles();
    let face = first_tilted(lists.vertices(), triangles);
    if face < triangles.len() {
        Verdict::Tilted {
            face: face as u32 + 1,
        }
    } else {
        Verdict::Watertight {
            triangles: triangles.len() as u32,
        }
    }
}

/// The verdict on the lists of a text.
pub fn lists_verdict(alloc: Global, lists: &TextLists) -> Verdict
    ensures verdict { IsAnswer result (verdict_of_lists lists.now) }
{
    let Ok(keys) = sorted_edges(alloc, lists.triangles()) else {
        return Verdict::NoMemory;
    };
    let places = Places {
        border: lists.border(),
        vertices: lists.vertices(),
    };
    match first_open(places, &keys) {
        Some(run) => Verdict::Crack {
            a: (run.pair / PLACES) as u32 + 1,
            b: (run.pair % PLACES) as u32 + 1,
            count: run.there + run.back,
        },
        None => closed_verdict(lists),
    }
}

// The verdict on a text that has no lists.
fn fault_verdict(fault: ListsFault) -> Verdict
    ensures verdict { (lists : Result Lists ℕ) → IsStop lists fault → IsAnswer result (verdict_of lists) }
{
    match fault {
        ListsFault::BadLine { line } => Verdict::Bad { line },
        ListsFault::NoMemory => Verdict::NoMemory,
    }
}

/// The verdict on a text of at most 2^28 bytes.
pub fn check_text(alloc: Global, bytes: &[u8]) -> Verdict
    requires small { length bytes.now ≤ 2 ^ 28 }
    ensures verdict { IsAnswer result (verdict bytes.now) }
{
    match text_lists(alloc, bytes) {
        Ok(lists) => lists_verdict(alloc, &lists),
        Err(fault) => fault_verdict(fault),
    }
}
