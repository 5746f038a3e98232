//! The lists of a frame's text: its vertices, its triangles and what it covers, or its first bad line.
//!
//! A text is that of an OBJ file with comment lines at its head, as `docs/MESH.md` has it: the frame's
//! number, the viewer, one to twelve levels, at most one line of kept parts, vertices, triangles.
#![tactic(auto)]

mod body;
mod cut;
mod head;
mod height;
mod leading;
mod lists;
mod number;
mod words;

pub use lists::{ListsFault, TextLists, text_lists};

#[cfg(test)]
mod tests;
