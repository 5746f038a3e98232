//! Verdicts on small meshes.
mod small;
