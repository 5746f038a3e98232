//! Where a viewer stands.

// Where a viewer stands: a sample of the mosaic, and the altitude.
#[derive(Clone, Copy)]
pub(crate) struct Viewer {
    pub(crate) x: i32,
    pub(crate) y: i32,
    pub(crate) a: u32,
}
