//! The file of a store, read.
ghost use Rattle.std.specs.Prelude.{◌*◌, ◌^◌, ◌≤◌};

use height_pyramid::Grid;
use store_reader::Header;

// The file of a store, read.
#[derive(Drop)]
pub(crate) struct StoreFile {
    // What its header says.
    pub(crate) header: Header,
    // Its terrain.
    pub(crate) grid: Grid,
    // How many bytes it has.
    pub(crate) length: usize,
    ghost some_columns: { 1 ≤ header.width },
    ghost some_rows: { 1 ≤ header.height },
    ghost few_samples: { header.width * header.height ≤ 2 ^ 26 },
    ghost few_levels: { header.levels ≤ 12 },
}
