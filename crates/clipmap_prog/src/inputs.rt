//! Tiles that were read, and which inputs are a store.
ghost use Rattle.std.specs.Prelude.{◌≡◌, map as list_map, option_map, string_bytes};
ghost use Rattle.clipmap_prog.specs.Stores.{store_name};

use clipmap_words::is_store_name;
use height_pyramid::Grid;

// The inputs of a command, read: tiles, put together.
#[derive(Drop)]
pub(crate) struct Inputs {
    // Their terrain.
    pub(crate) grid: Grid,
    // How many tiles they are.
    pub(crate) number: usize,
    // How many samples a side of each has.
    pub(crate) side: u32,
    // How many samples were voids in their files.
    pub(crate) voids: u64,
}

// The name of the store, where the one input is a store.
pub(crate) fn store_name(inputs: &[String]) -> Option<&str>
    ensures value { option_map (λ name. name.now) result ≡ store_name (list_map string_bytes inputs.now) }
{
    match inputs {
        [name] if is_store_name(name.as_str()) => Some(name.as_str()),
        _ => None,
    }
}
