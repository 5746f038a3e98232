use super::*;
use clip_regions::Region;
use four_point::Patch;
use height_pyramid::Grid;
use std::test::Fail;
use terrain_store::pack;

// A patch of block (0, 0) where no coarser heights are wanted.
const NO_PATCH: Patch = Patch {
    i0: -1,
    j0: -1,
    h: [[0; 7]; 7],
};

#[test]
#[tactic(auto, unfolding(clip_regions::specs::Regions::area, clip_regions::specs::Regions::columns, clip_regions::specs::Regions::rows))]
fn a_piece_across_the_terrains_edge(rt: HostRuntime) -> Result<(), Fail> {
    let alloc = rt.alloc();
    let grid = Grid::new(3, 3, vec![in alloc; 1i16, 2, 3, 4, 5, 6, 7, 8, 9]?);
    let store = pack(alloc, &grid, 1)?;
    let cells = Region {
        x0: 1,
        y0: 1,
        x1: 3,
        y1: 2,
    };
    let mut out = [7i16; 6];
    stored_piece(&store, 0, 0, 0, &NO_PATCH, cells, &mut out);
    assert_eq!(rt; out, [5, 6, 0, 8, 9, 0]);
    Ok(())
}
