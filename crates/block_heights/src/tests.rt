ghost use Rattle.std.specs.Prelude.{◌<◌, length};
ghost use Rattle.four_point.specs.Steps.{IsStep};

use super::*;
use clip_regions::Region;
use four_point::Patch;
use rice_residuals::BlockFault;

const CELLS: Region = Region {
    x0: 0,
    y0: 0,
    x1: 2,
    y1: 2,
};

const PATCH: Patch = Patch {
    i0: -1,
    j0: -1,
    h: [[0; 7]; 7],
};

// What a word of a block of 3 x 3 cells over coarser heights of 0 is decoded to.
#[tactic(auto, unfolding(clip_regions::specs::Regions::area, clip_regions::specs::Regions::columns, clip_regions::specs::Regions::rows))]
fn words(bytes: &[u8; 8], step: u8) -> Result<[i16; 9], PieceFault>
    requires { IsStep step }
{
    let mut out = [7; 9];
    let block = Block {
        level: 0,
        bx: 0,
        by: 0,
        inside: CELLS,
        step,
        kind: Kind::Words(bytes),
    };
    piece_heights(&block, &PATCH, CELLS, &mut out)?;
    Ok(out)
}

// What a plain block of 3 x 3 cells is decoded to.
#[tactic(auto, unfolding(clip_regions::specs::Regions::area, clip_regions::specs::Regions::columns, clip_regions::specs::Regions::rows))]
fn plain(bytes: &[u8]) -> Result<[i16; 9], PieceFault>
    requires { length bytes.now < 100 }
{
    let mut out = [7; 9];
    let block = Block {
        level: 0,
        bx: 0,
        by: 0,
        inside: CELLS,
        step: 1,
        kind: Kind::Plain(bytes),
    };
    piece_heights(&block, &PATCH, CELLS, &mut out)?;
    Ok(out)
}

#[test]
fn words_by_steps(rt: HostRuntime) {
    let exact = [0x03, 0xff, 0xff, 0xff, 0xfc, 0xea, 0x60, 0x00];
    assert_eq!(rt; words(&exact, 1), Ok([0, 0, 0, 0, 30000, 0, 0, 0, 0]));
    let by_nine = [0x03, 0xff, 0xff, 0xff, 0xfc, 0x1c, 0x72, 0x00];
    assert_eq!(rt; words(&by_nine, 9), Ok([0, 0, 0, 0, 32767, 0, 0, 0, 0]));
    let out = [0x03, 0xff, 0xff, 0xff, 0xfc, 0x1c, 0x74, 0x00];
    assert_eq!(rt;
        words(&out, 9),
        Err(PieceFault::OutOfRange {
            i: 1,
            j: 1,
            value: 32778
        })
    );
    let long = [0x03, 0xff, 0xff, 0xff, 0xfc, 0x00, 0x05, 0x00];
    assert_eq!(rt;
        words(&long, 1),
        Err(PieceFault::BadBlock {
            fault: BlockFault::LongForm { bit: 6 }
        })
    );
}

#[test]
fn plain_heights(rt: HostRuntime) {
    let bytes = [
        0, 1, 0, 2, 0, 3, 0xff, 0xff, 0x80, 0, 0, 6, 0, 7, 0, 8, 0x7f, 0xff,
    ];
    assert_eq!(rt; plain(&bytes), Ok([1, 2, 3, -1, -32768, 6, 7, 8, 32767]));
    assert_eq!(rt;
        plain(&bytes[..17]),
        Err(PieceFault::BadBlock {
            fault: BlockFault::CutShort { bit: 136 }
        })
    );
}
