use super::*;
use height_pyramid::Grid;
use rice_residuals::BlockFault;
use std::test::Fail;
use store_model::{Field, StoreFault};
use store_reader::Header;

#[test]
fn lines_of_a_terrain(rt: HostRuntime) -> Result<(), Fail> {
    let alloc = rt.alloc();
    let grid = Grid::new(3, 2, vec![in alloc; 5i16, -3, 4, 9, 8, 6]?);
    assert_eq!(rt; terrain_line(alloc, &grid)?.as_str(), "terrain 3 2\n");
    assert_eq!(rt; heights_line(alloc, &grid)?.as_str(), "heights -3 9\n");
    assert_eq!(rt;
        tiles_line(alloc, 4, 172, 17)?.as_str(),
        "tiles 4 side 172 voids 17\n"
    );
    assert_eq!(rt;
        packed_line(alloc, &grid, 2, 30)?.as_str(),
        "packed 30 bytes 2 blocks\n"
    );
    Ok(())
}

// 17 x 9 samples: 3 x 2 blocks at level 0, 2 x 1 at level 1, and 1 x 1 at level 2.
#[test]
fn lines_of_a_store(rt: HostRuntime) -> Result<(), Fail> {
    let alloc = rt.alloc();
    let header = Header {
        version: 1,
        width: 17,
        height: 9,
        levels: 3,
        step: 1,
    };
    assert_eq!(rt;
        store_line(alloc, header, 99)?.as_str(),
        "store version 1 levels 3 blocks 9 bytes 99\n"
    );
    let by_three = Header {
        version: 2,
        step: 3,
        ..header
    };
    assert_eq!(rt;
        store_line(alloc, by_three, 100)?.as_str(),
        "store version 2 step 3 levels 3 blocks 9 bytes 100\n"
    );
    Ok(())
}

#[test]
fn lines_of_faults(rt: HostRuntime) -> Result<(), Fail> {
    let alloc = rt.alloc();
    let bad = |fault| StoreFault::BadBlock {
        level: 1,
        bx: 2,
        by: 3,
        fault,
    };
    let table = [
        (StoreFault::BadMagic, "BadMagic"),
        (
            StoreFault::BadHeader {
                field: Field::Width,
            },
            "BadHeader width",
        ),
        (
            StoreFault::BadHeader {
                field: Field::Height,
            },
            "BadHeader height",
        ),
        (
            StoreFault::BadHeader {
                field: Field::Samples,
            },
            "BadHeader samples",
        ),
        (
            StoreFault::BadHeader {
                field: Field::Levels,
            },
            "BadHeader levels",
        ),
        (
            StoreFault::BadHeader { field: Field::Step },
            "BadHeader step",
        ),
        (StoreFault::CutShort { offset: 13 }, "CutShort 13"),
        (
            bad(BlockFault::CutShort { bit: 8 }),
            "BadBlock 1 2 3 CutShort 8",
        ),
        (
            bad(BlockFault::LongForm { bit: 6 }),
            "BadBlock 1 2 3 LongForm 6",
        ),
        (
            bad(BlockFault::TooWide { bit: 4 }),
            "BadBlock 1 2 3 TooWide 4",
        ),
        (
            bad(BlockFault::BadPadding { bit: 63 }),
            "BadBlock 1 2 3 BadPadding 63",
        ),
        (
            bad(BlockFault::Excess { bytes: 1 }),
            "BadBlock 1 2 3 Excess 1",
        ),
        (
            StoreFault::OutOfRange {
                level: 0,
                i: 1,
                j: 2,
                value: -32778,
            },
            "OutOfRange 0 1 2 -32778",
        ),
        (StoreFault::Excess { offset: 33 }, "Excess 33"),
    ];
    for (fault, words) in table {
        let want = format!(in alloc; "fault: store {words}\n")?;
        assert_eq!(rt; store_fault_line(alloc, fault)?.as_str(), want.as_str());
    }
    Ok(())
}
