//! Worked examples. The numbers are those of an independent program.

use crate::demo_of;
use clip_script::FlyLine;
use std::process::Abort;
use std::test::Fail;

#[test]
fn the_terrain_of_seed_0(rt: HostRuntime) -> Result<(), Fail> {
    let made = demo_of(rt.alloc(), 0)?;
    let terrain = made.terrain;
    assert_eq!(rt; terrain.width(), 1201);
    assert_eq!(rt; terrain.height(), 1201);
    assert_eq!(rt; terrain.least(), -502);
    assert_eq!(rt; terrain.most(), 1499);
    let places = [
        (0, 0, 1371),
        (1, 0, 1360),
        (1200, 0, 967),
        (0, 1, 1347),
        (0, 600, 230),
        (600, 600, -13),
        (1200, 1200, -449),
    ];
    for (x, y, height) in places {
        assert_eq!(rt; terrain.level_height(0, x, y), height);
    }
    Ok(())
}

#[test]
fn the_flight_of_seed_0(rt: HostRuntime) -> Result<(), Fail> {
    let made = demo_of(rt.alloc(), 0)?;
    let script = made.script;
    assert_eq!(rt; (script.k, script.levels), (6, 6));
    let lines = script.lines;
    assert_eq!(rt; lines.len(), 195);
    let first = [
        FlyLine::Move {
            x: 600,
            y: 600,
            a: 0,
        },
        FlyLine::Settle,
        FlyLine::Frame,
        FlyLine::Move {
            x: 629,
            y: 568,
            a: 0,
        },
        FlyLine::Frame,
        FlyLine::Settle,
        FlyLine::Move {
            x: 601,
            y: 557,
            a: 0,
        },
    ];
    for place in 0..7usize {
        assert_eq!(rt; lines.get(place), first.get(place));
    }
    let last = FlyLine::Move {
        x: 864,
        y: 509,
        a: 0,
    };
    assert_eq!(rt; lines.get(192), Some(&last));
    Ok(())
}
