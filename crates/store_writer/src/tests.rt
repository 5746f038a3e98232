//! Worked files, byte for byte.

use super::*;
use height_pyramid::Grid;
use std::alloc::Global;
use std::test::Fail;

// Bytes in hexadecimal.
fn hex(alloc: Global, bytes: &[u8]) -> Result<String, Fail> {
    let mut text = String::new(alloc);
    for byte in bytes {
        write!(text, "{byte:02x}")?;
    }
    Ok(text)
}

// A grid of 3 x 3 heights.
fn nine(alloc: Global, heights: [i16; 9]) -> Result<Grid, Fail> {
    let [a, b, c, d, e, f, g, h, i] = heights;
    Ok(Grid::new(3, 3, vec![in alloc; a, b, c, d, e, f, g, h, i]?))
}

// All heights 0 but the middle one.
fn peak(alloc: Global, height: i16) -> Result<Grid, Fail> {
    nine(alloc, [0, 0, 0, 0, height, 0, 0, 0, 0])
}

// 11 columns and 10 rows of heights that jump: column x and row y have (7919 x + 104729 y) mod 2001, less 1000.
fn rough(alloc: Global) -> Result<Grid, Fail> {
    let mut heights = Vec::new(alloc);
    for k in 0..110u32 {
        let height = (k % 11 * 7919 + k / 11 * 104729) % 2001;
        heights.push(height as i16 - 1000)?;
    }
    if heights.len() != 110 {
        return Err(Fail::new("not 110 heights"));
    }
    Ok(Grid::new(11, 10, heights))
}

// The exact store of a grid, in hexadecimal.
fn exact(alloc: Global, grid: &Grid, levels: u8) -> Result<String, Fail> {
    if levels < 1 || levels > 12 {
        return Err(Fail::new("no number of levels"));
    }
    hex(alloc, canonical_bytes(alloc, grid, levels)?.as_slice())
}

// The store of a grid by a step, in hexadecimal.
fn by_step(alloc: Global, grid: &Grid, levels: u8, step: u8) -> Result<String, Fail> {
    if levels < 1 || levels > 12 || step % 2 == 0 {
        return Err(Fail::new("no number of levels or no step"));
    }
    hex(
        alloc,
        canonical_bytes_by(alloc, grid, levels, step)?.as_slice(),
    )
}

#[test]
fn exact_stores(rt: HostRuntime) -> Result<(), Fail> {
    let alloc = rt.alloc();
    let text = exact(alloc, &peak(alloc, 30000)?, 2)?;
    assert_eq!(rt;
        text.as_str(),
        "4743543100000003000000030200080000000000000000000803fffffffcea6000"
    );
    let (a, b) = (32767, -32767);
    let text = exact(alloc, &nine(alloc, [a, b, a, b, a, b, a, b, a])?, 2)?;
    assert_eq!(rt;
        text.as_str(),
        "4743543100000003000000030200087fff7fff7fff7fff000dff1ffbf1ffb43fff1ffbf1ffb0"
    );
    let text = exact(
        alloc,
        &nine(alloc, [1, 2, 3, -1, -32768, 6, 7, 8, 32767])?,
        1,
    )?;
    assert_eq!(rt;
        text.as_str(),
        "474354310000000300000003010012000100020003ffff80000006000700087fff"
    );
    let text = exact(alloc, &Grid::new(1, 1, vec![in alloc; -5i16]?), 12)?;
    assert_eq!(rt;
        text.as_str(),
        "4743543100000001000000010c0002fffb00010000010000010000010000010000010000010000010000010000010000\
             0100"
    );
    let text = exact(alloc, &rough(alloc)?, 3)?;
    assert_eq!(rt;
        text.as_str(),
        "474354310000000b0000000a030012fc1802950141fedbfd87fc33019e004afef600209f090f7063ca6c88018170c229\
             80a527cacf177b35e357a2de4a6500ba2643300049ac1c0f90000001640ce227217873c34e17f0c6104000000018cbba\
             8c6663ab1998ccc666560080000003eb19915c000458000000004660c87c80000007a0c712f919c41e1df0db87300019\
             a0056b1816c34054c66432000b7a0011438cb00b859bfec2c0001391240000000f58fd69e47712b7936434eb39800007\
             913324319af300"
    );
    Ok(())
}

#[test]
fn stores_by_steps(rt: HostRuntime) -> Result<(), Fail> {
    let alloc = rt.alloc();
    for (height, step, want) in [
        (
            30000,
            3,
            "474354320000000300000003020300080000000000000000000803fffffffc4e2000",
        ),
        (
            1000,
            7,
            "47435432000000030000000302070008000000000000000000065000ff780000",
        ),
        (
            32767,
            9,
            "474354320000000300000003020900080000000000000000000803fffffffc1c7200",
        ),
        (
            30000,
            1,
            "474354320000000300000003020100080000000000000000000803fffffffcea6000",
        ),
    ] {
        let text = by_step(alloc, &peak(alloc, height)?, 2, step)?;
        assert_eq!(rt; text.as_str(), want);
    }
    let text = by_step(alloc, &rough(alloc)?, 3, 7)?;
    assert_eq!(rt;
        text.as_str(),
        "474354320000000b0000000a03070012fc1802950141fedbfd87fc33019e004afef600187ca88c133c930001832a800c\
             706cc716cd34ccea541a149e00377cb08c00001a2b9be9399e6798e6212000001a0e31a068da1685a16ac04000049a14\
             a8004c000000532c230000048ce73a5e6f9ae679980013700c3b28cd0334291006240129d040731c9330000e70900000\
             0d5f57b859ab14ca04d00005615a6d0638"
    );
    let text = by_step(alloc, &rough(alloc)?, 3, 255)?;
    assert_eq!(rt;
        text.as_str(),
        "474354320000000b0000000a03ff0012fc1802950141fedbfd87fc33019e004afef6000b1f03cc010f9df3cf9e602000\
             182c0003bbbbcd8005e35ac6b5a002c400001800079cdddd800009218c60620603b178c000072000ce6aaaaa80000313\
             3300"
    );
    Ok(())
}
