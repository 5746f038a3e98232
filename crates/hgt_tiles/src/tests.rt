use crate::{BadName, Corner, TileFault, read_name, read_tile};
use std::test::Fail;

#[test]
fn names_give_corners(rt: HostRuntime) {
    let corners = [
        ("dem/s01w078.HGT", -1, -78),
        ("N45E006.hgt", 45, 6),
        ("/a/b/n89e179.hGt", 89, 179),
        ("S90W180.hgt", -90, -180),
        ("S00W000.hgt", 0, 0),
    ];
    for (word, lat, lon) in corners {
        assert_eq!(rt; read_name(word), Ok(Corner { lat, lon }), "{word}");
    }
}

#[test]
fn other_words_are_bad_names(rt: HostRuntime) {
    let words = [
        "",
        "N90E000.hgt",
        "S91E000.hgt",
        "N00E180.hgt",
        "N00W181.hgt",
        "N45E006.hgt.zip",
        "N45E006.SRTMGL1.hgt",
        "N45E006.gct",
        "N45E006hgt",
        "N5E006.hgt",
        "N45E06.hgt",
        "X45E006.hgt",
        "N45N006.hgt",
        "N+5E006.hgt",
        "N45E-06.hgt",
        "N45E006,hgt",
        "N45E006.hgt/",
        "N45E006.hgt ",
        "É45E006.hgt",
        "Né5E006.hg",
    ];
    for word in words {
        assert_eq!(rt; read_name(word), Err(BadName), "{word}");
    }
}

const NINE: [u8; 18] = [0, 1, 0, 2, 0, 3, 0, 4, 0, 5, 0, 6, 0, 7, 0, 8, 0, 9];

#[test]
fn a_tile_of_nine_samples(rt: HostRuntime) -> Result<(), Fail> {
    let corner = Corner { lat: 45, lon: 6 };
    let tile = read_tile(rt.alloc(), corner, &NINE)?;
    assert_eq!(rt; tile.corner(), corner);
    assert_eq!(rt; tile.side(), 3);
    assert_eq!(rt; tile.voids(), 0);
    assert_eq!(rt; tile.height(0, 0), 1);
    assert_eq!(rt; tile.height(1, 0), 2);
    assert_eq!(rt; tile.height(0, 1), 4);
    assert_eq!(rt; tile.height(2, 2), 9);
    for count in [0, 8, 16, 17] {
        let refused = read_tile(rt.alloc(), corner, &NINE[..count]).err();
        let length = count as u64;
        assert_eq!(rt; refused, Some(TileFault::BadLength { length }));
    }
    Ok(())
}

#[test]
fn samples_are_signed_and_voids_are_counted(rt: HostRuntime) -> Result<(), Fail> {
    let mut bytes = NINE;
    bytes[0] = 0xff;
    bytes[1] = 0x38;
    bytes[2] = 0x80;
    bytes[3] = 0x00;
    let tile = read_tile(rt.alloc(), Corner { lat: 0, lon: 0 }, &bytes)?;
    assert_eq!(rt; tile.side(), 3);
    assert_eq!(rt; tile.voids(), 1);
    assert_eq!(rt; tile.height(0, 0), -200);
    assert_eq!(rt; tile.height(1, 0), -200);
    Ok(())
}

#[test]
fn voids_take_the_nearest_height_in_their_row(rt: HostRuntime) -> Result<(), Fail> {
    // V V V / V 5 V / 7 V 9, where V is a void.
    let bytes = [
        0x80, 0, 0x80, 0, 0x80, 0, 0x80, 0, 0, 5, 0x80, 0, 0, 7, 0x80, 0, 0, 9,
    ];
    let tile = read_tile(rt.alloc(), Corner { lat: 0, lon: 0 }, &bytes)?;
    assert_eq!(rt; tile.side(), 3);
    assert_eq!(rt; tile.voids(), 6);
    let rows = [[0, 0, 0], [5, 5, 5], [7, 7, 9]];
    assert_eq!(rt; tile.row(0), rows[0].as_slice());
    assert_eq!(rt; tile.row(1), rows[1].as_slice());
    assert_eq!(rt; tile.row(2), rows[2].as_slice());
    Ok(())
}
