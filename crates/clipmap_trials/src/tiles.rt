//! Files of every short length as tiles.
use crate::changes::{below, next};
use memory_runs::{TILE, run};

// The side of the square tile of so many bytes, up to 200 of them, if there is one.
fn side_of(length: usize) -> Option<&'static str> {
    match length {
        18 => Some("3"),
        32 => Some("4"),
        50 => Some("5"),
        72 => Some("6"),
        98 => Some("7"),
        128 => Some("8"),
        162 => Some("9"),
        200 => Some("10"),
        _ => None,
    }
}

// Files of 0 to 200 bytes: those of 2 N^2 bytes with N from 3 on are tiles, and all others are refused by their length.
#[test]
fn files_of_every_length(rt: HostRuntime) {
    let alloc = rt.alloc();
    let frame = ["frame", "4", "1", "1", "1", "o", TILE].as_slice();
    let pack = ["pack", "2", "o", TILE].as_slice();
    let by_step = ["packq", "2", "3", "o", TILE].as_slice();
    let info = ["info", TILE].as_slice();
    let mut bytes = Vec::new(alloc);
    let mut seed = 1;
    for length in 0..201usize {
        let files = [(TILE, bytes.as_slice())];
        let refusal = format!(in alloc; "fault: BadLength {TILE} {length}\n").expect(&rt, "memory");
        for (words, puts) in [(frame, true), (pack, true), (by_step, true), (info, false)] {
            let left = run(&rt, words, &files).expect(&rt, "memory");
            if let Some(side) = side_of(length) {
                assert_eq!(rt; left.status, 0, "{length}");
                assert_eq!(rt; left.file("o").is_some(), puts, "{length}");
                let head = format!(in alloc; "terrain {side} {side}\n").expect(&rt, "memory");
                assert!(rt; puts || left.log().starts_with(head.as_bytes()), "{length}");
            } else {
                assert!(rt; left.is_refused(refusal.as_bytes()), "{length}");
            }
            assert!(rt; left.file(TILE) == Some(bytes.as_slice()), "{length}");
        }
        seed = next(seed);
        bytes.push(below(seed, 256) as u8).expect(&rt, "memory");
    }
}
