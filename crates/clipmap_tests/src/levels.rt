//! Worked frames of several levels.
use crate::tiles::sea;
use memory_runs::{TILE, line, run};

// Two whole windows over a flat tile: the first stitch is the triangle of the first three vertices.
#[test]
fn two_levels(rt: HostRuntime) {
    let words = ["frame", "4", "2", "1", "1", "out.obj", TILE];
    let Ok(left) = run(&rt, &words, &[(TILE, &[0u8; 18])]) else {
        panic!(rt; "no memory");
    };
    let Some(text) = left.done("out.obj") else {
        panic!(rt; "no file");
    };
    assert_eq!(rt;
        left.log(),
        b"frame 0 vertices 386 triangles 714\n".as_slice()
    );
    let lines = [
        (2, "# level 0 active -6 -6 8 8"),
        (3, "# level 1 active -6 -6 8 8"),
        (4, "v -6 0.00000 -6"),
        (229, "v -12 0.00000 -12"),
        (1076, "f 1 2 3"),
        (1104, ""),
    ];
    for (number, want) in lines {
        assert!(rt; line(text, number) == want.as_bytes(), "line {number}");
    }
}

// Six levels over a tile of three arc seconds.
#[test]
fn six_levels(rt: HostRuntime) {
    let words = ["frame", "6", "6", "600", "600", "out.obj", TILE];
    let bytes = sea(rt.alloc()).expect(&rt, "memory");
    let Ok(left) = run(&rt, &words, &[(TILE, bytes.as_slice())]) else {
        panic!(rt; "no memory");
    };
    let Some(text) = left.done("out.obj") else {
        panic!(rt; "no file");
    };
    assert_eq!(rt;
        left.log(),
        b"frame 0 vertices 18694 triangles 37138\n".as_slice()
    );
    let levels = [
        (2, "# level 0 active 570 570 632 632"),
        (3, "# level 1 active 270 270 332 332"),
        (4, "# level 2 active 120 120 182 182"),
        (5, "# level 3 active 44 44 106 106"),
        (6, "# level 4 active 6 6 68 68"),
        (7, "# level 5 active -12 -12 50 50"),
    ];
    for (number, want) in levels {
        assert!(rt; line(text, number) == want.as_bytes(), "line {number}");
    }
}

// Twelve levels at the limit of the viewer: every height is that of no terrain.
#[test]
fn twelve_levels_far_off(rt: HostRuntime) {
    let words = ["frame", "4", "12", "-4194304", "4194304", "out.obj", TILE];
    let Ok(left) = run(&rt, &words, &[(TILE, &[1u8; 18])]) else {
        panic!(rt; "no memory");
    };
    let Some(text) = left.done("out.obj") else {
        panic!(rt; "no file");
    };
    for vertex in text.split(|byte| *byte == b'\n') {
        if vertex.starts_with(b"v ") {
            assert!(rt; vertex.windows(9).any(|part| part == " 0.00000 ".as_bytes()));
        }
    }
}
