//! A text with every kind of line, and each rule broken once, with its line named by hand.
use crate::{ListsFault, TextLists, text_lists};
use mesh_model::Vertex;
use std::alloc::Global;
use std::test::Fail;

const HEAD: &str = "# clipmap frame 0\n# viewer 1 -1\n# level 0 active 0 0 2 2\n";

const VERTICES: &str = "v 0 0.00000 0\nv 2 1.50000 0\nv 0 -0.03125 2\nv 2 32768.00000 2\n";

// The lists of a text.
fn lists_of(alloc: Global, text: &str) -> Result<TextLists, ListsFault> {
    let bytes = text.as_bytes();
    if bytes.len() > 1 << 28 {
        return Err(ListsFault::NoMemory);
    }
    text_lists(alloc, bytes)
}

// The first bad line of a text, and 0 where it has lists.
fn bad_line(alloc: Global, text: &str) -> Result<u32, Fail> {
    match lists_of(alloc, text) {
        Ok(_) => Ok(0),
        Err(ListsFault::BadLine { line }) => Ok(line),
        Err(fault) => Err(fault)?,
    }
}

#[test]
fn reads_a_text(rt: HostRuntime) -> Result<(), Fail> {
    let text = format!(in rt.alloc(); "{HEAD}# kept 1 of 2\n{VERTICES}f 1 3 4\nf 1 4 2\n")?;
    let lists = lists_of(rt.alloc(), text.as_str())?;
    let vertex = |x: i32, height: i32, z: i32| Vertex { x, z, height };
    let [a, b, c, d] = lists.vertices() else {
        return Ok(assert!(rt; false));
    };
    assert_eq!(rt; *a, vertex(0, 0, 0));
    assert_eq!(rt; *b, vertex(2, 48, 0));
    assert_eq!(rt; *c, vertex(0, -1, 2));
    assert_eq!(rt; *d, vertex(2, 1_048_576, 2));
    let [first, second] = lists.triangles() else {
        return Ok(assert!(rt; false));
    };
    assert_eq!(rt; *first, [0, 2, 3]);
    assert_eq!(rt; *second, [0, 3, 1]);
    Ok(())
}

#[test]
fn names_the_first_bad_line_of_a_head(rt: HostRuntime) -> Result<(), Fail> {
    for (text, line) in [
        ("", 1),
        ("\n", 1),
        ("# clipmap frame 0", 1),
        ("# clipmap frame 0\n", 2),
        ("# clipmap frame 18446744073709551615\n", 2),
        ("# clipmap frame 18446744073709551616\n# viewer 0 0\n", 1),
        ("# clipmap frame 00\n# viewer 0 0\n", 1),
        ("# clipmap frame -1\n# viewer 0 0\n", 1),
        ("# clipmap frame\n# viewer 0 0\n", 1),
        ("# clipmap frame 0 \n# viewer 0 0\n", 1),
        ("#  clipmap frame 0\n# viewer 0 0\n", 1),
        ("# Clipmap frame 0\n# viewer 0 0\n", 1),
        ("# clipmap frame 0\r\n# viewer 0 0\n", 1),
        ("# clipmap frame 0\n# viewer 0\n# level 0 empty\n", 2),
        ("# clipmap frame 0\n# viewer 0 0 0\n# level 0 empty\n", 2),
        ("# clipmap frame 0\n# viewer +1 0\n# level 0 empty\n", 2),
        (
            "# clipmap frame 0\n# viewer 16777217 0\n# level 0 empty\n",
            2,
        ),
        (
            "# clipmap frame 0\n# viewer -16777216 -0\n# level 0 empty\n",
            2,
        ),
        ("# clipmap frame 0\n\n# viewer 0 0\n# level 0 empty\n", 2),
        ("# clipmap frame 0\n# viewer 0 0", 2),
        ("# clipmap frame 0\n# viewer 0 0\n", 3),
        ("# clipmap frame 0\n# viewer 0 0\n# level 0 empty", 3),
        ("# clipmap frame 0\n# viewer 0 0\nv 0 0.00000 0\n", 3),
        ("# clipmap frame 0\n# viewer 0 0\n# kept 0 of 0\n", 3),
        ("# clipmap frame 0\n# viewer 0 0\n# level 1 empty\n", 3),
        (
            "# clipmap frame 0\n# viewer -16777216 16777216\n# level 0 empty\n",
            0,
        ),
    ] {
        assert_eq!(rt; bad_line(rt.alloc(), text)?, line, "{text:?}");
    }
    Ok(())
}

#[test]
fn names_a_bad_level_line(rt: HostRuntime) -> Result<(), Fail> {
    for (levels, line) in [
        ("# level 0 active 0 0 2 2\n", 0),
        (
            "# level 0 active -16777216 -16777216 16777216 16777216\n",
            0,
        ),
        ("# level 0 active 0 0 2 16777218\n", 3),
        ("# level 0 active 0 0 2 1\n", 3),
        ("# level 0 active 0 0 0 2\n", 3),
        ("# level 0 active 0 2 2 0\n", 3),
        ("# level 0 active 0 0 2\n", 3),
        ("# level 0 active 0 0 2 2 2\n", 3),
        ("# level 0 active\n", 3),
        ("# level 0 empty \n", 3),
        ("# level 0 active 0 0 2 02\n", 3),
        ("# level 0 active -0 0 2 2\n", 3),
        ("# level 0 Active 0 0 2 2\n", 3),
        ("# level 00 empty\n", 3),
        ("# level 0 empty\n# level 0 empty\n", 4),
        ("# level 0 empty\n# level 2 empty\n", 4),
        ("# level 0 empty\n# level 1 active 1 0 4 4\n", 4),
        ("# level 0 empty\n# level 1 active 0 0 8388608 8388608\n", 0),
        ("# level 0 empty\n# level 1 active 0 0 8388610 8388608\n", 4),
        (
            "# level 0 empty\n# level 1 active 0 0 8388610 8388608\nnonsense\n",
            4,
        ),
        (
            "# level 0 empty\n# level 1 active 0 0 8388610 8388608\n# level 2 empty\n",
            0,
        ),
        (
            "# level 0 empty\n# level 1 active 0 0 8388610 8388608\nf",
            4,
        ),
        (
            "# level 0 active 0 0 16777216 2\n# level 1 active 1 0 2 2\n",
            4,
        ),
    ] {
        let text = format!(in rt.alloc(); "# clipmap frame 7\n# viewer 0 0\n{levels}")?;
        assert_eq!(rt; bad_line(rt.alloc(), text.as_str())?, line, "{levels:?}");
    }
    Ok(())
}

#[test]
fn reads_twelve_levels_and_no_more(rt: HostRuntime) -> Result<(), Fail> {
    let mut text = String::from_str(rt.alloc(), "# clipmap frame 7\n# viewer 0 0\n")?;
    for level in 0..12 {
        let line = format!(in rt.alloc(); "# level {level} active 0 0 8192 8192\n")?;
        text.push_str(line.as_str())?;
    }
    assert_eq!(rt; bad_line(rt.alloc(), text.as_str())?, 0);
    text.push_str("# level 12 empty\n")?;
    assert_eq!(rt; bad_line(rt.alloc(), text.as_str())?, 15);
    Ok(())
}

#[test]
fn names_a_bad_line_behind_the_head(rt: HostRuntime) -> Result<(), Fail> {
    for (body, line) in [
        ("", 0),
        ("# kept 0 of 0\n", 0),
        ("# kept 2 of 1\n", 0),
        ("# kept 18446744073709551615 of 18446744073709551615\n", 0),
        ("# kept 18446744073709551616 of 0\n", 4),
        ("# kept 0 of 18446744073709551616\n", 4),
        ("# kept 1 of\n", 4),
        ("# kept 1 in 1\n", 4),
        ("# kept 1 of 1\n# kept 1 of 1\n", 5),
        ("v 0 0.00000 0\n# kept 1 of 1\n", 5),
        ("# viewer 0 0\n", 4),
        ("v -16777216 -32768.00000 16777216\n", 0),
        ("v 16777217 0.00000 0\n", 4),
        ("v 0 0.00000 -16777217\n", 4),
        ("v 0 32768.03125 0\n", 4),
        ("v 0 -32768.03125 0\n", 4),
        ("v 0 -0.00000 0\n", 4),
        ("v 0 0.0000 0\n", 4),
        ("v 0 0.000000 0\n", 4),
        ("v 0 0.00001 0\n", 4),
        ("v 0 0.03126 0\n", 4),
        ("v 0 00.00000 0\n", 4),
        ("v 0 .00000 0\n", 4),
        ("v 0 0 0\n", 4),
        ("v 0 0.0.0000 0\n", 4),
        ("v 0 0.00000. 0\n", 4),
        ("v 0 0.0000: 0\n", 4),
        ("v 0 +1.00000 0\n", 4),
        ("v 0 --1.00000 0\n", 4),
        ("v 0 1.00000\n", 4),
        ("v 0 1.00000 0 \n", 4),
        ("v  0 1.00000 0\n", 4),
        ("V 0 1.00000 0\n", 4),
        ("v 0 1.00000 0.5\n", 4),
        ("v 0 0.00000 0\n\n", 5),
        ("v 0 0.00000 0", 4),
        ("v 0 0.00000 0\nv", 5),
        ("f 1 2 3\n", 4),
    ] {
        let text = format!(in rt.alloc(); "{HEAD}{body}")?;
        assert_eq!(rt; bad_line(rt.alloc(), text.as_str())?, line, "{body:?}");
    }
    Ok(())
}

#[test]
fn names_a_bad_triangle(rt: HostRuntime) -> Result<(), Fail> {
    for (body, line) in [
        ("f 1 2 3\nf 4 3 2\n", 0),
        ("f 1 2 5\n", 8),
        ("f 0 1 2\n", 8),
        ("f 1 1 2\n", 8),
        ("f 1 2 1\n", 8),
        ("f 2 1 1\n", 8),
        ("f 1 2\n", 8),
        ("f 1 2 3 4\n", 8),
        ("f 1 2 03\n", 8),
        ("f 1 2 -3\n", 8),
        ("f 1 2 4294967297\n", 8),
        ("f 1/1 2 3\n", 8),
        ("f 1 2 3\nv 0 0.00000 0\n", 9),
        ("f 1 2 3\n# kept 1 of 1\n", 9),
        ("f 1 2 3\nf 1 2 3", 9),
        ("f 1 2 3\nf 1 2 5\nf 9 9 9\n", 9),
    ] {
        let text = format!(in rt.alloc(); "{HEAD}{VERTICES}{body}")?;
        assert_eq!(rt; bad_line(rt.alloc(), text.as_str())?, line, "{body:?}");
    }
    Ok(())
}
