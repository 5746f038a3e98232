//! Verdicts on small meshes, each judged by hand.
use crate::{Verdict, check_text, lists_verdict};
use mesh_lists::text_lists;
use std::alloc::Global;
use std::test::Fail;

// The verdict on a text.
fn judged(alloc: Global, text: &str) -> Verdict {
    let bytes = text.as_bytes();
    if bytes.len() > 1 << 28 {
        return Verdict::NoMemory;
    }
    check_text(alloc, bytes)
}

// The verdict on a text with these lines behind the viewer's.
fn verdict_of(alloc: Global, lines: &str) -> Result<Verdict, Fail> {
    let text = format!(in alloc; "# clipmap frame 0\n# viewer 0 0\n{lines}")?;
    Ok(judged(alloc, text.as_str()))
}

fn watertight(triangles: u32) -> Verdict {
    Verdict::Watertight { triangles }
}

fn crack(a: u32, b: u32, count: u32) -> Verdict {
    Verdict::Crack { a, b, count }
}

// A square of two samples a side, at sea level.
const SQUARE: &str =
    "# level 0 active 0 0 2 2\nv 0 0.00000 0\nv 2 0.00000 0\nv 0 0.00000 2\nv 2 0.00000 2\n";

#[test]
fn counts_the_triangles_of_each_edge(rt: HostRuntime) -> Result<(), Fail> {
    for (triangles, verdict) in [
        ("", watertight(0)),
        ("f 1 3 4\nf 1 4 2\n", watertight(2)),
        ("f 1 4 2\nf 4 1 3\n", watertight(2)),
        ("f 1 3 4\n", crack(1, 4, 1)),
        ("f 1 4 2\n", crack(1, 4, 1)),
        ("f 1 3 4\nf 1 2 4\n", crack(1, 4, 2)),
        ("f 1 3 4\nf 1 4 2\nf 1 3 4\n", crack(1, 3, 2)),
        ("f 1 3 4\nf 1 4 2\nf 1 2 4\n", crack(1, 2, 2)),
        ("f 1 3 4\nf 1 4 2\nf 2 3 4\n", crack(2, 3, 1)),
        ("f 1 3 4\nf 1 4 3\n", crack(1, 3, 2)),
        ("f 4 2 3\n", crack(2, 3, 1)),
        (
            "f 1 4 2\nf 1 3 4\nf 2 3 4\nf 4 3 2\nf 4 3 2\n",
            crack(2, 3, 3),
        ),
    ] {
        let text = format!(in rt.alloc(); "{SQUARE}{triangles}")?;
        assert_eq!(rt;
            verdict_of(rt.alloc(), text.as_str())?,
            verdict,
            "{triangles:?}"
        );
    }
    Ok(())
}

#[test]
fn judges_meshes_by_their_border(rt: HostRuntime) -> Result<(), Fail> {
    for (lines, verdict) in [
        // A folded pair of triangles, with an edge on the line through the region's west side.
        (
            "# level 0 active 0 0 2 2\nv 0 0.00000 -4\nv 0 0.00000 -8\nv 4 0.00000 -4\nf 1 2 3\nf 1 3 2\n",
            watertight(2),
        ),
        // The same edge in one triangle is no border.
        (
            "# level 0 active 0 0 2 2\nv 0 0.00000 -4\nv 0 0.00000 -8\nv 4 0.00000 -4\nf 1 2 3\n",
            crack(1, 2, 1),
        ),
        // From one side to another one.
        (
            "# level 0 active 0 0 2 2\nv 0 0.00000 0\nv 2 0.00000 2\nv 0 0.00000 2\nf 1 2 3\n",
            crack(1, 2, 1),
        ),
        // An empty last level has no border.
        (
            "# level 0 empty\nv 0 0.00000 0\nv 0 0.00000 2\nv 2 0.00000 0\nf 1 2 3\n",
            crack(1, 2, 1),
        ),
        // The last level's region, by positions.
        (
            "# level 0 active 0 0 2 2\n# level 1 active 0 0 2 2\nv 0 0.00000 0\nv 4 0.00000 0\nv 0 0.00000 4\nv 4 0.00000 4\nf 1 3 4\nf 1 4 2\n",
            watertight(2),
        ),
        (
            "# level 0 active 0 0 4 4\n# level 1 active 0 0 4 4\nv 0 0.00000 0\nv 4 0.00000 0\nv 0 0.00000 4\nv 4 0.00000 4\nf 1 3 4\nf 1 4 2\n",
            crack(2, 4, 1),
        ),
        // Corners as far out as they may be.
        (
            "# level 0 active -16777216 -16777216 16777216 16777216\nv -16777216 0.00000 -16777216\nv 16777216 0.00000 -16777216\nv -16777216 0.00000 16777216\nv 16777216 0.00000 16777216\nf 1 3 4\nf 1 4 2\n",
            watertight(2),
        ),
    ] {
        assert_eq!(rt; verdict_of(rt.alloc(), lines)?, verdict, "{lines:?}");
    }
    Ok(())
}

#[test]
fn names_the_first_tilted_face(rt: HostRuntime) -> Result<(), Fail> {
    for (vertices, verdict) in [
        (
            "v 0 1.00000 0\nv 1 2.00000 0\nv 2 3.00000 0\n",
            watertight(2),
        ),
        (
            "v 0 1.00000 0\nv 1 2.03125 0\nv 2 3.00000 0\n",
            Verdict::Tilted { face: 1 },
        ),
        (
            "v 0 1.00000 0\nv 2 3.00000 0\nv 1 2.00000 0\n",
            watertight(2),
        ),
        (
            "v 1 2.00000 0\nv 0 1.00000 0\nv 2 3.00000 0\n",
            watertight(2),
        ),
        (
            "v 0 1.00000 0\nv 1 1.00000 0\nv 3 1.00000 0\n",
            Verdict::Tilted { face: 1 },
        ),
        (
            "v 0 0.00000 0\nv 1 0.00000 1\nv 2 0.03125 2\n",
            Verdict::Tilted { face: 1 },
        ),
        (
            "v 0 0.00000 0\nv 0 1.00000 0\nv 5 0.00000 7\n",
            Verdict::Tilted { face: 1 },
        ),
        (
            "v 0 0.00000 0\nv 1 1.00000 1\nv 2 0.00000 3\n",
            watertight(2),
        ),
    ] {
        let text = format!(in rt.alloc(); "# level 0 empty\n{vertices}f 1 2 3\nf 1 3 2\n")?;
        assert_eq!(rt;
            verdict_of(rt.alloc(), text.as_str())?,
            verdict,
            "{vertices:?}"
        );
    }
    let vertices = "v 0 0.00000 0\nv 1 1.00000 0\nv 2 0.00000 0\nv 1 0.00000 4\nv 9 0.00000 9\n";
    let flat = format!(in rt.alloc();
        "# level 0 empty\n{vertices}f 1 4 5\nf 5 4 1\nf 1 2 3\nf 1 3 2\n"
    )?;
    assert_eq!(rt;
        verdict_of(rt.alloc(), flat.as_str())?,
        Verdict::Tilted { face: 3 }
    );
    let open = format!(in rt.alloc(); "# level 0 empty\n{vertices}f 1 2 3\nf 1 3 2\nf 2 3 4\n")?;
    assert_eq!(rt; verdict_of(rt.alloc(), open.as_str())?, crack(2, 3, 3));
    Ok(())
}

#[test]
fn names_the_first_bad_line(rt: HostRuntime) -> Result<(), Fail> {
    assert_eq!(rt; judged(rt.alloc(), ""), Verdict::Bad { line: 1 });
    assert_eq!(rt; verdict_of(rt.alloc(), "")?, Verdict::Bad { line: 3 });
    let cut = format!(in rt.alloc(); "{SQUARE}f 1 3 4\nf 1 4 2")?;
    assert_eq!(rt;
        verdict_of(rt.alloc(), cut.as_str())?,
        Verdict::Bad { line: 9 }
    );
    Ok(())
}

#[test]
fn judges_lists(rt: HostRuntime) -> Result<(), Fail> {
    let text = format!(in rt.alloc();
        "# clipmap frame 0\n# viewer 0 0\n{SQUARE}f 1 3 4\nf 1 4 2\n"
    )?;
    let bytes = text.as_bytes();
    if bytes.len() <= 1 << 28 {
        let lists = text_lists(rt.alloc(), bytes)?;
        assert_eq!(rt; lists_verdict(rt.alloc(), &lists), watertight(2));
    }
    Ok(())
}
