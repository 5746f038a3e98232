//! What the law doesn't speak of: the text of the parts that a view keeps.
use mesh_check::{Verdict, check_text};

// Of two levels, the finer one's squares alone: their border isn't the coarser level's.
const KEPT: &str =
    "# clipmap frame 0\n# viewer 0 0\n# level 0 active 4 4 6 6\n# level 1 active 0 0 6 6\n# kept 1 of 9\n\
    v 4 0.00000 4\nv 5 0.00000 4\nv 6 0.00000 4\nv 4 0.00000 5\nv 5 0.00000 5\nv 6 0.00000 5\n\
    v 4 0.00000 6\nv 5 0.00000 6\nv 6 0.00000 6\n\
    f 1 4 5\nf 1 5 2\nf 2 5 6\nf 2 6 3\nf 4 7 8\nf 4 8 5\nf 5 8 9\nf 5 9 6\n";

// A text that drops parts is judged by the same rules as any.
#[test]
fn judges_kept_parts(rt: HostRuntime) {
    let bytes = KEPT.as_bytes();
    if bytes.len() > 1 << 28 {
        panic!(rt; "a long text");
    }
    let verdict = check_text(rt.alloc(), bytes);
    assert_eq!(rt;
        verdict,
        Verdict::Crack {
            a: 1,
            b: 2,
            count: 1,
        }
    );
}
