//! Worked examples of verdicts, over a shelf and a sink in memory.
use clipmap_prog::{TEXT_LIMIT, clipmap};
use memory_runs::{Left, TILE, owned, run, shelf_of};
use outer_shelf::{MemoryShelf, MemorySink, NoMemory, are_names_distinct};
use std::alloc::{AllocError, Global};
use std::thread::Threads;

// What a `check` of these bytes leaves.
fn judged<R: Threads + Sync + AllocGlobal>(rt: &R, text: &[u8]) -> Result<Left, NoMemory> {
    run(rt, &["check", "out.obj"], &[("out.obj", text)])
}

// The text of the frame of so many levels of the least size at (1, 1), over a tile of height 0.
fn frame_of<R: Threads + Sync + AllocGlobal>(rt: &R, levels: &str) -> Option<Vec<u8>> {
    let words = ["frame", "4", levels, "1", "1", "out.obj", TILE];
    let left = run(rt, &words, &[(TILE, &[0u8; 18])]).ok()?;
    let text = left.done("out.obj")?;
    Vec::from_slice(rt.alloc(), text).ok()
}

// The text without the line of that number, counted from 0.
fn without_line(alloc: Global, text: &[u8], number: usize) -> Result<Vec<u8>, AllocError> {
    let mut left = Vec::new(alloc);
    let mut at = 0usize;
    for byte in text {
        if at != number {
            left.push(*byte)?;
        }
        if *byte == b'\n' {
            at = at.saturating_add(1);
        }
    }
    Ok(left)
}

// A frame that was drawn is watertight, and without one of its stitches it isn't.
#[test]
fn judges_drawn_frames(rt: HostRuntime) {
    for (levels, output) in [("1", "watertight 392\n"), ("2", "watertight 714\n")] {
        let Some(text) = frame_of(&rt, levels) else {
            panic!(rt; "no frame");
        };
        let Ok(left) = judged(&rt, text.as_slice()) else {
            panic!(rt; "no memory");
        };
        assert_eq!(rt; left.status, 0, "{output}");
        assert!(rt; left.log() == output.as_bytes(), "{output}");
    }
    let Some(text) = frame_of(&rt, "2") else {
        panic!(rt; "no frame");
    };
    // The 687th triangle, behind four lines and 386 vertices.
    let open = without_line(rt.alloc(), text.as_slice(), 1076).expect(&rt, "memory");
    let Ok(left) = judged(&rt, open.as_slice()) else {
        panic!(rt; "no memory");
    };
    assert_eq!(rt; left.status, 2);
    assert_eq!(rt; left.log(), b"fault: crack 1 2 count 1\n".as_slice());
}

// The frame is read from the shelf on which `frame` put it, and stays as it was.
#[test]
fn judges_a_frame_on_its_shelf(rt: HostRuntime) {
    let alloc = rt.alloc();
    let mut shelf = shelf_of(alloc, &[(TILE, &[0u8; 18])], &[]).expect(&rt, "memory");
    let mut sink = MemorySink::new(alloc, Vec::new(alloc));
    for words in [
        ["frame", "4", "2", "1", "1", "o", TILE].as_slice(),
        ["check", "o"].as_slice(),
        ["check", "o"].as_slice(),
    ] {
        let words = owned(alloc, words).expect(&rt, "memory");
        let status = clipmap(&rt, alloc, words.as_slice(), &mut shelf, &mut sink);
        assert_eq!(rt; status, 0);
    }
    let output = "frame 0 vertices 386 triangles 714\nwatertight 714\nwatertight 714\n";
    assert!(rt; sink.bytes() == output.as_bytes());
}

// The line of each verdict, of texts that are judged by hand.
#[test]
fn tells_of_texts(rt: HostRuntime) {
    let table = [
        ("", 2, "fault: bad line 1\n"),
        ("# clipmap frame 0", 2, "fault: bad line 1\n"),
        ("# clipmap frame 0\n", 2, "fault: bad line 2\n"),
        (
            "# clipmap frame 18446744073709551616\n# viewer 0 0\n# level 0 empty\n",
            2,
            "fault: bad line 1\n",
        ),
        (
            "# clipmap frame 18446744073709551615\n# viewer 0 0\n# level 0 empty\n",
            0,
            "watertight 0\n",
        ),
        (
            "# clipmap frame 0\n# viewer 0 0\n# level 0 empty\nv 0 -0.00000 0\n",
            2,
            "fault: bad line 4\n",
        ),
        (
            "# clipmap frame 0\n# viewer 0 0\n# level 0 active 0 0 1 2\n",
            2,
            "fault: bad line 3\n",
        ),
        // A folded pair of triangles, with an edge on the line through the region's west side.
        (
            "# clipmap frame 0\n# viewer 0 0\n# level 0 active 0 0 2 2\nv 0 0.00000 -4\nv 0 0.00000 -8\nv 4 0.00000 -4\nf 1 2 3\nf 1 3 2\n",
            0,
            "watertight 2\n",
        ),
        // An empty last level has no border.
        (
            "# clipmap frame 0\n# viewer 0 0\n# level 0 empty\nv 0 0.00000 0\nv 0 0.00000 2\nv 2 0.00000 0\nf 1 2 3\n",
            2,
            "fault: crack 1 2 count 1\n",
        ),
        // The third triangle's vertices lie on one line, and the middle one stands too high.
        (
            "# clipmap frame 0\n# viewer 0 0\n# level 0 empty\nv 0 1.00000 0\nv 1 2.03125 0\nv 2 3.00000 0\nv 0 0.00000 4\nv 9 0.00000 9\nf 1 4 5\nf 5 4 1\nf 1 2 3\nf 1 3 2\n",
            2,
            "fault: tilted face 3\n",
        ),
        // An edge in three triangles.
        (
            "# clipmap frame 0\n# viewer 0 0\n# level 0 empty\nv 0 0.00000 0\nv 0 0.00000 2\nv 2 0.00000 0\nf 1 2 3\nf 1 3 2\nf 1 2 3\n",
            2,
            "fault: crack 1 2 count 3\n",
        ),
    ];
    for (text, status, output) in table {
        let Ok(left) = judged(&rt, text.as_bytes()) else {
            panic!(rt; "no memory");
        };
        assert_eq!(rt; left.status, status, "{text}");
        assert!(rt; left.log() == output.as_bytes(), "{text}");
    }
}

// A name is one word of any ending; a file that isn't there is absent.
#[test]
fn refused_words_and_names(rt: HostRuntime) {
    let files = [("out.obj", [].as_slice())];
    let table = [
        (["check"].as_slice(), 1, "fault: words\n"),
        (["check", ""].as_slice(), 1, "fault: words\n"),
        (
            ["check", "out.obj", "out.obj"].as_slice(),
            1,
            "fault: words\n",
        ),
        (["Check", "out.obj"].as_slice(), 1, "fault: words\n"),
        (["check", "a.obj"].as_slice(), 2, "fault: Absent a.obj\n"),
        (["check", "a.gct"].as_slice(), 2, "fault: Absent a.gct\n"),
        (["check", "out.obj"].as_slice(), 2, "fault: bad line 1\n"),
    ];
    for (words, status, output) in table {
        let Ok(left) = run(&rt, words, &files) else {
            panic!(rt; "no memory");
        };
        assert_eq!(rt; left.status, status, "{output}");
        assert!(rt; left.log() == output.as_bytes(), "{output}");
    }
}

// A shelf with one file of so many zero bytes.
fn shelf_of_zeros(alloc: Global, length: u64) -> Result<MemoryShelf, NoMemory> {
    let mut bytes = Vec::with_capacity(alloc, length as usize)?;
    for _ in 0..length {
        if bytes.push(0).is_err() {
            return Err(NoMemory);
        }
    }
    let mut files = Vec::new(alloc);
    if files.push((String::from_str(alloc, "o")?, bytes)).is_err() || !are_names_distinct(&files) {
        return Err(NoMemory);
    }
    MemoryShelf::new(alloc, files, Vec::new(alloc))
}

// A file of one byte past the limit is refused, whatever is in it.
#[test]
fn refuses_longer_files(rt: HostRuntime) {
    let alloc = rt.alloc();
    let mut shelf = shelf_of_zeros(alloc, TEXT_LIMIT + 1).expect(&rt, "memory");
    let mut sink = MemorySink::new(alloc, Vec::new(alloc));
    let words = owned(alloc, &["check", "o"]).expect(&rt, "memory");
    let status = clipmap(&rt, alloc, words.as_slice(), &mut shelf, &mut sink);
    assert_eq!(rt; status, 2);
    assert_eq!(rt;
        sink.bytes(),
        b"fault: TooLong o 268435457 268435456\n".as_slice()
    );
}
