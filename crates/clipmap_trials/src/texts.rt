//! Texts of frames that are cut and changed, under `check`.
use crate::changes::changed;
use memory_runs::{TILE, lines, run};
use std::test::Fail;
use std::thread::Threads;

// The text of a frame over a small tile.
fn frame_of<R: Threads + Sync + AllocGlobal>(rt: &R, levels: &str) -> Result<Vec<u8>, Fail> {
    let tile = [0, 1, 0, 2, 0, 3, 0, 4, 0, 5, 0, 6, 0, 7, 0, 8, 0, 9u8];
    let words = ["frame", "4", levels, "1", "1", "o", TILE];
    let left = run(rt, &words, &[(TILE, tile.as_slice())])?;
    Ok(Vec::from_slice(rt.alloc(), left.out())?)
}

// How a `check` ended.
#[derive(Clone, Copy, PartialEq, Eq)]
enum End {
    Watertight,
    BadLine,
    Crack,
    Tilted,
}

// The end of a `check` that has this status and this output, if there may be such an end.
fn end_of(status: u8, output: &[u8]) -> Option<End> {
    if lines(output) != 1 || !output.ends_with(b"\n") {
        return None;
    }
    if status == 0 && output.starts_with(b"watertight ") {
        return Some(End::Watertight);
    }
    if status != 2 {
        return None;
    }
    if output.starts_with(b"fault: bad line ") {
        return Some(End::BadLine);
    }
    if output.starts_with(b"fault: crack ") {
        return Some(End::Crack);
    }
    if output.starts_with(b"fault: tilted face ") {
        return Some(End::Tilted);
    }
    None
}

// How a `check` of the text ends, which is to leave it as it was and to put nothing.
fn judged<R: Threads + Sync + AllocGlobal>(rt: &R, text: &[u8]) -> Result<Option<End>, Fail> {
    let left = run(rt, &["check", "a.obj"], &[("a.obj", text)])?;
    let stands = left.file("a.obj") == Some(text) && left.file("o").is_none();
    let end = end_of(left.status, left.log());
    Ok(if stands { end } else { None })
}

// Each front of a frame's text. One that ends within a line is bad.
#[test]
fn frames_cut(rt: HostRuntime) -> Result<(), Fail> {
    let text = frame_of(&rt, "1")?;
    assert!(rt; lines(&text) == 620 && judged(&rt, &text)? == Some(End::Watertight));
    let mut front = Vec::new(rt.alloc());
    for byte in &text {
        let end = judged(&rt, &front)?;
        assert!(rt; end.is_some(), "cut to {}", front.len());
        assert!(rt;
            front.ends_with(b"\n") || end == Some(End::BadLine),
            "cut to {}",
            front.len()
        );
        front.push(*byte)?;
    }
    Ok(())
}

// One to four bytes of a frame's text changed at random.
#[test]
fn frames_changed(rt: HostRuntime) -> Result<(), Fail> {
    let text = frame_of(&rt, "2")?;
    let (mut sound, mut cracks) = (0u32, 0u32);
    for seed in 0..20000u64 {
        let bytes = changed(rt.alloc(), &text, seed, true)?;
        let end = judged(&rt, &bytes)?;
        assert!(rt; end.is_some(), "seed {seed}");
        if end == Some(End::Watertight) {
            sound = sound.saturating_add(1);
        }
        if end == Some(End::Crack) {
            cracks = cracks.saturating_add(1);
        }
    }
    assert!(rt; sound > 0 && cracks > 0, "{sound} {cracks}");
    Ok(())
}
