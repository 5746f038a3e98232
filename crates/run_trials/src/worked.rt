//! Worked examples.

ghost use Rattle.plan_model.specs.Limits.{IsLevelCount};

use crate::runs::{Left, flat, nine, run, script_of};
use clip_runs::Course;
use std::alloc::{AllocError, Global};
use std::test::Fail;
use std::thread::Threads;

// Plays a script of one level over the heights 1 to 9.
fn played<R: Threads + Sync + AllocGlobal>(rt: &R, text: &str) -> Result<Left, Fail> {
    let store = nine(rt.alloc(), 1)?;
    let script = script_of(rt.alloc(), text.as_bytes(), 1)?;
    run(rt, &store, &Course::Play(&script))
}

// Draws the frame of whole windows, K = 4, over the heights 1 to 9.
fn framed<R: Threads + Sync + AllocGlobal>(rt: &R, levels: u8) -> Result<Left, Fail>
    requires { IsLevelCount levels }
{
    let store = nine(rt.alloc(), levels)?;
    run(rt, &store, &Course::Frame { k: 4, x: 1, y: 1 })
}

// A text with a piece so often behind it.
fn filled(alloc: Global, head: &str, piece: &str, count: u8) -> Result<String, AllocError> {
    let mut text = String::from_str(alloc, head)?;
    'added: for _ in 0..count {
        text.push_str(piece)?;
    }
    Ok(text)
}

#[test]
fn a_play_of_refusals(rt: HostRuntime) -> Result<(), Fail> {
    let left = played(
        &rt,
        "size 4 1\nfinish 3\nend 3\nbegin 0\nbegin 0\nclaim 0\nend 0\n",
    )?;
    let log = "finish 3: nojob\nend 3: noframe\nbegin 0: frame 0\nbegin 0: haswork\n\
        claim 0: haswork\nend 0: closed 0 vertices 0 triangles 0\n";
    assert_eq!(rt; left.log(), log.as_bytes());
    let text = "# clipmap frame 0\n# viewer 0 0\n# level 0 empty\n";
    assert_eq!(rt; left.file("out-0.obj"), text.as_bytes());
    Ok(())
}

#[test]
fn a_frame_of_whole_windows(rt: HostRuntime) -> Result<(), Fail> {
    let left = framed(&rt, 1)?;
    let log = "frame 0 vertices 225 triangles 392\n";
    assert_eq!(rt; left.log(), log.as_bytes());
    let text = left.file("out");
    let lines = text.iter().filter(|byte| **byte == b'\n').count();
    assert_eq!(rt; lines, 620);
    let head = "# clipmap frame 0\n# viewer 1 1\n# level 0 active -6 -6 8 8\nv -6 0.00000 -6\n";
    assert!(rt; text.starts_with(head.as_bytes()));
    Ok(())
}

#[test]
fn a_frame_of_two_levels(rt: HostRuntime) -> Result<(), Fail> {
    let left = framed(&rt, 2)?;
    let log = "frame 0 vertices 386 triangles 714\n";
    assert_eq!(rt; left.log(), log.as_bytes());
    Ok(())
}

#[test]
fn two_frames_drawn_after_a_move(rt: HostRuntime) -> Result<(), Fail> {
    let mut text = filled(rt.alloc(), "size 4 1\nmove 1 1\n", "claim 0\nfinish 0\n", 9)?;
    text.push_str("publish 0\nbegin 0\nbegin 1\nmove 41 1\nclaim 2\nend 0\n")?;
    text.push_str("claim 2\nend 1\nclaim 2\n")?;
    let left = played(&rt, text.as_str())?;
    let tail = "publish 0: grown -6 -6 8 8\nbegin 0: frame 0\nbegin 1: frame 1\nmove 41 1: moved\n\
        claim 2: busy level 0 tile 0 1 frame 0\nend 0: closed 0 vertices 225 triangles 392\n\
        claim 2: busy level 0 tile 0 1 frame 1\nend 1: closed 1 vertices 225 triangles 392\n\
        claim 2: job level 0 block 4 -1 cells 34 -6 39 -1 plan 1\n";
    assert!(rt; left.log().ends_with(tail.as_bytes()));
    // The frame that was drawn alone has the same lines under its own number.
    let single = framed(&rt, 1)?;
    assert_eq!(rt; left.file("out-0.obj"), single.file("out"));
    let (head, other) = (b"# clipmap frame 0".len(), single.file("out"));
    assert_eq!(rt; left.file("out-1.obj").get(head..), other.get(head..));
    Ok(())
}

#[test]
fn views_are_told(rt: HostRuntime) -> Result<(), Fail> {
    let left = played(&rt, "size 4 1\nsee\nsee 1 0 0 -9 -2 3 4 -5\nendseen 2\n")?;
    let log = "see: view 0\nsee 1 0 0 -9 -2 3 4 -5: view 2\nendseen 2: noframe\n";
    assert_eq!(rt; left.log(), log.as_bytes());
    Ok(())
}

#[test]
fn a_frame_of_which_a_view_keeps_parts(rt: HostRuntime) -> Result<(), Fail> {
    let alloc = rt.alloc();
    let head = "size 4 2\nmove 1 1\n";
    let mut text = filled(alloc, head, "claim 0\nfinish 0\npublish 1\npublish 0\n", 18)?;
    text.push_str("see 1 0 0 -9\nbegin 0\nendseen 0\n")?;
    let store = flat(alloc, 2)?;
    let script = script_of(alloc, text.as_bytes(), 2)?;
    let left = run(&rt, &store, &Course::Play(&script))?;
    let tail = "see 1 0 0 -9: view 1\nbegin 0: frame 0\n\
        endseen 0: closed 0 kept 3 of 9 vertices 165 triangles 252\n";
    assert!(rt; left.log().ends_with(tail.as_bytes()));
    Ok(())
}
