//! Lines of scripts and logs, as they are written.
use crate::{Step, read_play, write_log, write_step};
use clip_regions::Region;
use plan_model::{Answer, Event, TileId};
use std::test::Fail;

#[test]
fn writes_steps(rt: HostRuntime) -> Result<(), Fail> {
    let mut text = Vec::new(rt.alloc());
    text.extend_from_slice(b"size 4 12\n")?;
    let steps = [
        (0, Event::Move { x: 1, y: 1, a: 0 }),
        (
            0,
            Event::Move {
                x: -4_194_304,
                y: 4_194_304,
                a: 1_048_576,
            },
        ),
        (15, Event::Claim),
        (0, Event::Finish),
        (0, Event::Publish { level: 11 }),
        (9, Event::Begin),
        (10, Event::End),
    ];
    for (pass, event) in steps {
        write_step(&mut text, pass, &event)?;
    }
    let want =
        b"size 4 12\nmove 1 1\nmove -4194304 4194304 1048576\nclaim 15\nfinish 0\npublish 11\n\
        begin 9\nend 10\n";
    assert_eq!(rt; text.as_slice(), want.as_slice());
    let script = read_play(rt.alloc(), &text)?;
    for (i, (pass, event)) in steps.into_iter().enumerate() {
        assert_eq!(rt;
            script.steps.get(i).copied(),
            Some(Step::Book { pass, event })
        );
    }
    Ok(())
}

#[test]
fn writes_logs(rt: HostRuntime) -> Result<(), Fail> {
    let tile = TileId { tx: 1, ty: 0 };
    let region = Region {
        x0: -6,
        y0: -6,
        x1: 8,
        y1: 10,
    };
    let job = Answer::Job {
        level: 0,
        bx: 1,
        by: -1,
        cells: Region {
            x0: 9,
            y0: -6,
            x1: 10,
            y1: -1,
        },
        plan: 1,
    };
    for (event, answer, want) in [
        (
            Event::Move { x: 3, y: -1, a: 0 },
            Answer::Moved,
            "move 3 -1: moved\n",
        ),
        (
            Event::Move { x: 3, y: 1, a: 17 },
            Answer::Moved,
            "move 3 1 17: moved\n",
        ),
        (
            Event::Claim,
            job,
            "claim 3: job level 0 block 1 -1 cells 9 -6 10 -1 plan 1\n",
        ),
        (Event::Claim, Answer::Idle, "claim 3: idle\n"),
        (Event::Claim, Answer::Ripe { level: 2 }, "claim 3: ripe 2\n"),
        (
            Event::Claim,
            Answer::Busy {
                level: 0,
                tile,
                frame: 7,
            },
            "claim 3: busy level 0 tile 1 0 frame 7\n",
        ),
        (
            Event::Claim,
            Answer::Held {
                level: 1,
                tile,
                pass: 15,
            },
            "claim 3: held level 1 tile 1 0 pass 15\n",
        ),
        (Event::Claim, Answer::HasWork, "claim 3: haswork\n"),
        (Event::Finish, Answer::Kept, "finish 3: kept\n"),
        (
            Event::Finish,
            Answer::Stale { plan: 0, now: 2 },
            "finish 3: stale 0 now 2\n",
        ),
        (Event::Finish, Answer::Idle, "finish 3: nojob\n"),
        (
            Event::Publish { level: 0 },
            Answer::Grown { region },
            "publish 0: grown -6 -6 8 10\n",
        ),
        (
            Event::Publish { level: 1 },
            Answer::Waiting { pieces: 9 },
            "publish 1: waiting 9\n",
        ),
        (
            Event::Publish { level: 0 },
            Answer::Whole,
            "publish 0: whole\n",
        ),
        (
            Event::Begin,
            Answer::Frame { number: 0 },
            "begin 3: frame 0\n",
        ),
        (
            Event::Begin,
            Answer::Held {
                level: 0,
                tile,
                pass: 0,
            },
            "begin 3: held level 0 tile 1 0 pass 0\n",
        ),
        (Event::End, Answer::NoFrame, "end 3: noframe\n"),
    ] {
        let mut text = Vec::new(rt.alloc());
        write_log(&mut text, 3, &event, &answer)?;
        assert_eq!(rt; text.as_slice(), want.as_bytes(), "{want}");
    }
    Ok(())
}
