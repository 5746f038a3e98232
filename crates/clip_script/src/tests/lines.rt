//! Each line form, with its numbers at their limits and one past them.
use crate::{
    FlyLine, HalfSpace, PlayScript, ScriptFault, Step, View, read_fly, read_play, read_swarm,
};
use plan_model::Event;
use std::alloc::Global;
use std::test::Fail;

// A play script of twelve levels with one more line.
fn play_of(alloc: Global, line: &str) -> Result<PlayScript, Fail> {
    let text = format!(in alloc; "size 4 12\n{line}\n")?;
    Ok(read_play(alloc, text.as_bytes())?)
}

#[test]
fn reads_steps(rt: HostRuntime) -> Result<(), Fail> {
    let event = |event: Event| Step::Book { pass: 0, event };
    let moved = |x: i32, y: i32, a: u32| event(Event::Move { x, y, a });
    for (line, step) in [
        ("move 4194304 -4194304", moved(4_194_304, -4_194_304, 0)),
        ("move 1 1 0", moved(1, 1, 0)),
        ("move 0 -1 1048576", moved(0, -1, 1_048_576)),
        ("claim 0", event(Event::Claim)),
        ("finish 0", event(Event::Finish)),
        ("publish 0", event(Event::Publish { level: 0 })),
        ("publish 11", event(Event::Publish { level: 11 })),
        ("begin 0", event(Event::Begin)),
        ("end 0", event(Event::End)),
        (
            "claim 15",
            Step::Book {
                pass: 15,
                event: Event::Claim,
            },
        ),
        (
            "end 15",
            Step::Book {
                pass: 15,
                event: Event::End,
            },
        ),
        ("endseen 15", Step::EndSeen { pass: 15 }),
        ("see", Step::See(View::empty())),
    ] {
        let script = play_of(rt.alloc(), line)?;
        assert_eq!(rt; (script.k, script.levels), (4, 12));
        assert_eq!(rt; script.steps.as_slice(), [step].as_slice(), "{line}");
    }
    Ok(())
}

#[test]
fn reads_views(rt: HostRuntime) -> Result<(), Fail> {
    let first = HalfSpace {
        a: 1_048_576,
        b: -1_048_576,
        c: 0,
        d: 1_099_511_627_776,
    };
    let other = HalfSpace {
        a: 1,
        b: 0,
        c: 0,
        d: -1_099_511_627_776,
    };
    let mut view = View::empty();
    view.add(first);
    let one = "see 1048576 -1048576 0 1099511627776";
    assert_eq!(rt;
        play_of(rt.alloc(), one)?.steps.as_slice(),
        [Step::See(view)].as_slice()
    );
    view.add(other);
    view.add(other);
    view.add(other);
    view.add(other);
    view.add(other);
    let last = "1 0 0 -1099511627776";
    let six = format!(in rt.alloc(); "{one} {last} {last} {last} {last} {last}")?;
    assert_eq!(rt;
        play_of(rt.alloc(), &six)?.steps.as_slice(),
        [Step::See(view)].as_slice()
    );
    Ok(())
}

#[test]
fn refuses_lines(rt: HostRuntime) -> Result<(), Fail> {
    for line in [
        " ",
        " claim 0",
        "claim 0 ",
        "claim  0",
        "claim\t0",
        "claim 0\r",
        "claim",
        "claim ",
        "claim 16",
        "claim -1",
        "claim -0",
        "claim +1",
        "claim 00",
        "claim 01",
        "claim 0 0",
        "claim \u{661}",
        "Claim 0",
        "claims 0",
        "finish 16",
        "begin 16",
        "end 16",
        "endseen 16",
        "endseen",
        "publish",
        "publish L",
        "publish 12",
        "publish -1",
        "move 1",
        "move 1 4194305",
        "move -4194305 1",
        "move -0 1",
        "move 1 1 1048577",
        "move 1 1 -1",
        "move 1 1 01",
        "move 1 1 1 1",
        "see ",
        "see 1 0 0",
        "see 1 0 0 0 1",
        "see 1048577 0 0 0",
        "see 0 -1048577 0 0",
        "see 0 0 1048577 0",
        "see 0 0 0 1099511627777",
        "see 1 0 0 0 1 0 0 0 1 0 0 0 1 0 0 0 1 0 0 0 1 0 0 0 1 0 0 0",
        "size 4 12",
        "frame",
        "settle",
        "work 1 1",
        "pause",
    ] {
        let text = format!(in rt.alloc(); "size 4 12\nbegin 0\n{line}\nno line\n")?;
        let fault = read_play(rt.alloc(), text.as_bytes()).err();
        assert_eq!(rt; fault, Some(ScriptFault::BadLine { line: 3 }), "{line:?}");
    }
    Ok(())
}

#[test]
fn reads_sizes(rt: HostRuntime) -> Result<(), Fail> {
    for (line, sizes) in [
        ("size 4 1", Some((4, 1))),
        ("size 8 12", Some((8, 12))),
        ("size 3 1", None),
        ("size 9 1", None),
        ("size 4 0", None),
        ("size 4 13", None),
        ("size 4", None),
        ("size 4 1 1", None),
        ("size 4 1 ", None),
        ("size  4 1", None),
        ("size 04 1", None),
        ("move 1 1", None),
    ] {
        let read = read_play(rt.alloc(), line.as_bytes());
        assert_eq!(rt;
            read.ok().map(|script| (script.k, script.levels)),
            sizes,
            "{line}"
        );
        let read = read_fly(rt.alloc(), line.as_bytes());
        assert_eq!(rt;
            read.ok().map(|script| (script.k, script.levels)),
            sizes,
            "{line}"
        );
    }
    Ok(())
}

#[test]
fn publishes_levels_that_are_there(rt: HostRuntime) {
    assert!(rt; read_play(rt.alloc(), b"size 4 2\npublish 1").is_ok());
    let fault = read_play(rt.alloc(), b"size 4 2\npublish 2").err();
    assert_eq!(rt; fault, Some(ScriptFault::BadLine { line: 2 }));
}

#[test]
fn reads_lines_of_flights(rt: HostRuntime) -> Result<(), Fail> {
    let script = read_fly(
        rt.alloc(),
        b"size 6 6\nmove 600 600\n\nsettle\n#\nframe\nmove 1 -2 3",
    )?;
    assert_eq!(rt; (script.k, script.levels), (6, 6));
    let lines = [
        FlyLine::Move {
            x: 600,
            y: 600,
            a: 0,
        },
        FlyLine::Settle,
        FlyLine::Frame,
        FlyLine::Move { x: 1, y: -2, a: 3 },
    ];
    assert_eq!(rt; script.lines.as_slice(), lines.as_slice());
    for line in [
        "frame ",
        "settle 1",
        "frame 0",
        "claim 0",
        "see",
        "move 1 1 1048577",
    ] {
        let text = format!(in rt.alloc(); "size 6 6\n{line}")?;
        let fault = read_fly(rt.alloc(), text.as_bytes()).err();
        assert_eq!(rt; fault, Some(ScriptFault::BadLine { line: 2 }), "{line}");
    }
    Ok(())
}

#[test]
fn reads_work(rt: HostRuntime) -> Result<(), Fail> {
    let script = read_swarm(
        rt.alloc(),
        b"#\nsize 4 1\n\nwork 100000 1000\nmove 1 1\nmove 3 -1 2\n",
    )?;
    assert_eq!(rt; (script.k, script.levels), (4, 1));
    assert_eq!(rt; (script.claims, script.begins), (100_000, 1000));
    assert_eq!(rt; script.moves.as_slice(), [(1, 1, 0), (3, -1, 2)].as_slice());
    for (text, line) in [
        ("size 4 1\n", 2),
        ("size 4 1", 2),
        ("size 4 1\n#\n\n", 4),
        ("size 4 1\nmove 1 1\n", 2),
        ("size 4 1\nwork 100001 0\n", 2),
        ("size 4 1\nwork 0 1001\n", 2),
        ("size 4 1\nwork 0\n", 2),
        ("size 4 1\nwork 0 0\nwork 0 0\n", 3),
        ("size 4 1\nwork 0 0\n\nclaim 0\n", 4),
        ("size 4 1\nwork 0 0\nmove 1 1\nmove 1\n", 4),
        ("work 0 0\nsize 4 1\n", 1),
    ] {
        let fault = read_swarm(rt.alloc(), text.as_bytes()).err();
        assert_eq!(rt; fault, Some(ScriptFault::BadLine { line }), "{text:?}");
    }
    Ok(())
}
