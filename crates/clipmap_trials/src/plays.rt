//! Plays with each call of the shelf and of the sink failing in turn: the files and lines of earlier events stand.
use crate::trial::{Act, OUTS, Trial, tried, try_each, words_of};
use memory_runs::{NINE, STORE, run, run_failing};
use std::alloc::{AllocError, Global};
use std::test::Fail;
use std::thread::Threads;

// A play of twenty events, in which three frames are begun and ended in another order.
const EVENTS: &[u8] = b"size 4 1\n\
    claim 0\nclaim 1\nfinish 1\nbegin 2\nend 2\n\
    publish 0\nmove 41 1\nfinish 0\nbegin 3\nbegin 3\n\
    begin 4\nclaim 3\nend 4\nend 4\nfinish 5\n\
    claim 0\nclaim 1\nfinish 0\nend 3\nclaim 2\n";

// What it does: the files that it puts under the name `o`, and its lines.
const ACTS: [Act<'static>; 20] = [
    (
        "",
        "claim 0: job level 0 block -1 -1 cells -6 -6 -1 -1 plan 0\n",
    ),
    (
        "",
        "claim 1: job level 0 block 0 -1 cells 0 -6 7 -1 plan 0\n",
    ),
    ("", "finish 1: kept\n"),
    ("", "begin 2: frame 0\n"),
    ("o-0.obj", "end 2: closed 0 vertices 0 triangles 0\n"),
    ("", "publish 0: waiting 8\n"),
    ("", "move 41 1: moved\n"),
    ("", "finish 0: stale 0 now 1\n"),
    ("", "begin 3: frame 1\n"),
    ("", "begin 3: haswork\n"),
    ("", "begin 4: frame 2\n"),
    ("", "claim 3: haswork\n"),
    ("o-2.obj", "end 4: closed 2 vertices 0 triangles 0\n"),
    ("", "end 4: noframe\n"),
    ("", "finish 5: nojob\n"),
    (
        "",
        "claim 0: job level 0 block 4 -1 cells 34 -6 39 -1 plan 1\n",
    ),
    (
        "",
        "claim 1: job level 0 block 5 -1 cells 40 -6 47 -1 plan 1\n",
    ),
    ("", "finish 0: kept\n"),
    ("o-1.obj", "end 3: closed 1 vertices 0 triangles 0\n"),
    (
        "",
        "claim 2: job level 0 block 6 -1 cells 48 -6 48 -1 plan 1\n",
    ),
];

// The script with tiles side by side, scripts and a store that are refused, and an old file under the name of a frame.
const FILES: [(&str, &[u8]); 7] = [
    ("s", EVENTS),
    ("N00E000.hgt", &NINE),
    ("N00E001.hgt", &NINE),
    ("N00E003.hgt", b"short"),
    ("a.gct", &STORE),
    ("bad", b"size 4 1\n\nclaim 16\n"),
    ("o-1.obj", b"old"),
];

#[test]
fn each_call_of_a_play_fails(rt: HostRuntime) -> Result<(), Fail> {
    let table = [
        ("play s o N00E000.hgt", 2, 0, ACTS.as_slice()),
        ("play s o N00E000.hgt N00E001.hgt", 3, 0, ACTS.as_slice()),
        (
            "play bad o N00E000.hgt",
            1,
            2,
            [("", "fault: BadLine 3\n")].as_slice(),
        ),
        (
            "play t o N00E000.hgt",
            1,
            2,
            [("", "fault: Absent t\n")].as_slice(),
        ),
        (
            "play s o N00E000.hgt N91E000.hgt",
            1,
            2,
            [("", "fault: BadName N91E000.hgt\n")].as_slice(),
        ),
        (
            "play s o N00E000.hgt N00E003.hgt",
            3,
            2,
            [("", "fault: BadLength N00E003.hgt 5\n")].as_slice(),
        ),
        (
            "play s o a.gct",
            2,
            2,
            [("", "fault: LevelsDiffer 2 1\n")].as_slice(),
        ),
    ];
    try_each(&rt, &FILES, &table)
}

// A script that fills two levels, and draws and ends five frames of them, of which a view keeps parts of one.
fn full_script(alloc: Global) -> Result<String, AllocError> {
    let mut script = String::from_str(alloc, "size 4 2\nbegin 9\n")?;
    for level in ["publish 1\n", "publish 0\n"] {
        for _ in 0..9u8 {
            script.push_str("claim 0\nfinish 0\n")?;
        }
        script.push_str(level)?;
        script.push_str("begin 1\nend 1\n")?;
    }
    script.push_str("see 1 0 0 -9\nbegin 0\nbegin 1\nmove 41 1\nendseen 0\nclaim 0\n")?;
    script.push_str("finish 0\nsee\nendseen 1\nend 9\nend 9\n")?;
    Ok(script)
}

// How many files a run fetches, how many lines it writes, and how many files it puts.
#[derive(Clone, Copy)]
struct Counts {
    fetches: usize,
    lines: usize,
    puts: usize,
}

// The name of the file that is put before a line of a log, where one is: frames are numbered with one digit here.
fn file_of(line: &str) -> &'static str {
    let Some((_, rest)) = line.split_once(": closed ") else {
        return "";
    };
    let digit = rest.as_bytes().first().copied().unwrap_or(b'9');
    OUTS.get(usize::from(digit.saturating_sub(b'0')).saturating_add(1))
        .copied()
        .unwrap_or("none")
}

// Tries a run by the lines of its own log, which are so many, and of which so many tell of a file.
fn tried_by_its_log<R: Threads + Sync + AllocGlobal>(
    rt: &R,
    words: &[&str],
    files: &[(&str, &[u8])],
    counts: Counts,
) -> Result<bool, Fail> {
    let whole = run(rt, words, files)?;
    let log = str::from_utf8(whole.log())?;
    let mut acts = Vec::new(rt.alloc());
    for line in log.split_inclusive('\n') {
        acts.push((file_of(line), line))?;
    }
    let trial = Trial {
        words,
        files,
        fetches: counts.fetches,
        status: 0,
        acts: acts.as_slice(),
    };
    let puts = acts.iter().filter(|act| !act.0.is_empty()).count();
    Ok(acts.len() == counts.lines && puts == counts.puts && tried(rt, &trial)?)
}

// A flight of one frame.
const FLIGHT: &[u8] = b"size 4 1\nmove 1 1\nsettle\nframe\n";

// A play and flights whose frames have triangles.
#[test]
fn each_call_of_a_long_run_fails(rt: HostRuntime) -> Result<(), Fail> {
    let script = full_script(rt.alloc())?;
    let files = [
        ("s", script.as_bytes()),
        ("f", FLIGHT),
        ("a.gct", STORE.as_slice()),
        ("N00E000.hgt", NINE.as_slice()),
        ("o", b"old".as_slice()),
    ];
    let table = [
        (
            "play s o a.gct",
            Counts {
                fetches: 2,
                lines: 54,
                puts: 5,
            },
        ),
        (
            "fly 1 f o N00E000.hgt",
            Counts {
                fetches: 2,
                lines: 23,
                puts: 1,
            },
        ),
        (
            "fly 2 f o N00E000.hgt",
            Counts {
                fetches: 2,
                lines: 24,
                puts: 1,
            },
        ),
        (
            "fly 15 f o N00E000.hgt",
            Counts {
                fetches: 2,
                lines: 27,
                puts: 1,
            },
        ),
    ];
    for (line, counts) in table {
        let words = words_of(rt.alloc(), line)?;
        assert!(rt; tried_by_its_log(&rt, &words, &files, counts)?, "{line}");
    }
    Ok(())
}

// A demo has one call, that of its line.
#[test]
fn the_call_of_a_demo_fails(rt: HostRuntime) -> Result<(), Fail> {
    let files = [("o", b"old".as_slice())];
    let left = run_failing(&rt, &["demo", "0"], &files, &[0, 1], &[0])?;
    assert_eq!(rt; left.status, 4);
    assert!(rt; left.sink.bytes().is_empty() && left.out() == b"old".as_slice());
    for name in OUTS {
        assert!(rt; name == "o" || left.shelf.file(name).is_none(), "{name}");
    }
    Ok(())
}
