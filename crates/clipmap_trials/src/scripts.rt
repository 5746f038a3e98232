//! Scripts that are cut and changed: the reader and a `play` say the same of them.
use crate::changes::{below, changed, next};
use clip_script::{ScriptFault, read_play};
use memory_runs::{Left, NINE, TILE, lines, run};
use std::alloc::{AllocError, Global};
use std::test::Fail;
use std::thread::Threads;

// A line of a play script, of a seed.
fn line_of(alloc: Global, seed: u64) -> Result<String, AllocError> {
    let (x, y) = (below(next(seed), 81), below(next(next(seed)), 81));
    let pass = below(next(seed), 16);
    match below(seed, 20) {
        0 => format!(in alloc; "move {x} -{y}\n"),
        1 => format!(in alloc; "move -4194304 4194304 {y}\n"),
        2 => format!(in alloc; "begin {pass}\n"),
        3 => format!(in alloc; "end {pass}\n"),
        4 => format!(in alloc; "endseen {pass}\n"),
        5 => format!(in alloc; "see\n"),
        6 => format!(in alloc; "see 1 0 -1 {x} -7 1048576 0 1099511627776\n"),
        7 => format!(in alloc; "# line {x}\n\n"),
        8 => format!(in alloc; "publish 0\n"),
        9 => format!(in alloc; "publish 1\n"),
        10..15 => format!(in alloc; "claim {pass}\n"),
        _ => format!(in alloc; "finish {pass}\n"),
    }
}

// A play script of so many random lines.
fn long_script(alloc: Global, count: u32) -> Result<Vec<u8>, AllocError> {
    let mut text = Vec::from_slice(alloc, b"# A long script.\nsize 4 2\n")?;
    let mut seed = 3;
    for _ in 0..count {
        seed = next(seed);
        text.extend_from_slice(line_of(alloc, seed)?.as_bytes())?;
    }
    Ok(text)
}

// What the reader of scripts says of a text: how many steps it has, or its first bad line.
#[derive(Drop)]
enum Said {
    Steps(usize),
    BadLine(u64),
}

// What is said of the text, if it may be: a script has fewer steps than lines, and a bad line is one of its lines or
// the one after them.
fn said_of(alloc: Global, text: &[u8]) -> Option<Said> {
    let open = !text.is_empty() && !text.ends_with(b"\n");
    let count = lines(text).saturating_add(usize::from(open));
    match read_play(alloc, text) {
        Ok(script) if script.steps.len() < count => Some(Said::Steps(script.steps.len())),
        Err(ScriptFault::BadLine { line }) if 1 <= line && line <= count.saturating_add(1) as u64 =>
            { Some(Said::BadLine(line)) }
        _ => None,
    }
}

// Whether the files that a play put are those of which its log tells, among the first hundred.
fn are_told(alloc: Global, left: &Left) -> Result<bool, Fail> {
    let mut told = 0usize;
    let mut passed = true;
    for line in str::from_utf8(left.log())?.split('\n') {
        if let Some((_, rest)) = line.split_once(": closed ") {
            let number = rest.split(' ').next().unwrap_or("");
            let name = format!(in alloc; "o-{number}.obj")?;
            passed &= left.file(name.as_str()).is_some();
            told = told.saturating_add(1);
        }
    }
    let mut there = 0usize;
    for number in 0..100u8 {
        let name = format!(in alloc; "o-{number}.obj")?;
        if left.file(name.as_str()).is_some() {
            there = there.saturating_add(1);
        }
    }
    Ok(passed && told == there)
}

// Whether a `play` does with the text what was said of it: it ends with the one line of its fault, and nothing else is
// written; or it has a line for each step, and the files of which its lines tell. What it read stays as it was.
fn agrees<R: Threads + Sync + AllocGlobal>(rt: &R, text: &[u8], said: &Said) -> Result<bool, Fail> {
    let alloc = rt.alloc();
    let files = [("s", text), (TILE, NINE.as_slice())];
    let left = run(rt, &["play", "s", "o", TILE], &files)?;
    let stays = left.file("s") == Some(text) && left.file(TILE) == Some(NINE.as_slice());
    let done = match said {
        Said::Steps(steps) => left.status == 0 && lines(left.log()) == *steps,
        Said::BadLine(line) => {
            let want = format!(in alloc; "fault: BadLine {line}\n")?;
            left.is_refused(want.as_bytes())
        }
    };
    Ok(stays && done && left.file("o").is_none() && are_told(alloc, &left)?)
}

// Whether something may be said of the text, and a `play` does the same. Of the refused texts only those that are
// picked are played. The number of steps of a script is added.
fn is_judged<R: Threads + Sync + AllocGlobal>(
    rt: &R,
    text: &[u8],
    picked: bool,
    steps: &mut usize,
) -> Result<bool, Fail> {
    let Some(said) = said_of(rt.alloc(), text) else {
        return Ok(false);
    };
    if let Said::Steps(count) = said {
        *steps = steps.saturating_add(count);
    } else if !picked {
        return Ok(true);
    }
    agrees(rt, text, &said)
}

// Each front of a long script.
#[test]
fn scripts_cut(rt: HostRuntime) -> Result<(), Fail> {
    let alloc = rt.alloc();
    let text = long_script(alloc, 400)?;
    let mut front = Vec::new(alloc);
    let mut steps = 0usize;
    for byte in &text {
        let length = front.len();
        let picked = length % 10 == 0;
        assert!(rt;
            is_judged(&rt, &front, picked, &mut steps)?,
            "cut to {length}"
        );
        front.push(*byte)?;
    }
    steps = 0;
    assert!(rt;
        is_judged(&rt, &front, true, &mut steps)? && steps > 300,
        "{steps}"
    );
    Ok(())
}

// One to four bytes of a long script changed at random.
#[test]
fn scripts_changed(rt: HostRuntime) -> Result<(), Fail> {
    let alloc = rt.alloc();
    let text = long_script(alloc, 400)?;
    let mut steps = 0usize;
    for seed in 0..20000u64 {
        let bytes = changed(alloc, &text, seed, true)?;
        let picked = seed % 100 == 0;
        assert!(rt; is_judged(&rt, &bytes, picked, &mut steps)?, "seed {seed}");
    }
    assert!(rt; steps > 20000, "{steps}");
    Ok(())
}

// So many line feeds.
fn empty_lines(alloc: Global, count: u32) -> Result<Vec<u8>, AllocError> {
    let mut text = Vec::with_capacity(alloc, count as usize)?;
    'filled: for _ in 0..count {
        text.push(b'\n')?;
    }
    Ok(text)
}

// Scripts of nothing but line feeds: as many lines as there may be, one more, and one byte more than a script may have.
#[test]
fn scripts_too_long(rt: HostRuntime) -> Result<(), Fail> {
    let table = [
        (0, "fault: BadLine 1\n"),
        (1048577, "fault: BadLine 1048578\n"),
        (1048578, "fault: TooMany 1048578\n"),
        (33554433, "fault: TooLong s 33554433 33554432\n"),
    ];
    for (count, want) in table {
        let text = empty_lines(rt.alloc(), count)?;
        let files = [("s", text.as_slice())];
        let left = run(&rt, &["play", "s", "o", TILE], &files)?;
        assert!(rt; left.is_refused(want.as_bytes()), "{want}");
        assert!(rt; left.file("s") == Some(text.as_slice()), "{want}");
    }
    Ok(())
}
