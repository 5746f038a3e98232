//! Random play scripts, whose files and lines are those of the plain programs.

ghost use Rattle.plan_model.specs.Limits.{IsSize, IsLevelCount};

use crate::plain::{Ground, Written, play, start};
use crate::runs::{hills, packed, run, script_of};
use clip_runs::Course;
use memchr::memmem;
use std::alloc::{AllocError, Global};
use std::process::Abort;
use std::test::Fail;
use std::thread::Threads;

// The next number of a generator.
fn next(seed: u64) -> u64 {
    seed.wrapping_mul(6364136223846793005)
        .wrapping_add(1442695040888963407)
}

// A number below n, of a seed, and 0 where n is 0.
fn below(seed: u64, n: u64) -> u64 {
    (seed >> 33).checked_rem(n).unwrap_or(0)
}

// A coordinate: mostly in or near the first window, and sometimes anywhere within the limits.
fn coordinate(alloc: Global, seed: u64) -> Result<String, AllocError> {
    let (far, near, small) = (
        below(seed, 4194304).saturating_add(1),
        below(seed, 40).saturating_add(1),
        below(seed, 9),
    );
    match below(next(seed), 12) {
        0 => format!(in alloc; "-{far}"),
        1..3 => format!(in alloc; "-{near}"),
        3..5 => format!(in alloc; "{near}"),
        _ => format!(in alloc; "{small}"),
    }
}

// A move, with an altitude now and then.
fn moved(alloc: Global, seed: u64) -> Result<String, AllocError> {
    let x = coordinate(alloc, next(seed))?;
    let y = coordinate(alloc, next(next(next(seed))))?;
    let a = below(next(next(seed)), 100);
    if below(seed, 3) == 0 {
        return format!(in alloc; "move {x} {y} {a}\n");
    }
    format!(in alloc; "move {x} {y}\n")
}

// A line of a play script of so many levels, or two. The plain text of what a view keeps takes long, so views are
// looked through where there is one level of the least size.
fn line_of(alloc: Global, seed: u64, k: u8, levels: u8) -> Result<String, AllocError> {
    let pass = below(next(seed), 9);
    let level = below(next(seed), u64::from(levels));
    match below(seed, 100) {
        0 => moved(alloc, next(seed)),
        1..4 => format!(in alloc; "begin {pass}\n"),
        4..9 => format!(in alloc; "end {pass}\n"),
        9..11 if k == 4 && levels == 1 => format!(in alloc; "endseen {pass}\n"),
        9..12 => format!(in alloc; "end {pass}\n"),
        12 => format!(in alloc; "see 1 0 -1 {pass} 0 1 0 {level}\n"),
        13..30 => format!(in alloc; "claim {pass}\n"),
        30..47 => format!(in alloc; "finish {pass}\n"),
        47..85 => format!(in alloc; "claim {pass}\nfinish {pass}\n"),
        _ => format!(in alloc; "publish {level}\n"),
    }
}

// A play script of so many random lines or more.
fn script_text(
    alloc: Global,
    k: u8,
    levels: u8,
    seed: u64,
    count: u32,
) -> Result<String, AllocError> {
    let mut text = format!(in alloc; "size {k} {levels}\n")?;
    let mut seed = seed;
    'made: for _ in 0..count {
        seed = next(seed);
        text.push_str(line_of(alloc, seed, k, levels)?.as_str())?;
    }
    Ok(text)
}

// Plays a random script and compares its files and its lines, which it hands out.
fn compare<R: Threads + Sync + AllocGlobal + Abort>(
    rt: &R,
    k: u8,
    levels: u8,
    seed: u64,
) -> Result<Vec<u8>, Fail>
    requires size { IsSize k }
    requires many { IsLevelCount levels }
{
    let alloc = rt.alloc();
    let grid = hills(alloc, seed)?;
    let text = script_text(alloc, k, levels, seed, 500)?;
    let script = script_of(alloc, text.as_bytes(), levels)?;
    let store = packed(alloc, &grid, levels)?;
    let left = run(rt, &store, &Course::Play(&script))?;
    let ground = Ground { grid, k };
    let mut book = start(alloc, k, levels)?;
    let mut written = Written::new(alloc);
    let steps = script.steps.as_slice();
    play(rt, alloc, &ground, &mut book, &mut written, steps)?;
    assert!(rt; left.log() == written.log.as_slice(), "seed {seed}");
    for (name, bytes) in &written.files {
        assert!(rt;
            left.file(name.as_str()) == bytes.as_slice(),
            "seed {seed} {name}"
        );
    }
    Ok(written.log)
}

// How many lines of a log have an answer that begins so, and another end than this.
fn count(log: &[u8], answer: &str, end: &str) -> usize {
    log.split(|byte| *byte == b'\n')
        .filter(|line| {
            memmem::find(line, answer.as_bytes()).is_some() && !line.ends_with(end.as_bytes())
        })
        .count()
}

#[test]
fn random_scripts(rt: HostRuntime) -> Result<(), Fail> {
    let mut log = Vec::new(rt.alloc());
    log.extend_from_slice(&compare(&rt, 4, 1, 1)?)?;
    log.extend_from_slice(&compare(&rt, 4, 1, 4)?)?;
    log.extend_from_slice(&compare(&rt, 4, 2, 2)?)?;
    log.extend_from_slice(&compare(&rt, 4, 3, 3)?)?;
    log.extend_from_slice(&compare(&rt, 4, 4, 5)?)?;
    log.extend_from_slice(&compare(&rt, 5, 2, 6)?)?;
    // Whole frames, and answers of each kind.
    let drawn = count(&log, ": closed ", "triangles 0");
    assert!(rt; drawn > 15, "{drawn}");
    let kept = count(&log, " kept ", "triangles 0");
    assert!(rt; kept > 0, "{kept}");
    let answers = [
        ": job ",
        ": idle",
        ": ripe ",
        ": busy ",
        ": held ",
        ": haswork",
        ": kept",
        ": stale ",
        ": nojob",
        ": grown ",
        ": waiting ",
        ": whole",
        ": noframe",
    ];
    for answer in answers {
        assert!(rt; count(&log, answer, "none") > 0, "{answer}");
    }
    Ok(())
}
