//! A run with each call of the shelf and of the sink failing in turn: what stands, and that no further call is made.
use memory_runs::{Left, run, run_failing};
use std::alloc::{AllocError, Global};
use std::process::Abort;
use std::test::Fail;
use std::thread::Threads;

// The name of a file that is put, or an empty one for none, and a line that is written then.
pub(crate) type Act<'a> = (&'a str, &'a str);

// A run to be tried: its words, its files, how often it fetches, its status where no call fails, and what it then
// does.
#[derive(Drop)]
pub(crate) struct Trial<'a> {
    pub(crate) words: &'a [&'a str],
    pub(crate) files: &'a [(&'a str, &'a [u8])],
    pub(crate) fetches: usize,
    pub(crate) status: u8,
    pub(crate) acts: &'a [Act<'a>],
}

// The names under which runs put files, where OUT is `o`.
pub(crate) const OUTS: [&str; 7] = [
    "o", "o-0.obj", "o-1.obj", "o-2.obj", "o-3.obj", "o-4.obj", "o-5.obj",
];

// The file of that name before the run.
fn before<'a>(files: &'a [(&'a str, &'a [u8])], wanted: &str) -> Option<&'a [u8]> {
    for (name, bytes) in files {
        if *name == wanted {
            return Some(*bytes);
        }
    }
    None
}

// How many of the first acts put a file.
fn puts_of(acts: &[Act<'_>], count: usize) -> usize {
    acts.iter()
        .take(count)
        .filter(|act| !act.0.is_empty())
        .count()
}

// Whether the files that a run doesn't put are as they were, and none stands under another name.
fn others_stay(left: &Left, trial: &Trial<'_>) -> bool {
    let mut passed = true;
    for (name, bytes) in trial.files {
        let is_put = trial.acts.iter().any(|act| act.0 == *name);
        passed &= is_put || left.file(name) == Some(*bytes);
    }
    for name in OUTS {
        let is_put = trial.acts.iter().any(|act| act.0 == name);
        passed &= is_put || left.file(name) == before(trial.files, name);
    }
    passed
}

// Whether so many puts were done and so many lines written of a run, and nothing else. The whole run has each file
// that is put.
fn stands(left: &Left, whole: &Left, trial: &Trial<'_>, puts: usize, lines: usize) -> bool {
    let mut rest = left.log();
    let mut done = 0usize;
    let mut passed = true;
    for (number, act) in trial.acts.iter().enumerate() {
        let (name, line) = *act;
        if number < lines {
            passed &= rest.starts_with(line.as_bytes());
            rest = rest.get(line.len()..).unwrap_or(b"");
        }
        if !name.is_empty() {
            let old = before(trial.files, name);
            let new = whole.file(name);
            passed &= new != old && left.file(name) == if done < puts { new } else { old };
            done = done.saturating_add(1);
        }
    }
    passed && rest.is_empty() && others_stay(left, trial)
}

// The shelf fails at each of its fetches, of which nothing stands, and at each of its puts, of which all before stands.
fn fail_shelf<R: Threads + Sync + AllocGlobal>(
    rt: &R,
    trial: &Trial<'_>,
    whole: &Left,
) -> Result<bool, Fail> {
    let mut passed = true;
    for call in 0..trial.fetches {
        let left = run_failing(rt, trial.words, trial.files, &[call as u64], &[])?;
        passed &= left.status == 3 && stands(&left, whole, trial, 0, 0);
    }
    for (number, act) in trial.acts.iter().enumerate() {
        if !act.0.is_empty() {
            let puts = puts_of(trial.acts, number);
            let call = trial.fetches.saturating_add(puts);
            let left = run_failing(rt, trial.words, trial.files, &[call as u64], &[])?;
            passed &= left.status == 3 && stands(&left, whole, trial, puts, number);
        }
    }
    Ok(passed)
}

// The sink fails at each of its writes: the lines before stand, and so does the file that was put before this one.
fn fail_sink<R: Threads + Sync + AllocGlobal>(
    rt: &R,
    trial: &Trial<'_>,
    whole: &Left,
) -> Result<bool, Fail> {
    let mut passed = true;
    for call in 0..trial.acts.len() {
        let left = run_failing(rt, trial.words, trial.files, &[], &[call as u64])?;
        let puts = puts_of(trial.acts, call.saturating_add(1));
        passed &= left.status == 4 && stands(&left, whole, trial, puts, call);
    }
    Ok(passed)
}

// Tries a run with each of its calls failing in turn. Without a failing call, and where only the calls behind its own
// would fail, all of it stands.
pub(crate) fn tried<R: Threads + Sync + AllocGlobal>(
    rt: &R,
    trial: &Trial<'_>,
) -> Result<bool, Fail> {
    let whole = run(rt, trial.words, trial.files)?;
    let lines = trial.acts.len();
    let puts = puts_of(trial.acts, lines);
    let calls = trial.fetches.saturating_add(puts);
    let later = run_failing(
        rt,
        trial.words,
        trial.files,
        &[calls as u64],
        &[lines as u64],
    )?;
    let is_done = whole.status == trial.status && stands(&whole, &whole, trial, puts, lines);
    let is_later_done = later.status == trial.status && stands(&later, &whole, trial, puts, lines);
    let shelf = fail_shelf(rt, trial, &whole)?;
    let sink = fail_sink(rt, trial, &whole)?;
    Ok(is_done && is_later_done && shelf && sink)
}

// The words of a line.
pub(crate) fn words_of<'a>(alloc: Global, line: &'a str) -> Result<Vec<&'a str>, AllocError> {
    let mut words = Vec::new(alloc);
    for word in line.split(' ') {
        words.push(word)?;
    }
    Ok(words)
}

// A line of words, how often its run fetches, its status where no call fails, and what it then does.
pub(crate) type Row<'a> = (&'a str, usize, u8, &'a [Act<'a>]);

// Tries each line of a table over these files.
pub(crate) fn try_each<R: Threads + Sync + AllocGlobal + Abort>(
    rt: &R,
    files: &[(&str, &[u8])],
    table: &[Row<'_>],
) -> Result<(), Fail> {
    for (line, fetches, status, acts) in table {
        let words = words_of(rt.alloc(), line)?;
        let trial = Trial {
            words: words.as_slice(),
            files,
            fetches: *fetches,
            status: *status,
            acts,
        };
        assert!(rt; tried(rt, &trial)?, "{line}");
    }
    Ok(())
}
