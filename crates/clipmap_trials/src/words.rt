//! Faulty words of a command line.
use clipmap_prog::run_program;
use memory_runs::{NINE, TILE, run_failing, shelf_of};
use outer_shelf::MemorySink;
use std::io;
use std::process::Termination;
use std::thread::Threads;

// The words of the first frame.
const FIRST: [&str; 7] = ["frame", "4", "1", "1", "1", "o", TILE];

// Words that couldn't be read are no command, and words for which there was no memory end the program with 5.
#[test]
fn words_that_cannot_be_read(rt: HostRuntime) {
    let alloc = rt.alloc();
    let table = [
        (io::ErrorKind::InvalidData, "1", "fault: words\n"),
        (io::ErrorKind::OutOfMemory, "5", ""),
    ];
    for (kind, status, output) in table {
        let mut shelf = shelf_of(alloc, &[(TILE, &NINE)], &[]).expect(&rt, "memory");
        let mut sink = MemorySink::new(alloc, Vec::new(alloc));
        let words = Err(io::Error::from(kind));
        let ended = run_program(&rt, alloc, words, &mut shelf, &mut sink);
        let code = ended.report(&rt);
        let shown = format!(in alloc; "{code:?}").expect(&rt, "memory");
        let want = format!(in alloc; "ExitCode(unix_exit_status({status}))").expect(&rt, "memory");
        assert_eq!(rt; shown.as_str(), want.as_str());
        assert_eq!(rt; sink.bytes(), output.as_bytes());
    }
}

// Words of `frame` with one of them changed.
fn changed<'a>(place: usize, word: &'a str) -> [&'a str; 7] {
    let mut words = FIRST;
    if place < 7 {
        words[place] = word;
    }
    words
}

// Whether the words are answered as faulty, with nothing fetched: the first call of the shelf would fail.
fn are_faulty<R: Threads + Sync + AllocGlobal>(rt: &R, words: &[&str]) -> bool {
    match run_failing(rt, words, &[(TILE, &NINE)], &[0], &[]) {
        Ok(left) => left.status == 1 && left.log() == b"fault: words\n".as_slice(),
        Err(_) => false,
    }
}

#[test]
fn faulty_words(rt: HostRuntime) {
    let table = [
        (0, ""),
        (0, "Frame"),
        (0, "frames"),
        (0, "frame "),
        (0, "Fly"),
        (0, "swarm"),
        (0, "check"),
        (0, "demo"),
        (1, ""),
        (1, "3"),
        (1, "9"),
        (1, "+4"),
        (1, "04"),
        (1, "4 "),
        (1, "4.0"),
        (1, "-4"),
        (1, "four"),
        (1, "18446744073709551620"),
        (2, "0"),
        (2, "13"),
        (2, "01"),
        (2, "-1"),
        (2, "1e0"),
        (3, "4194305"),
        (3, "-4194305"),
        (3, "-0"),
        (3, "+1"),
        (3, "01"),
        (3, "-01"),
        (3, "1,0"),
        (3, "--1"),
        (3, "-"),
        (3, "99999999999999999999"),
        (4, "4194305"),
        (4, "-4194305"),
        (4, "-0"),
        (4, " 1"),
        (4, "1\n"),
        (5, ""),
        (5, "out\0.obj"),
        (6, ""),
        (6, "N00E000\0.hgt"),
    ];
    for (place, word) in table {
        assert!(rt; are_faulty(&rt, &changed(place, word)), "{place} {word}");
    }
}

#[test]
fn faulty_counts_of_words(rt: HostRuntime) {
    let alloc = rt.alloc();
    for count in 0..7usize {
        let words = FIRST;
        assert!(rt; are_faulty(&rt, &words[..count]), "{count}");
    }
    let mut words = Vec::from_slice(alloc, &FIRST).expect(&rt, "memory");
    words.push("tile.gct").expect(&rt, "memory");
    assert!(rt; are_faulty(&rt, words.as_slice()), "a store beside a tile");
    words.clear();
    words.extend_from_slice(&FIRST[..6]).expect(&rt, "memory");
    for _ in 0..64 {
        words.push(TILE).expect(&rt, "memory");
    }
    assert!(rt; !are_faulty(&rt, words.as_slice()), "64 inputs");
    words.push(TILE).expect(&rt, "memory");
    assert!(rt; are_faulty(&rt, words.as_slice()), "65 inputs");
    let long = [b'a'; 201];
    let long = str::from_utf8(&long).expect(&rt, "text");
    assert!(rt; are_faulty(&rt, &changed(5, long)), "a name of 201 bytes");
    assert!(rt;
        !are_faulty(&rt, &changed(5, &long[..200])),
        "a name of 200 bytes"
    );
}
