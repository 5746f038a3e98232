//! Worked examples of `fly`, over a shelf and a sink in memory.
use memory_runs::{Left, NINE, TILE, lines, run, run_failing};
use outer_shelf::NoMemory;
use std::test::Fail;
use std::thread::Threads;

// Flies over the tile with so many workers, where calls of the shelf and of the sink with these numbers fail.
fn flown<R: Threads + Sync + AllocGlobal>(
    rt: &R,
    workers: &str,
    shelf_failing: &[u64],
    sink_failing: &[u64],
) -> Result<Left, NoMemory> {
    let script = b"size 4 1\nmove 1 1\nsettle\nframe\n";
    let files = [("s", script.as_slice()), (TILE, NINE.as_slice())];
    let words = ["fly", workers, "s", "o", TILE];
    run_failing(rt, &words, &files, shelf_failing, sink_failing)
}

#[test]
fn flies_with_one_two_and_fifteen_workers(rt: HostRuntime) -> Result<(), Fail> {
    let words = ["frame", "4", "1", "1", "1", "o", TILE];
    let single = run(&rt, &words, &[(TILE, NINE.as_slice())])?;
    let tail = "begin 15: frame 0\nclaim 0: idle\nend 15: closed 0 vertices 225 triangles 392\n";
    for (workers, count) in [("1", 23), ("2", 24), ("15", 27)] {
        let left = flown(&rt, workers, &[], &[])?;
        assert_eq!(rt; left.status, 0);
        assert_eq!(rt; lines(left.log()), count);
        assert!(rt; left.log().ends_with(tail.as_bytes()));
        assert!(rt; left.file("o-0.obj").is_some());
        assert!(rt; left.file("o-0.obj") == single.file("o"));
    }
    Ok(())
}

// The script is judged before the names of the inputs. Nothing is put.
#[test]
fn refuses(rt: HostRuntime) -> Result<(), Fail> {
    let files = [
        ("s", b"size 4 1\nframe\n".as_slice()),
        ("bad", b"size 4 1\nclaim 0\n".as_slice()),
        (TILE, NINE.as_slice()),
    ];
    let table = [
        ("1", "t", "x", 2, "fault: Absent t\n"),
        ("1", "bad", "x", 2, "fault: BadLine 2\n"),
        ("1", "s", "x", 2, "fault: BadName x\n"),
        ("16", "s", TILE, 1, "fault: words\n"),
        ("0", "s", TILE, 1, "fault: words\n"),
    ];
    for (workers, script, input, status, want) in table {
        let left = run(&rt, &["fly", workers, script, "o", input], &files)?;
        assert_eq!(rt; left.status, status);
        assert_eq!(rt; left.log(), want.as_bytes());
        assert!(rt; left.file("o-0.obj").is_none());
    }
    Ok(())
}

// The calls of the shelf are the script's fetch, the tile's, and one put; those of the sink are the lines.
#[test]
fn fails_on_its_calls(rt: HostRuntime) -> Result<(), Fail> {
    let table: [(&[u64], &[u64], u8, usize, bool); 4] = [
        (&[1], &[], 3, 0, false),
        (&[2], &[], 3, 23, false),
        (&[], &[0], 4, 0, false),
        (&[], &[23], 4, 23, true),
    ];
    for (shelf, sink, status, count, stands) in table {
        let left = flown(&rt, "2", shelf, sink)?;
        assert_eq!(rt; left.status, status);
        assert_eq!(rt; lines(left.log()), count);
        assert_eq!(rt; left.file("o-0.obj").is_some(), stands);
    }
    Ok(())
}
