//! Whole scripts with their logs, and how they end.

use crate::halt::Halt;
use crate::{play_through, read_script};
use std::alloc::Global;
use std::io;
use std::io::{ErrorKind, Read, Write};

// The log of a script, and how it ended.
fn logged(alloc: Global, script: &[u8]) -> (Vec<u8>, Result<(), Halt>) {
    let mut log = Vec::new(alloc);
    let ended = play_through(alloc, script, &mut log);
    (log, ended)
}

#[test]
fn refuses_a_script_at_a_line(rt: HostRuntime) {
    for (script, number) in [
        ("", 1),
        ("\n# a\n", 3),
        ("\n# a", 3),
        ("claim 0\n", 1),
        ("# a\nclaim 0\nsize 4 1\n", 2),
        ("size 4 1\nmove 1 1\nsize 4 1\n", 3),
        ("size 4 1\npublish 1\n", 2),
        ("size 4 1\n\npublish 0\nclaim 0\r\n", 4),
        ("size 4 1\nsee\n", 2),
        ("# see\nsize 4 1\nbegin 0\n\nendseen 0\nsee 1 0 0 -9\n", 5),
        ("size 4 1\nsee\nclaim 16\n", 3),
        ("size 4 1\nseen\n", 2),
    ] {
        let (log, ended) = logged(rt.alloc(), script.as_bytes());
        assert_eq!(rt; ended, Err(Halt::Line(number)), "{script:?}");
        assert_eq!(rt; log.as_slice(), b"".as_slice(), "{script:?}");
    }
}

#[test]
fn plays_a_script(rt: HostRuntime) {
    let script = b"#\xff\nsize 4 1\nfinish 3\nend 3\n\nbegin 0\nclaim 0\nend 0";
    let log =
        b"finish 3: nojob\nend 3: noframe\nbegin 0: frame 0\nclaim 0: haswork\nend 0: closed 0\n";
    let (got, ended) = logged(rt.alloc(), script);
    assert_eq!(rt; ended, Ok(()));
    assert_eq!(rt; got.as_slice(), log.as_slice());
}

#[test]
fn writes_an_altitude_where_it_is_not_0(rt: HostRuntime) {
    let script = b"size 4 2\nmove 1 1 17\nclaim 0\nmove 1 1 0\npublish 0";
    let log = b"move 1 1 17: moved\nclaim 0: job level 1 block -1 -1 cells -6 -6 -1 -1 plan 0\n\
        move 1 1: moved\npublish 0: waiting 9\n";
    let (got, ended) = logged(rt.alloc(), script);
    assert_eq!(rt; ended, Ok(()));
    assert_eq!(rt; got.as_slice(), log.as_slice());
}

// A reader and a writer that always fail.
#[derive(Drop)]
struct Broken;

impl Read for Broken {
    fn read(&mut self, _buf: &mut [u8]) -> io::Result<usize> {
        Err(io::Error::from(ErrorKind::BrokenPipe))
    }
}

impl Write for Broken {
    fn write(&mut self, _buf: &[u8]) -> io::Result<usize> {
        Err(io::Error::from(ErrorKind::BrokenPipe))
    }

    fn flush(&mut self) -> io::Result<()> {
        Err(io::Error::from(ErrorKind::BrokenPipe))
    }
}

#[test]
fn reads_all_or_tells_a_failed_read(rt: HostRuntime) {
    let script = b"size 4 1\nend 0\n".as_slice();
    let read = read_script(rt.alloc(), &mut script.chain(b"claim 0".as_slice()));
    let all = b"size 4 1\nend 0\nclaim 0".as_slice();
    assert!(rt; read.is_ok_and(|script| script.as_slice() == all));
    let failed = read_script(rt.alloc(), &mut script.chain(Broken));
    assert_eq!(rt; failed.err(), Some(Halt::ReadFailed));
}

#[test]
fn tells_a_failed_write(rt: HostRuntime) {
    let script = b"size 4 1\nend 0";
    let ended = play_through(rt.alloc(), script.as_slice(), &mut Broken);
    assert_eq!(rt; ended, Err(Halt::WriteFailed));
}
