//! Whole scripts.
use crate::{ScriptFault, Step, read_play, view_line};
use plan_model::Event;
use std::alloc::Global;
use std::test::Fail;

#[test]
fn names_the_bad_line(rt: HostRuntime) {
    for (text, line) in [
        (b"".as_slice(), 1),
        (b"\n".as_slice(), 2),
        (b"#\n# a\n".as_slice(), 3),
        (b"#\n# a".as_slice(), 3),
        (b"claim 0\n".as_slice(), 1),
        (b"\n\nclaim 0\nsize 4 1\n".as_slice(), 3),
        (b"size 4 1\nsize 4 1\n".as_slice(), 2),
        (b"size 4 1\n#\n\nclaim 16\nclaim 17\n".as_slice(), 4),
        (b"size 4 1\n# \x80\nclaim \x80\n".as_slice(), 3),
        (b"size 4 1\r\n".as_slice(), 1),
        (b"size 4 1\nend 0\n \n".as_slice(), 3),
    ] {
        let fault = read_play(rt.alloc(), text).err();
        assert_eq!(rt; fault, Some(ScriptFault::BadLine { line }), "line {line}");
    }
}

#[test]
fn reads_whole_scripts(rt: HostRuntime) -> Result<(), Fail> {
    let steps = [
        Step::Book {
            pass: 3,
            event: Event::Finish,
        },
        Step::Book {
            pass: 0,
            event: Event::Begin,
        },
    ];
    for text in [
        b"size 4 1\nfinish 3\nbegin 0\n".as_slice(),
        b"size 4 1\nfinish 3\nbegin 0".as_slice(),
        b"#\x80\xff\t\r\n\nsize 4 1\n\nfinish 3\n# finish 4\nbegin 0\n\n#".as_slice(),
    ] {
        let script = read_play(rt.alloc(), text)?;
        assert_eq!(rt; script.steps.as_slice(), steps.as_slice());
    }
    assert!(rt; read_play(rt.alloc(), b"size 4 1")?.steps.is_empty());
    Ok(())
}

// A script of a first line and this many empty lines.
fn long_script(alloc: Global, first: &[u8], empty: usize) -> Result<Vec<u8>, Fail> {
    let mut text = Vec::new(alloc);
    text.extend_from_slice(first)?;
    for _ in 0..empty {
        text.push(b'\n')?;
    }
    Ok(text)
}

#[test]
fn judges_many_lines_first(rt: HostRuntime) -> Result<(), Fail> {
    let text = long_script(rt.alloc(), b"size 4 1\n", 1_048_576)?;
    assert!(rt; read_play(rt.alloc(), &text).is_ok());
    let text = long_script(rt.alloc(), b"xize 4 1\n", 1_048_576)?;
    let fault = read_play(rt.alloc(), &text).err();
    assert_eq!(rt; fault, Some(ScriptFault::BadLine { line: 1 }));
    let text = long_script(rt.alloc(), b"xize 4 1\n", 1_048_577)?;
    let fault = read_play(rt.alloc(), &text).err();
    assert_eq!(rt; fault, Some(ScriptFault::TooMany { lines: 1_048_578 }));
    Ok(())
}

#[test]
fn finds_the_first_line_that_asks_for_a_view(rt: HostRuntime) {
    for (text, line) in [
        (b"".as_slice(), 1),
        (b"size 4 1\nseen\nsees 1\n# see\n\xff see".as_slice(), 6),
        (b"size 4 1\nsee\nendseen 0\n".as_slice(), 2),
        (b"# see\nsize 4 1\n\nendseen 0".as_slice(), 4),
    ] {
        assert_eq!(rt; view_line(text), line, "line {line}");
    }
}
