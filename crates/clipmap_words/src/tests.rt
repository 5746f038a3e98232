//! One command that is read, as its words give it.
use crate::{Command, is_store_name, is_swarm, read_swarm, read_words};
use std::alloc::Global;
use std::test::Fail;

#[test]
fn reads_frame(rt: HostRuntime) -> Result<(), Fail> {
    let mut words = Vec::new(rt.alloc());
    for word in [
        "frame",
        "6",
        "1",
        "-600",
        "4194304",
        "o.obj",
        "a/N45E006.hgt",
    ] {
        words.push(String::from_str(rt.alloc(), word)?)?;
    }
    let Some(Command::Frame(frame)) = read_words(&words) else {
        panic!(rt; "no command");
    };
    assert_eq!(rt; (frame.k, frame.levels), (6, 1));
    assert_eq!(rt; (frame.x, frame.y), (-600, 4_194_304));
    assert_eq!(rt; frame.out, "o.obj");
    assert_eq!(rt; frame.inputs.len(), 1);
    assert_eq!(rt; frame.inputs[0].as_str(), "a/N45E006.hgt");
    Ok(())
}

// The command that these words are, told in a few words of its own.
fn told(alloc: Global, words: &[&str]) -> Result<String, Fail> {
    let mut all = Vec::new(alloc);
    for word in words {
        all.push(String::from_str(alloc, word)?)?;
    }
    let text = match read_words(&all) {
        Some(Command::Info(info)) => format!(in alloc; "info of {}", info.inputs.len()),
        Some(Command::Pack(pack)) => {
            format!(in alloc;
                "pack {} {} of {}",
                pack.levels,
                pack.out,
                pack.inputs.len()
            )
        }
        Some(Command::PackBy(pack)) => {
            format!(in alloc;
                "packq {} {} {} of {}",
                pack.levels,
                pack.step,
                pack.out,
                pack.inputs.len()
            )
        }
        Some(Command::Play(play)) => {
            format!(in alloc;
                "play {} {} of {}",
                play.script,
                play.out,
                play.inputs.len()
            )
        }
        Some(Command::Fly(fly)) => {
            format!(in alloc;
                "fly {} {} {} of {}",
                fly.workers,
                fly.script,
                fly.out,
                fly.inputs.len()
            )
        }
        Some(Command::Demo(demo)) => format!(in alloc; "demo {}", demo.seed),
        Some(Command::Check(check)) => format!(in alloc; "check {}", check.file),
        Some(Command::Frame(_)) => format!(in alloc; "frame"),
        None => format!(in alloc; "none"),
    };
    Ok(text?)
}

#[test]
fn reads_the_other_commands(rt: HostRuntime) -> Result<(), Fail> {
    let table: [(&[&str], &str); 40] = [
        (&["fly", "15", "s", "o", "a.hgt"], "fly 15 s o of 1"),
        (&["fly", "1", "s", "o", "a", "b"], "fly 1 s o of 2"),
        (&["fly", "0", "s", "o", "a.hgt"], "none"),
        (&["fly", "16", "s", "o", "a.hgt"], "none"),
        (&["fly", "2", "s", "o"], "none"),
        (&["fly", "s", "o", "a.hgt"], "none"),
        (&["demo", "0"], "demo 0"),
        (
            &["demo", "18446744073709551615"],
            "demo 18446744073709551615",
        ),
        (&["demo", "18446744073709551616"], "none"),
        (&["demo", "-1"], "none"),
        (&["demo"], "none"),
        (&["demo", "0", "0"], "none"),
        (&["play", "s", "o", "a.hgt", "b"], "play s o of 2"),
        (&["play", "s", "o", "a.gct"], "play s o of 1"),
        (&["play", "s", "o"], "none"),
        (&["play", "s"], "none"),
        (&["play", "", "o", "a"], "none"),
        (&["play", "s", "", "a"], "none"),
        (&["check", "o.obj"], "check o.obj"),
        (&["check"], "none"),
        (&["check", ""], "none"),
        (&["check", "o", "o"], "none"),
        (&["info"], "none"),
        (&["info", ""], "none"),
        (&["info", "a.hgt", "b.gct"], "none"),
        (&["info", "a.hgt", "b.hgt"], "info of 2"),
        (&["pack", "12", "o.gct", "a.hgt"], "pack 12 o.gct of 1"),
        (&["pack", "1", "o", "a.gct"], "pack 1 o of 1"),
        (&["pack", "0", "o", "a.hgt"], "none"),
        (&["pack", "13", "o", "a.hgt"], "none"),
        (&["pack", "12", "", "a.hgt"], "none"),
        (&["pack", "12", "o"], "none"),
        (&["pack"], "none"),
        (&["packq", "2", "255", "o", "a.gct"], "packq 2 255 o of 1"),
        (&["packq", "2", "1", "o", "a", "b"], "packq 2 1 o of 2"),
        (&["packq", "2", "2", "o", "a"], "none"),
        (&["packq", "2", "257", "o", "a"], "none"),
        (&["packq", "2", "03", "o", "a"], "none"),
        (&["packq", "2", "o", "a"], "none"),
        (&["packs", "2", "o", "a"], "none"),
    ];
    for (words, want) in table {
        assert_eq!(rt; told(rt.alloc(), words)?.as_str(), want);
    }
    Ok(())
}

// The swarm that these words are, told in a few words of its own.
fn swarm_told(alloc: Global, words: &[&str]) -> Result<String, Fail> {
    let mut all = Vec::new(alloc);
    for word in words {
        all.push(String::from_str(alloc, word)?)?;
    }
    let text = match read_swarm(&all) {
        Some(swarm) => {
            format!(in alloc;
                "swarm {} {} {} {} of {}",
                swarm.workers,
                swarm.renderers,
                swarm.script,
                swarm.out,
                swarm.inputs.len()
            )
        }
        None if is_swarm(&all) => format!(in alloc; "no swarm"),
        None => format!(in alloc; "none"),
    };
    Ok(text?)
}

#[test]
fn reads_swarms(rt: HostRuntime) -> Result<(), Fail> {
    let table: [(&[&str], &str); 10] = [
        (
            &["swarm", "1", "14", "s", "o", "a.hgt"],
            "swarm 1 14 s o of 1",
        ),
        (
            &["swarm", "15", "0", "s", "o", "a", "b"],
            "swarm 15 0 s o of 2",
        ),
        (&["swarm", "2", "14", "s", "o", "a"], "no swarm"),
        (&["swarm", "0", "1", "s", "o", "a"], "no swarm"),
        (&["swarm", "16", "0", "s", "o", "a"], "no swarm"),
        (&["swarm", "1", "15", "s", "o", "a"], "no swarm"),
        (&["swarm", "1", "01", "s", "o", "a"], "no swarm"),
        (&["swarm", "1", "1", "s", "o"], "no swarm"),
        (&["fly", "1", "s", "o", "a"], "none"),
        (&[], "none"),
    ];
    for (words, want) in table {
        assert_eq!(rt; swarm_told(rt.alloc(), words)?.as_str(), want);
    }
    Ok(())
}

#[test]
fn tells_stores(rt: HostRuntime) {
    for (name, want) in [
        (".gct", true),
        ("a.GcT", true),
        ("gct", false),
        ("a.gct ", false),
        ("é.gct", true),
        ("", false),
    ] {
        assert_eq!(rt; is_store_name(name), want, "{name}");
    }
}
