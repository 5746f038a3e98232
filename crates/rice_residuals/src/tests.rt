ghost use Rattle.std.specs.Prelude.{◌<◌, IfOk};

use super::*;
use std::alloc::Global;
use std::process::Abort;
use std::test::Fail;

// The residuals of a list, which are in range and at most 64.
fn residuals_of(values: &[i32]) -> Residuals {
    let mut residuals = Residuals::none();
    for value in values {
        if residuals.count < 64 && *value >= -131072 && *value < 131072 {
            residuals.push(*value);
        }
    }
    residuals
}

#[test]
fn writes_and_reads_worked_words(rt: HostRuntime) -> Result<(), Fail> {
    for (values, word) in [
        ([0, -1, 1, -2, 2].as_slice(), [0x11, 0x97, 0x00].as_slice()),
        (
            [0, 0, 30000, 0, 0].as_slice(),
            [0x03, 0xff, 0xff, 0xff, 0xfc, 0xea, 0x60, 0x00].as_slice(),
        ),
        (
            [-69630, -69630, -8704, -69630, -69630].as_slice(),
            [
                0xff, 0x1f, 0xfb, 0xf1, 0xff, 0xb4, 0x3f, 0xff, 0x1f, 0xfb, 0xf1, 0xff, 0xb0,
            ]
            .as_slice(),
        ),
        ([].as_slice(), [0x00].as_slice()),
    ] {
        let written = write_block(rt.alloc(), &residuals_of(values))?;
        assert_eq!(rt; written.as_slice(), word);
        assert!(rt; word.len() < 100 && values.len() <= 64);
        let found = read_block(word, values.len() as u8).ok().ok_or("a fault")?;
        assert_eq!(rt; found.used(), values);
    }
    Ok(())
}

#[test]
fn appends_words(rt: HostRuntime) -> Result<(), Fail> {
    let mut out = vec![in rt.alloc(); 7u8]?;
    append_block(rt.alloc(), &mut out, &residuals_of(&[0, -1, 1, -2, 2]))?;
    append_block(rt.alloc(), &mut out, &residuals_of(&[]))?;
    assert_eq!(rt; out.as_slice(), [7, 0x11, 0x97, 0x00, 0x00].as_slice());
    Ok(())
}

#[test]
fn folds_worked_values(rt: HostRuntime) {
    for (value, code) in [
        (0, 0),
        (-1, 1),
        (1, 2),
        (-2, 3),
        (2, 4),
        (-69630, 139259),
        (-8704, 17407),
    ] {
        assert!(rt; value >= -131072 && value < 131072);
        assert_eq!(rt; fold(value), code);
        assert!(rt; code < 262144);
        assert_eq!(rt; unfold(code), value);
    }
}

#[test]
fn refuses_by_the_first_fault(rt: HostRuntime) -> Result<(), Fail> {
    for (bytes, count, want) in [
        ([].as_slice(), 5, BlockFault::CutShort { bit: 0 }),
        ([0x00, 0x00].as_slice(), 0, BlockFault::Excess { bytes: 1 }),
        (
            [0xff, 0xf0, 0x00, 0x00].as_slice(),
            1,
            BlockFault::TooWide { bit: 4 },
        ),
        (
            [0x03, 0xff, 0xff, 0xff, 0xfc, 0xea, 0x60, 0x01].as_slice(),
            5,
            BlockFault::BadPadding { bit: 63 },
        ),
        (
            [0x03, 0xff, 0xff, 0xff, 0xfc, 0x00, 0x05, 0x00].as_slice(),
            5,
            BlockFault::LongForm { bit: 6 },
        ),
    ] {
        assert!(rt; bytes.len() < 100 && count <= 64);
        assert_eq!(rt; read_block(bytes, count).err().ok_or("a word")?, want);
    }
    Ok(())
}

// Which answer the eight bytes get: 0 for a word, which is then written and read again, or else the fault's place in
// the list of the variants.
fn answer_of(rt: &impl Abort, alloc: Global, bytes: &[u8; 8]) -> Result<usize, Fail>
    ensures { IfOk result (λ answer. answer < 6) }
{
    match read_block(bytes, 5) {
        Ok(found) => {
            let again = write_block(alloc, &found)?;
            assert!(rt; again.len() < 100);
            let same = read_block(&again, 5).ok().ok_or("a fault")?;
            assert_eq!(rt; same.used(), found.used());
            Ok(0)
        }
        Err(BlockFault::CutShort { .. }) => Ok(1),
        Err(BlockFault::LongForm { .. }) => Ok(2),
        Err(BlockFault::TooWide { .. }) => Ok(3),
        Err(BlockFault::BadPadding { .. }) => Ok(4),
        Err(BlockFault::Excess { .. }) => Ok(5),
    }
}

// Every cut of three words, and every change of one byte of one of them. How often each answer comes was counted by
// another program that reads the format.
#[test]
fn judges_cuts_and_changes(rt: HostRuntime) -> Result<(), Fail> {
    let long = [0x03, 0xff, 0xff, 0xff, 0xfc, 0xea, 0x60, 0x00];
    for word in [
        [0x11, 0x97, 0x00].as_slice(),
        long.as_slice(),
        [
            0xff, 0x1f, 0xfb, 0xf1, 0xff, 0xb4, 0x3f, 0xff, 0x1f, 0xfb, 0xf1, 0xff, 0xb0,
        ]
        .as_slice(),
    ] {
        for cut in 0..word.len() {
            assert!(rt; cut < 100);
            let fault = read_block(&word[..cut], 5).err().ok_or("a word")?;
            assert_eq!(rt;
                fault,
                BlockFault::CutShort {
                    bit: 8 * cut as u32
                }
            );
        }
    }
    let mut answers = [0u32; 6];
    for place in 0..8 {
        for value in 0..=255 {
            let mut bytes = long;
            bytes[place] = value;
            let answer = answer_of(&rt, rt.alloc(), &bytes)?;
            answers[answer] = answers[answer].saturating_add(1);
        }
    }
    assert_eq!(rt; answers, [584, 140, 3, 30, 920, 371]);
    Ok(())
}
