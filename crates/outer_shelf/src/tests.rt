// What no clause says: that each call can succeed, and what a folder and a stream do.
use crate::{
    Fetched, FolderShelf, MemoryShelf, MemorySink, NoMemory, PutFault, Shelf, Sink, SinkFault,
    StreamSink, are_names_distinct,
};
use std::alloc::{AllocError, Global};
use std::cell::Cell;
use std::fmt::Display;
use std::fs::Permissions;
use std::os::unix::fs::PermissionsExt;
use std::{fs, io};

// What a fetch answered, as a short text: the bytes found in decimal, or the name of the answer.
fn shown(alloc: Global, answer: &Fetched) -> Result<String, AllocError> {
    match answer {
        Fetched::Found(bytes) => format!(in alloc; "{bytes:?}"),
        Fetched::Absent => String::from_str(alloc, "absent"),
        Fetched::TooLong { length, limit } => format!(in alloc; "{length} above {limit}"),
        Fetched::Failed => String::from_str(alloc, "failed"),
        Fetched::NoMemory => String::from_str(alloc, "no memory"),
    }
}

// A shelf of these files, whose calls of these numbers fail.
fn shelf_of(
    alloc: Global,
    table: &[(&str, &[u8])],
    failing: &[u64],
) -> Result<MemoryShelf, NoMemory> {
    let mut files = Vec::new(alloc);
    for (name, bytes) in table {
        let file = (
            String::from_str(alloc, name)?,
            Vec::from_slice(alloc, bytes)?,
        );
        if files.push(file).is_err() {
            return Err(NoMemory);
        }
    }
    let failing = Vec::from_slice(alloc, failing)?;
    if !are_names_distinct(&files) {
        return Err(NoMemory);
    }
    MemoryShelf::new(alloc, files, failing)
}

// Whether the shelf has these bytes under that name.
fn holds(shelf: &MemoryShelf, name: &str, want: &[u8]) -> bool {
    match shelf.file(name) {
        Some(bytes) => bytes == want,
        None => false,
    }
}

#[test]
fn memory_shelf_answers(rt: HostRuntime) {
    let alloc = rt.alloc();
    let files = [("a", [1u8, 2, 3].as_slice()), ("b", [].as_slice())];
    let Ok(mut shelf) = shelf_of(alloc, &files, &[1, 6]) else {
        panic!(rt; "no memory");
    };
    let table = [
        ("a", 3, "[1, 2, 3]"),
        ("a", 3, "failed"),
        ("a", 2, "3 above 2"),
        ("b", 0, "[]"),
        ("A", 9, "absent"),
    ];
    for (name, limit, want) in table {
        let answer = shelf.fetch(alloc, name, limit);
        assert_eq!(rt; shown(alloc, &answer).expect(&rt, "memory").as_str(), want);
    }
    assert!(rt; shelf.put("dem/b", &[7, 8]).is_ok());
    assert!(rt; shelf.put("a", &[9]) == Err(PutFault::Failed));
    assert!(rt; shelf.put("a", &[]).is_ok());
    assert!(rt; holds(&shelf, "dem/b", &[7, 8]));
    assert!(rt; holds(&shelf, "a", &[]));
    assert!(rt; shelf.file("c").is_none());
}

#[test]
fn memory_sink_writes(rt: HostRuntime) {
    let alloc = rt.alloc();
    let failing = Vec::from_slice(alloc, &[1u64]).expect(&rt, "memory");
    let mut sink = MemorySink::new(alloc, failing);
    assert!(rt; sink.write(b"ab") == Ok(()));
    assert!(rt; sink.write(b"cd") == Err(SinkFault::Failed));
    assert!(rt; sink.write(b"ef") == Ok(()));
    assert_eq!(rt; sink.bytes(), b"abef".as_slice());
}

#[test]
fn folder_shelf_reads_and_replaces(rt: HostRuntime) {
    let alloc = rt.alloc();
    let mut shelf = FolderShelf::new(&rt);
    let folder = "outer_shelf_test_folder";
    let _ = fs::remove_dir_all(&rt, folder);
    assert!(rt; fs::create_dir(&rt, folder).is_ok());
    let file = "outer_shelf_test_folder/x.hgt";
    assert!(rt; shelf.put(file, &[1, 2, 3]).is_ok());
    assert!(rt; fs::set_permissions(&rt, file, Permissions::from_mode(0o640)).is_ok());
    assert!(rt; shelf.put(file, &[4, 5]).is_ok());
    let kept = fs::metadata(&rt, file).expect(&rt, "a file").permissions();
    assert_eq!(rt; kept.mode() % 0o1000, 0o640);
    assert!(rt; shelf.put(folder, &[6]) == Err(PutFault::Failed));
    let table = [
        (file, 2, "[4, 5]"),
        (file, u64::MAX, "[4, 5]"),
        (file, 1, "2 above 1"),
        (file, 0, "1 above 0"),
        ("outer_shelf_test_folder/y.hgt", 9, "absent"),
        ("outer_shelf_test_folder/x.hgt.0.part", 9, "absent"),
        ("outer_shelf_test_folder/x.hgt/z", 9, "failed"),
        (folder, 9, "failed"),
        ("/dev/null", 9, "failed"),
    ];
    for (name, limit, want) in table {
        let answer = shelf.fetch(alloc, name, limit);
        assert_eq!(rt;
            shown(alloc, &answer).expect(&rt, "memory").as_str(),
            want,
            "{name} {limit}"
        );
    }
    assert!(rt; fs::remove_dir_all(&rt, folder).is_ok());
}

// An output that takes two bytes at a time, and nothing of a piece that begins with a zero. It keeps
// what it took as one number, whose last byte is the last one taken.
#[derive(Drop)]
struct Slow {
    taken: Cell<u64>,
}

impl Print for Slow {
    fn print<D: Display + Drop>(&self, _value: D) -> io::Result<()> {
        Ok(())
    }

    fn println<D: Display + Drop>(&self, _value: D) -> io::Result<()> {
        Ok(())
    }

    fn write_all(&self, _bytes: &[u8]) -> io::Result<()> {
        Ok(())
    }

    fn write_some(&self, bytes: &[u8]) -> io::Result<usize> {
        match bytes.first() {
            Some(first) if *first != 0 => {
                let count = bytes.len().min(2);
                for byte in &bytes[..count] {
                    let before = self.taken.get();
                    self.taken
                        .set(before.wrapping_mul(256).wrapping_add(*byte as u64));
                }
                Ok(count)
            }
            _ => Ok(0),
        }
    }
}

#[test]
fn stream_sink_writes(rt: HostRuntime) {
    let slow = Slow {
        taken: Cell::new(0),
    };
    let mut out = StreamSink::new(&slow);
    assert!(rt; out.write(&[1, 2, 3, 4, 5]) == Ok(()));
    assert_eq!(rt; slow.taken.get(), 0x01_02_03_04_05);
    assert!(rt; out.write(&[]) == Ok(()));
    assert!(rt; out.write(&[6, 7, 0]) == Err(SinkFault::Failed));
    assert_eq!(rt; slow.taken.get(), 0x01_02_03_04_05_06_07);
    let mut real = StreamSink::new(&rt);
    assert!(rt; real.write(b"a line\n") == Ok(()));
}
