// A shelf over the working folder.
ghost use Rattle.std.specs.Prelude.{◌≡◌, ℕ, ◌+◌, ◌≤◌, ◌<◌, None, true, IfOk, IfSome, OnErr, length, take, vec_len};
ghost use Rattle.std.specs.Io.KnownBytes.{Consumes, IsAtEnd, Keeps};
ghost use Rattle.outer_shelf.specs.Counts.{Rose, one_more};
ghost use Rattle.outer_shelf.specs.Outside.{KeepsLimit, OnFetchFailed, OnPutFailed, TakesFront};

use crate::traits::{Fetched, PutFault, Shelf};
use std::alloc::Global;
use std::fs::{File, OpenFile, OpenOptions, Permissions};
use std::io::{ErrorKind, Read, Write};
use std::marker::Model;
use std::rt::Files;
use std::{fs, io};

// How many bytes are read at once.
const CHUNK: usize = 65536;

// How many names beside a file are tried for its new text, before the shelf gives up.
const MOST_NAMES: u32 = 1000;

/// A shelf whose files are those of the working folder, by their paths from there.
///
/// It tells neither its files nor the number of its calls, since others may change the folder. Its
/// count of faults starts at 0 and rises in each call that ends because a system call failed, up to
/// the last value of a `u64`. A file that isn't there is absent, which is no fault; a folder in its
/// place, a file that may not be read and a path through something that isn't a folder are faults.
/// So is a pipe, a socket, a terminal or another device, also where a link leads to it: it is judged
/// before it is opened, so that nobody has to be waited for.
#[derive(Drop)]
pub struct FolderShelf<'a, R> {
    rt: &'a R,
    faults: u64,
}

impl<'a, R> Model for FolderShelf<'a, R> {
    ghost Value = { ℕ };

    ghost view = { λ s. s.faults };
}

impl<'a, R> FolderShelf<'a, R> {
    /// The shelf of the folder that the program runs in.
    pub fn new(rt: &'a R) -> FolderShelf<'a, R>
        ensures { result ≡ 0 }
    {
        FolderShelf { rt, faults: 0 }
    }

    // Counts the fault that this error is, and says whether it is one: to have no memory is none.
    fn count(&mut self, error: &io::Error) -> bool
        ensures rose { result ≡ true → Rose self.old self.new }
        ensures stays { self.old ≤ self.new }
    {
        if is_want_of_memory(error) {
            return false;
        }
        self.faults = self.faults.saturating_add(1);
        true
    }

    // What a fetch that met this error answers.
    fn failed_fetch(&mut self, error: &io::Error) -> Fetched
        ensures in_limit { (limit : ℕ) → KeepsLimit limit result }
        ensures failed { OnFetchFailed result (Rose self.old self.new) }
        ensures stays { self.old ≤ self.new }
    {
        if self.count(error) {
            Fetched::Failed
        } else {
            Fetched::NoMemory
        }
    }
}

// Whether an allocation was refused. What a system call answers for want of memory is a fault of its own.
fn is_want_of_memory(error: &io::Error) -> bool {
    error.kind() == ErrorKind::OutOfMemory && error.raw_os_error().is_none()
}

// How many bytes a plain file says that it has, or what a link leads to where that is one. Nothing is opened.
fn plain_length<R: Files>(rt: &R, name: &str) -> io::Result<u64> {
    let there = fs::metadata(rt, name)?;
    if !there.is_file() {
        return Err(io::Error::from(ErrorKind::InvalidInput));
    }
    Ok(there.len())
}

// Reads once into the chunk, and again where the read was interrupted.
fn read_some<F: Read>(file: &mut F, chunk: &mut [u8]) -> io::Result<usize>
    ensures within { IfOk result (λ count. count ≤ length chunk.new) }
    ensures taken { IfOk result (λ count. Consumes (F.remaining file.old) (F.remaining file.new)
        (take count chunk.new)) }
    ensures end { IfOk result (λ count. count ≡ 0 → 0 < length chunk.old → IsAtEnd (F.remaining file.new)) }
    ensures kept { OnErr result (Keeps (F.remaining file.old) (F.remaining file.new)) }
{
    for _ in 0..u64::MAX {
        match file.read(chunk) {
            Ok(count) => return Ok(count),
            Err(error) if error.kind() == ErrorKind::Interrupted => {}
            Err(error) => return Err(error),
        }
    }
    Err(io::Error::from(ErrorKind::Interrupted))
}

// The bytes of a file, of which at most one more than the limit is read. Room is made at once for as many as are
// expected; where there are more, or fewer, that many are read all the same.
fn read_past_limit<F: Read>(
    file: &mut F,
    alloc: Global,
    expected: u64,
    limit: u64,
) -> io::Result<Vec<u8>>
    ensures front { IfOk result (λ bytes. IfSome (F.remaining file.old) (λ rest. bytes.items ≡
        take (one_more limit) rest)) }
    ensures taken { TakesFront (one_more limit) (F.remaining file.old) (F.remaining file.new) }
{
    let most = limit.saturating_add(1);
    let mut bytes = Vec::with_capacity(alloc, expected.min(most) as usize)?;
    let mut chunk = [0u8; CHUNK];
    for _ in 0..u64::MAX {
        let room = most - bytes.len() as u64;
        if room == 0 {
            return Ok(bytes);
        }
        let count = read_some(file, &mut chunk[..room.min(CHUNK as u64) as usize])?;
        if count == 0 {
            return Ok(bytes);
        }
        bytes.extend_from_slice(&chunk[..count])?;
    }
    Err(io::Error::from(ErrorKind::Interrupted))
}

// The bytes of the plain file of that name, as far as one past the limit.
fn read_plain<R: Files>(rt: &R, alloc: Global, name: &str, limit: u64) -> io::Result<Vec<u8>> {
    let length = plain_length(rt, name)?;
    let mut file = fs::open(rt, name)?;
    read_past_limit(&mut file, alloc, length, limit)
}

// What a fetch that read these bytes answers.
fn found(bytes: Vec<u8>, limit: u64) -> Fetched
    ensures in_limit { KeepsLimit limit result }
    ensures never_failed { OnFetchFailed result ⊥ }
    ensures short { vec_len bytes ≤ limit → result ≡ Fetched.Found bytes }
    ensures long { limit < vec_len bytes → result ≡ Fetched.TooLong (limit + 1) limit }
{
    if bytes.len() as u64 > limit {
        return Fetched::TooLong {
            length: limit + 1,
            limit,
        };
    }
    Fetched::Found(bytes)
}

// Where a file is put: its name, and the permissions of the file that is there.
#[derive(Drop)]
struct Place<'a> {
    name: &'a str,
    permissions: Option<Permissions>,
}

// Writes into what is there, which is no plain file: a device, a pipe or a link.
fn write_in_place<R: Files>(rt: &R, name: &str, bytes: &[u8]) -> io::Result<()> {
    let mut file = OpenOptions::new()
        .write(true)
        .truncate(true)
        .open(rt, name)?;
    file.write_all(bytes)
}

// Writes the bytes under the name of the part, which has just been made, and then renames that. The
// part first gets the permissions of the file that it replaces.
fn write_and_rename<R: Files>(
    rt: &R,
    mut file: R::File,
    part: &str,
    place: &Place<'_>,
    bytes: &[u8],
) -> io::Result<()> {
    if let Some(permissions) = &place.permissions {
        file.set_permissions(permissions.clone()?)?;
    }
    file.write_all(bytes)?;
    fs::rename(rt, part, place.name)
}

// Writes a part beside the file and renames it, so that whoever reads the name finds the old file or
// the whole new one. A part that could not be written or renamed is removed.
fn replace<R: Files + Alloc>(rt: &R, place: &Place<'_>, bytes: &[u8]) -> io::Result<()> {
    let name = place.name;
    for number in 0..MOST_NAMES {
        let part = format!(in rt.alloc(); "{name}.{number}.part")?;
        match File::create_new(rt, part.as_str()) {
            Ok(file) => {
                let written = write_and_rename(rt, file, part.as_str(), place, bytes);
                if written.is_err() {
                    let _ = fs::remove_file(rt, part.as_str());
                }
                return written;
            }
            Err(error) if error.kind() == ErrorKind::AlreadyExists => {}
            Err(error) => return Err(error),
        }
    }
    Err(io::Error::from(ErrorKind::AlreadyExists))
}

// Puts the file: in one step where there is a plain file or none, and else into what is there.
fn put_file<R: Files + Alloc>(rt: &R, name: &str, bytes: &[u8]) -> io::Result<()> {
    let permissions = match fs::symlink_metadata(rt, name) {
        Ok(there) if !there.is_file() => return write_in_place(rt, name, bytes),
        Ok(there) => Some(there.permissions()),
        Err(error) if error.kind() == ErrorKind::NotFound => None,
        Err(error) => return Err(error),
    };
    replace(rt, &Place { name, permissions }, bytes)
}

impl<R: Files + Alloc> Shelf for FolderShelf<'_, R> {
    ghost told = { λ s. record { files = None; calls = None; faults = s } };

    /// Reads at most one byte more than the limit: that many is the length of a file that is too long.
    fn fetch(&mut self, alloc: Global, name: &str, limit: u64) -> Fetched {
        match read_plain(self.rt, alloc, name, limit) {
            Ok(bytes) => found(bytes, limit),
            Err(error) if error.kind() == ErrorKind::NotFound => Fetched::Absent,
            Err(error) => self.failed_fetch(&error),
        }
    }

    /// Writes `NAME.0.part` (or the first number whose name is free) beside the file and renames it
    /// over that. So at each moment, also after the program was stopped, the name has the old bytes
    /// or all of the new ones; a program that was stopped may leave the part behind. A file that is
    /// replaced hands its permissions on. A link, a device or a pipe under that name is written in
    /// place; a pipe that nobody reads makes the call wait.
    fn put(&mut self, name: &str, bytes: &[u8]) -> Result<(), PutFault> {
        match put_file(self.rt, name, bytes) {
            Ok(()) => Ok(()),
            Err(error) => {
                if self.count(&error) {
                    Err(PutFault::Failed)
                } else {
                    Err(PutFault::NoMemory)
                }
            }
        }
    }
}
