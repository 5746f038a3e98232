// A shelf and a sink that keep everything in memory, and fail at the calls that they are told to.
ghost use Rattle.std.specs.Prelude.{◌≡◌, ◌≤◌, ◌↔◌, [], Some, Err, IfOk, OnOk, OnErr, IsTrue, option_copied, string_bytes};
ghost use Rattle.std.specs.FinMap as map;
ghost use Rattle.outer_shelf.specs.Counts.{one_more};
ghost use Rattle.outer_shelf.specs.Outside.{Fetches, KeepsLimit, OnFetchFailed, files_with};
ghost use Rattle.outer_shelf.specs.Memory.{faults_after, files_of, has_name, is_failing, names_differ};
ghost use Rattle.outer_shelf.specs.Memory.{shelf_called, shelf_put, sink_called};

use crate::traits::{Fetched, PutFault, Shelf, Sink, SinkFault};
use std::alloc::{AllocError, Global};
use std::collections::BTreeMap;
use std::marker::Model;

/// There was no memory.
#[derive(Debug, Clone, Copy, PartialEq, Eq)]
pub struct NoMemory;

impl From<AllocError> for NoMemory {
    fn from(_: AllocError) -> NoMemory {
        NoMemory
    }
}

/// A shelf that keeps its files in memory and tells them.
///
/// Its calls of both kinds are numbered together from 0. A call whose number is listed as failing
/// answers `Failed` and changes nothing but the counts; no other call fails.
#[derive(Drop)]
pub struct MemoryShelf {
    alloc: Global,
    files: BTreeMap<String, Vec<u8>>,
    failing: Vec<u64>,
    calls: u64,
    faults: u64,
}

impl Model for MemoryShelf {
    ghost use Rattle.outer_shelf.specs.Memory.{MemoryFiles, memory_files_code, files_of};

    ghost Value = { MemoryFiles };

    ghost coded = { memory_files_code };

    ghost view = { λ s. record {
      files = files_of s.files.entries;
      failing = s.failing.items;
      calls = s.calls;
      faults = s.faults;
    } };
}

// The bytes of the file of that name.
fn find<'a>(files: &'a BTreeMap<String, Vec<u8>>, name: &str) -> Option<&'a [u8]>
    ensures { option_copied result ≡ map.get (files_of files.now.entries) name.now }
{
    match files.get(name) {
        Some(bytes) => Some(bytes.as_slice()),
        None => None,
    }
}

// Puts a file in place of one of the same name. Where there is no memory, the files stay.
fn store(
    files: &mut BTreeMap<String, Vec<u8>>,
    name: String,
    bytes: Vec<u8>,
) -> Result<(), NoMemory>
    ensures ok { OnOk result (files_of files.new.entries
        ≡ files_with (string_bytes name) bytes.items (files_of files.old.entries)) }
    ensures err { OnErr result (files_of files.new.entries ≡ files_of files.old.entries) }
{
    match files.insert(name, bytes) {
        Ok(_) => Ok(()),
        Err(_) => Err(NoMemory),
    }
}

// Puts a copy of the file. Where there is no memory, the files stay.
fn store_copy(
    alloc: Global,
    files: &mut BTreeMap<String, Vec<u8>>,
    name: &str,
    bytes: &[u8],
) -> Result<(), NoMemory>
    ensures ok { OnOk result (files_of files.new.entries
        ≡ files_with name.now bytes.now (files_of files.old.entries)) }
    ensures err { OnErr result (files_of files.new.entries ≡ files_of files.old.entries) }
{
    let name = String::from_str(alloc, name)?;
    let bytes = Vec::from_slice(alloc, bytes)?;
    store(files, name, bytes)
}

// The map of a list of files, the last of them first.
fn map_of(
    alloc: Global,
    mut files: Vec<(String, Vec<u8>)>,
) -> Result<BTreeMap<String, Vec<u8>>, NoMemory>
    ensures { IfOk result (λ made. files_of made.entries ≡ files_of files.items) }
{
    let mut made = BTreeMap::new(alloc);
    while let Some((name, bytes)) = files.pop() {
        store(&mut made, name, bytes)?;
    }
    Ok(made)
}

// A copy of the bytes of a file, if they are within the limit.
fn copy_within(alloc: Global, bytes: &[u8], limit: u64) -> Fetched
    ensures answer { Fetches (Some bytes.now) limit result }
    ensures in_limit { KeepsLimit limit result }
    ensures never_failed { OnFetchFailed result ⊥ }
{
    let length = bytes.len() as u64;
    if length > limit {
        return Fetched::TooLong { length, limit };
    }
    match Vec::from_slice(alloc, bytes) {
        Ok(copy) => Fetched::Found(copy),
        Err(_) => Fetched::NoMemory,
    }
}

// Whether a file of that name is among these.
fn is_name_of(name: &str, files: &[(String, Vec<u8>)]) -> bool
    ensures { result ≡ has_name name.now files.now }
{
    files.iter().any(|file| file.0.as_str() == name)
}

/// Whether no name stands twice among these files, as [`MemoryShelf::new`] asks.
pub fn are_names_distinct(files: &[(String, Vec<u8>)]) -> bool
    ensures { result ≡ names_differ files.now }
{
    let mut rest = files;
    while let Some((file, later)) = rest.split_first() {
        if is_name_of(file.0.as_str(), later) {
            return false;
        }
        rest = later;
    }
    true
}

// Whether the call of this number is to fail.
fn is_listed(failing: &[u64], call: u64) -> bool
    ensures { result ≡ is_failing failing.now call }
{
    failing.iter().any(|listed| *listed == call)
}

// Counts a call, and its fault if it is to fail, and says whether it is.
fn count_call(failing: &[u64], calls: &mut u64, faults: &mut u64) -> bool
    ensures fails { result ≡ is_failing failing.now calls.old }
    ensures called { calls.new ≡ one_more calls.old }
    ensures faulty { faults.new ≡ faults_after failing.now calls.old faults.old }
    ensures faults_stay { faults.old ≤ faults.new }
{
    let fails = is_listed(failing, *calls);
    if fails {
        *faults = faults.saturating_add(1);
    }
    *calls = calls.saturating_add(1);
    fails
}

impl MemoryShelf {
    /// A shelf of these files, among which no name stands twice. `failing` lists the numbers of the
    /// calls that are to fail.
    pub fn new(
        alloc: Global,
        files: Vec<(String, Vec<u8>)>,
        failing: Vec<u64>,
    ) -> Result<MemoryShelf, NoMemory>
        requires { IsTrue (names_differ files.items) }
        ensures { IfOk result (λ shelf. shelf ≡ record {
          files = files_of files.items;
          failing = failing.items;
          calls = 0;
          faults = 0;
        }) }
    {
        let files = map_of(alloc, files)?;
        Ok(MemoryShelf {
            alloc,
            files,
            failing,
            calls: 0,
            faults: 0,
        })
    }

    /// The bytes of the file of that name, if the shelf has one. This is no call of the shelf.
    pub fn file(&self, name: &str) -> Option<&[u8]>
        ensures { option_copied result ≡ map.get self.now.files name.now }
    {
        find(&self.files, name)
    }
}

impl Shelf for MemoryShelf {
    ghost told = { λ s. record { files = Some s.files; calls = Some s.calls; faults = s.faults } };

    // A refused put changes nothing.
    ghost leaves = { λ _ _ before now. now ≡ before };

    fn fetch(&mut self, alloc: Global, name: &str, limit: u64) -> Fetched
        ensures answer { Fetches (map.get self.old.files name.now) limit result }
        ensures in_limit { KeepsLimit limit result }
        ensures fails { (result ≡ Fetched.Failed)
            ↔ IsTrue (is_failing self.old.failing self.old.calls) }
        ensures called { self.new ≡ shelf_called self.old }
        ensures faults_stay { self.old.faults ≤ self.new.faults }
    {
        if count_call(&self.failing, &mut self.calls, &mut self.faults) {
            return Fetched::Failed;
        }
        match find(&self.files, name) {
            Some(bytes) => copy_within(alloc, bytes, limit),
            None => Fetched::Absent,
        }
    }

    fn put(&mut self, name: &str, bytes: &[u8]) -> Result<(), PutFault>
        ensures ok { OnOk result (self.new
            ≡ shelf_put (files_with name.now bytes.now self.old.files) self.old) }
        ensures refused { OnErr result (self.new ≡ shelf_called self.old) }
        ensures fails { (result ≡ Err PutFault.Failed)
            ↔ IsTrue (is_failing self.old.failing self.old.calls) }
        ensures faults_stay { self.old.faults ≤ self.new.faults }
    {
        if count_call(&self.failing, &mut self.calls, &mut self.faults) {
            return Err(PutFault::Failed);
        }
        match store_copy(self.alloc, &mut self.files, name, bytes) {
            Ok(()) => Ok(()),
            Err(NoMemory) => Err(PutFault::NoMemory),
        }
    }
}

/// A sink that keeps the bytes written in memory and tells them.
///
/// Its writes are numbered from 0. A write whose number is listed as failing answers `Failed` and
/// appends nothing; no other write fails.
#[derive(Drop)]
pub struct MemorySink {
    bytes: Vec<u8>,
    failing: Vec<u64>,
    calls: u64,
    faults: u64,
}

impl Model for MemorySink {
    ghost use Rattle.outer_shelf.specs.Memory.{MemoryBytes, memory_bytes_code};

    ghost Value = { MemoryBytes };

    ghost coded = { memory_bytes_code };

    ghost view = { λ s. record {
      written = s.bytes.items;
      failing = s.failing.items;
      calls = s.calls;
      faults = s.faults;
    } };
}

impl MemorySink {
    /// A sink with nothing written. `failing` lists the numbers of the writes that are to fail.
    pub fn new(alloc: Global, failing: Vec<u64>) -> MemorySink
        ensures { result ≡ record { written = []; failing = failing.items; calls = 0; faults = 0 } }
    {
        MemorySink {
            bytes: Vec::new(alloc),
            failing,
            calls: 0,
            faults: 0,
        }
    }

    /// The bytes written so far.
    pub fn bytes(&self) -> &[u8]
        ensures { result.now ≡ self.now.written }
    {
        self.bytes.as_slice()
    }
}

impl Sink for MemorySink {
    ghost told = { λ s. record { written = Some s.written; calls = Some s.calls; faults = s.faults } };

    fn write(&mut self, piece: &[u8]) -> Result<(), SinkFault>
        ensures ok { OnOk result (self.new ≡ sink_called piece.now self.old) }
        ensures refused { OnErr result (self.new ≡ sink_called [] self.old) }
        ensures fails { (result ≡ Err SinkFault.Failed)
            ↔ IsTrue (is_failing self.old.failing self.old.calls) }
        ensures faults_stay { self.old.faults ≤ self.new.faults }
    {
        if count_call(&self.failing, &mut self.calls, &mut self.faults) {
            return Err(SinkFault::Failed);
        }
        match self.bytes.extend_from_slice(piece) {
            Ok(()) => Ok(()),
            Err(_) => Err(SinkFault::NoMemory),
        }
    }
}
