//! The file of a store, fetched and read.
ghost use Rattle.std.specs.Prelude.{◌≡◌, ◌≤◌, IfSome, length, option_map};
ghost use Rattle.std.specs.FinMap as finite;
ghost use Rattle.outer_shelf.specs.Counts.{Rose, one_more};
ghost use Rattle.clipmap_prog.specs.Reading.{Finds, OnStop};
ghost use Rattle.clipmap_prog.specs.Stores.{IsVerdict, IsVerdictOnFile, Verdict, store_by, store_of_file, store_view};

use crate::fault::{Fault, FileFault};
use crate::reading::Stop;
use crate::stored::StoreFile;
use outer_shelf::{Fetched, Shelf};
use run_actions::Halt;
use std::alloc::Global;
use std::thread::Threads;
use store_model::StoreFault;
use store_reader::{StoredHeights, read_heights_beside};

/// The most bytes that the file of a store may have.
pub const STORE_LIMIT: u64 = 1_073_741_824;

// The store of the bytes of a file, if they are one.
fn judge_store<'a, R: Threads + Sync>(
    rt: &R,
    alloc: Global,
    bytes: &[u8],
) -> Result<StoreFile, Stop<'a>>
    ensures found { (verdict : Verdict) → IsVerdict bytes.now verdict
        → Finds store_view result (store_by (length bytes.now) verdict) }
    ensures reason { OnStop result ⊥ }
{
    match read_heights_beside(rt, alloc, bytes) {
        Ok(StoredHeights { header, grid }) => Ok(StoreFile {
            header,
            grid,
            length: bytes.len(),
        }),
        Err(StoreFault::NoMemory) => Err(Stop::Halted(Halt::NoMemory)),
        Err(fault) => Err(Stop::Refused(Fault::Store(fault))),
    }
}

// The store of the file of that name, by one fetch. The file's bytes are gone once it is read.
pub(crate) fn fetch_store<'a, R: Threads + Sync, S: Shelf>(
    rt: &R,
    alloc: Global,
    shelf: &mut S,
    name: &'a str,
) -> Result<StoreFile, Stop<'a>>
    ensures found { (verdict : Verdict)
        → IfSome (S.told shelf.old).files (λ files. IsVerdictOnFile (finite.get files name.now) verdict)
        → IfSome (S.told shelf.old).files (λ files. Finds store_view result
        (store_of_file name.now verdict (finite.get files name.now))) }
    ensures counted { (S.told shelf.new).calls ≡ option_map one_more (S.told shelf.old).calls }
    ensures reason { OnStop result (Rose (S.told shelf.old).faults (S.told shelf.new).faults) }
    ensures files_stay { (S.told shelf.new).files ≡ (S.told shelf.old).files }
    ensures faults_stay { (S.told shelf.old).faults ≤ (S.told shelf.new).faults }
{
    match shelf.fetch(alloc, name, STORE_LIMIT) {
        Fetched::Found(bytes) => judge_store(rt, alloc, bytes.as_slice()),
        Fetched::Absent => Err(Stop::Refused(Fault::File(name, FileFault::Absent))),
        Fetched::TooLong { length, limit } => {
            let fault = FileFault::TooLong { length, limit };
            Err(Stop::Refused(Fault::File(name, fault)))
        }
        Fetched::Failed => Err(Stop::Halted(Halt::ShelfFailed)),
        Fetched::NoMemory => Err(Stop::Halted(Halt::NoMemory)),
    }
}
