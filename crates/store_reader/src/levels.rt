//! The whole of a store.

ghost use Rattle.std.specs.Prelude.{◌≡◌, ◌⊎◌, ◌+◌, ◌<◌, ◌≤◌, length, IfOk, IfErr, IsOkUnless, Err};
ghost use Rattle.store_model.specs.declared.fault.StoreFault.TheVariants.{NoMemory};
ghost use Rattle.terrain_model.specs.Terrain.{Terrain};
ghost use Rattle.store_model.specs.Format.{Head};
ghost use Rattle.store_model.specs.Store.{IsStore};
ghost use Rattle.store_model.specs.Faults.{HasStoreFault};
ghost use Rattle.store_model.specs.declared.fault.StoreFault.{StoreFault};
ghost use Rattle.store_reader.specs.Headers.{head_of, IsHeaderOf};
ghost use Rattle.store_reader.specs.Reading.{LevelsRead};

use crate::beside::SideBySide;
use crate::blocks::Source;
use crate::header::{Header, read_header};
use crate::level::{BlockReader, OneByOne, Reached, Reading, read_level};
use height_pyramid::Grid;
use std::alloc::Global;
use std::thread::Threads;
use store_model::StoreFault;

/// What a store says: its header, and the terrain that it stands for.
#[derive(Drop)]
pub struct StoredHeights {
    /// The version, the sides, the number of levels and the step.
    pub header: Header,
    /// The terrain.
    pub grid: Grid,
}

// Reads the coarsest level.
fn read_coarsest<B: BlockReader>(
    by: &B,
    alloc: Global,
    bytes: &[u8],
    header: Header,
) -> Result<Reached, StoreFault>
    requires ready { B.ready by.now }
    requires header { IsHeaderOf header bytes.now }
    ensures read { IfOk result (λ reached. LevelsRead (head_of header) 1 bytes.now reached.at reached.grid) }
    ensures fault { IfErr result (λ fault. (fault ≡ NoMemory) ⊎ HasStoreFault bytes.now fault) }
{
    terrain_model::finest_level();
    store_model::laws::level_outside();
    store_laws::fronts_of_like_heights();
    let reading = Reading {
        bytes,
        header,
        level: header.levels - 1,
        source: Source::Plain,
    };
    read_level(by, alloc, reading, 12 + usize::from(header.version))
}

// Reads the level behind the `n` coarsest ones, over the last of them.
fn read_next<B: BlockReader>(
    by: &B,
    alloc: Global,
    bytes: &[u8],
    header: Header,
    n: u8,
    last: &Reached,
) -> Result<Reached, StoreFault>
    requires ready { B.ready by.now }
    requires header { IsHeaderOf header bytes.now }
    requires some { 1 ≤ n }
    requires few { n < header.levels }
    requires last { LevelsRead (head_of header) n bytes.now last.now.at last.now.grid }

    // One level more was read, or a fault is told.
    ensures read { IfOk result (λ reached. LevelsRead (head_of header) (n + 1) bytes.now reached.at reached.grid) }
    ensures fault { IfErr result (λ fault. (fault ≡ NoMemory) ⊎ HasStoreFault bytes.now fault) }
{
    terrain_model::finest_level();
    store_model::laws::level_outside();
    store_laws::fronts_of_like_heights();
    let reading = Reading {
        bytes,
        header,
        level: header.levels - n - 1,
        source: Source::Over(&last.grid),
    };
    read_level(by, alloc, reading, last.at)
}

// Reads all levels of a store with this header.
fn read_levels<B: BlockReader>(
    by: &B,
    alloc: Global,
    bytes: &[u8],
    header: Header,
) -> Result<Reached, StoreFault>
    requires ready { B.ready by.now }
    requires header { IsHeaderOf header bytes.now }
    ensures read { IfOk result (λ reached.
        LevelsRead (head_of header) header.levels bytes.now reached.at reached.grid) }
    ensures fault { IfErr result (λ fault. (fault ≡ NoMemory) ⊎ HasStoreFault bytes.now fault) }
{
    let mut reached = read_coarsest(by, alloc, bytes, header)?;
    for n in 1..header.levels {
        reached = read_next(by, alloc, bytes, header, n, &reached)?;
    }
    Ok(reached)
}

// Reads a store, or names its first fault.
fn read_store<B: BlockReader>(
    by: &B,
    alloc: Global,
    bytes: &[u8],
) -> Result<StoredHeights, StoreFault>
    requires ready { B.ready by.now }
    ensures store { IfOk result (λ stored. IsStore (head_of stored.header) stored.grid bytes.now) }
    ensures fault { IfErr result (λ fault. (fault ≡ NoMemory) ⊎ HasStoreFault bytes.now fault) }
{
    terrain_model::finest_level();
    store_laws::stores_of_levels();
    let header = read_header(bytes)?;
    let reached = read_levels(by, alloc, bytes, header)?;
    let Reached { grid, at } = reached;
    if at < bytes.len() {
        return Err(StoreFault::Excess { offset: at as u64 });
    }
    Ok(StoredHeights { header, grid })
}

/// The terrain that a store of either version stands for, with what its header says, or the first fault of other
/// bytes.
///
/// Where memory runs out the answer is `NoMemory`. At most two levels of heights are held at a time, in two bytes each.
pub fn read_heights(alloc: Global, bytes: &[u8]) -> Result<StoredHeights, StoreFault>
    // Ok comes exactly where the bytes are a store, and gives its header and its terrain.
    ensures store { IfOk result (λ stored. IsStore (head_of stored.header) stored.grid bytes.now) }
    ensures accepts { (head : Head) → (terrain : Terrain) → IsStore head terrain bytes.now
        → IsOkUnless result NoMemory }
    ensures same { (head : Head) → (terrain : Terrain) → IsStore head terrain bytes.now
        → IfOk result (λ stored. (head_of stored.header ≡ head) × (stored.grid ≡ terrain)) }

    // Each fault but want of memory comes exactly where it is the first one.
    ensures fault { IfErr result (λ fault. (fault ≡ NoMemory) ⊎ HasStoreFault bytes.now fault) }
    ensures refuses { (fault : StoreFault) → HasStoreFault bytes.now fault
        → (result ≡ Err fault) ⊎ (result ≡ Err NoMemory) }
{
    store_laws::one_terrain();
    store_laws::one_first_fault();
    read_store(&OneByOne, alloc, bytes)
}

/// The same as [`read_heights`], by as many threads as pay on this machine.
pub fn read_heights_beside<R: Threads + Sync>(
    rt: &R,
    alloc: Global,
    bytes: &[u8],
) -> Result<StoredHeights, StoreFault>
    // Ok comes exactly where the bytes are a store, and gives its header and its terrain.
    ensures store { IfOk result (λ stored. IsStore (head_of stored.header) stored.grid bytes.now) }
    ensures accepts { (head : Head) → (terrain : Terrain) → IsStore head terrain bytes.now
        → IsOkUnless result NoMemory }
    ensures same { (head : Head) → (terrain : Terrain) → IsStore head terrain bytes.now
        → IfOk result (λ stored. (head_of stored.header ≡ head) × (stored.grid ≡ terrain)) }

    // Each fault but want of memory comes exactly where it is the first one.
    ensures fault { IfErr result (λ fault. (fault ≡ NoMemory) ⊎ HasStoreFault bytes.now fault) }
    ensures refuses { (fault : StoreFault) → HasStoreFault bytes.now fault
        → (result ≡ Err fault) ⊎ (result ≡ Err NoMemory) }
{
    store_laws::one_terrain();
    store_laws::one_first_fault();
    read_store(&SideBySide::new(rt), alloc, bytes)
}
