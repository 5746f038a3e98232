//! How a store is made of its bytes.

ghost use Rattle.std.specs.Prelude.{◌≡◌, ◌⊎◌, IfOk, IfErr, IsOkUnless, Err};
ghost use Rattle.terrain_model.specs.Terrain.{Terrain};
ghost use Rattle.store_model.specs.Format.{Head};
ghost use Rattle.store_model.specs.Store.{IsStore};
ghost use Rattle.store_model.specs.Faults.{HasStoreFault};
ghost use Rattle.store_model.specs.declared.fault.StoreFault.{StoreFault};
ghost use Rattle.store_model.specs.declared.fault.StoreFault.TheVariants.{NoMemory};
ghost use Rattle.terrain_store.specs.Stores.{IsStored};

use crate::store::{Store, keep};
use std::alloc::Global;
use std::thread::Threads;
use store_model::StoreFault;
use store_reader::{StoredHeights, read_heights, read_heights_beside};

/// The store whose bytes are given, of either version, or the first fault of bytes that are no store.
///
/// Each block is decoded and judged once. Where memory runs out the answer is `NoMemory`; at most two levels of heights
/// are held at a time.
pub fn read_store(alloc: Global, bytes: Vec<u8>) -> Result<Store, StoreFault>
    // Ok comes exactly where the bytes are a store, which has its header and its terrain.
    ensures store { IfOk result (λ store. IsStored store) }
    ensures bytes { IfOk result (λ store. store.bytes ≡ bytes.items) }
    ensures accepts { (head : Head) → (terrain : Terrain) → IsStore head terrain bytes.items
        → IsOkUnless result NoMemory }
    ensures same { (head : Head) → (terrain : Terrain) → IsStore head terrain bytes.items
        → IfOk result (λ store. store ≡ record { head = head; terrain = terrain; bytes = bytes.items }) }

    // Each fault but want of memory comes exactly where it is the first one.
    ensures fault { IfErr result (λ fault. (fault ≡ NoMemory) ⊎ HasStoreFault bytes.items fault) }
    ensures refuses { (fault : StoreFault) → HasStoreFault bytes.items fault
        → (result ≡ Err fault) ⊎ (result ≡ Err NoMemory) }
{
    let stored = read_heights(alloc, bytes.as_slice())?;
    let StoredHeights { header, grid } = stored;
    match keep(alloc, bytes, header, &grid) {
        Ok(store) => Ok(store),
        Err(_) => Err(StoreFault::NoMemory),
    }
}

/// The same as [`read_store`], by as many threads as pay on this machine.
pub fn read_store_beside<R: Threads + Sync>(
    rt: &R,
    alloc: Global,
    bytes: Vec<u8>,
) -> Result<Store, StoreFault>
    // Ok comes exactly where the bytes are a store, which has its header and its terrain.
    ensures store { IfOk result (λ store. IsStored store) }
    ensures bytes { IfOk result (λ store. store.bytes ≡ bytes.items) }
    ensures accepts { (head : Head) → (terrain : Terrain) → IsStore head terrain bytes.items
        → IsOkUnless result NoMemory }
    ensures same { (head : Head) → (terrain : Terrain) → IsStore head terrain bytes.items
        → IfOk result (λ store. store ≡ record { head = head; terrain = terrain; bytes = bytes.items }) }

    // Each fault but want of memory comes exactly where it is the first one.
    ensures fault { IfErr result (λ fault. (fault ≡ NoMemory) ⊎ HasStoreFault bytes.items fault) }
    ensures refuses { (fault : StoreFault) → HasStoreFault bytes.items fault
        → (result ≡ Err fault) ⊎ (result ≡ Err NoMemory) }
{
    let stored = read_heights_beside(rt, alloc, bytes.as_slice())?;
    let StoredHeights { header, grid } = stored;
    match keep(alloc, bytes, header, &grid) {
        Ok(store) => Ok(store),
        Err(_) => Err(StoreFault::NoMemory),
    }
}
