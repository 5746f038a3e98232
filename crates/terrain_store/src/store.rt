//! What a store tells of itself.

ghost use Rattle.std.specs.Prelude.{◌≡◌, ◌<◌, IfOk};
ghost use Rattle.store_model.specs.Store.{IsStore};
ghost use Rattle.store_reader.specs.Headers.{head_of};
ghost use Rattle.terrain_store.specs.Blocks.{IsKindOf};

use crate::shape::Shape;
use block_heights::{Block, Kind};
use clip_regions::Region;
use height_pyramid::Grid;
use rice_residuals::NoMemory;
use std::alloc::Global;
use std::marker::Model;
use std::snapshot::Snapshot;
use store_index::{BlockIndex, block_total, find_block};
use store_reader::{Header, StoredHeights, read_heights};

/// A terrain in its packed store, of either version.
#[derive(Drop)]
pub struct Store {
    bytes: Vec<u8>,
    header: Header,
    least: i16,
    most: i16,
    index: BlockIndex,
    terrain: Snapshot<Grid>,
}

impl Model for Store {
    ghost use Rattle.terrain_store.specs.Stores.{Stored, IsKept};
    ghost use Rattle.store_reader.specs.Headers.{head_of};

    ghost Value = { Stored };

    ghost view = { λ s. record { head = head_of s.header; terrain = s.terrain.value; bytes = s.bytes.items } };

    ghost invariant = { λ s.
        IsKept s.header (record { head = head_of s.header; terrain = s.terrain.value; bytes = s.bytes.items })
        s.index s.least s.most };
}

// The store whose bytes stand for a grid's terrain.
pub(crate) fn keep(
    alloc: Global,
    bytes: Vec<u8>,
    header: Header,
    grid: &Grid,
) -> Result<Store, NoMemory>
    requires { IsStore (head_of header) grid.now bytes.items }
    ensures { IfOk result (λ store. store ≡ record { head = head_of header; terrain = grid.now; bytes = bytes.items }) }
{
    store_index::blocks_of_stores();
    let index = BlockIndex::new(alloc, bytes.as_slice(), header)?;
    Ok(Store {
        least: grid.least(),
        most: grid.most(),
        terrain: Snapshot::of(grid),
        bytes,
        header,
        index,
    })
}

// What the bytes of a block are at a level of so many.
fn kind_of(content: &[u8], level: u8, levels: u8) -> Kind<'_>
    requires { level < levels }
    ensures { IsKindOf result level levels content.now }
{
    if level + 1 == levels {
        return Kind::Plain(content);
    }
    Kind::Words(content)
}

impl Store {
    ghost use Rattle.height_pyramid.specs.Extremes.{IsLeast, IsGreatest};
    ghost use Rattle.four_point.specs.declared.patch.Patch.{Patch};
    ghost use Rattle.four_point.specs.Steps.{IsStep};
    ghost use Rattle.block_heights.specs.Decoded.{IsPatchOf, HasKind};
    ghost use Rattle.store_index.specs.Places.{block_total};
    ghost use Rattle.terrain_store.specs.Stores.{IsStored, land_of};
    ghost use Rattle.terrain_store.specs.Blocks.{HasBlock};

    /// The store's bytes, which are those of its file.
    pub fn bytes(&self) -> &[u8]
        ensures value { result.now ≡ self.now.bytes }
        ensures stored { IsStored self.now }
    {
        self.bytes.as_slice()
    }

    /// The name of its terrain, with its sides and its number of levels.
    pub fn shape(&self) -> Shape
        ensures { result ≡ land_of self.now }
    {
        Shape::new(self.header, &self.terrain)
    }

    /// The least height of the terrain, in metres.
    pub fn least(&self) -> i16
        ensures { IsLeast result self.now.terrain.table }
    {
        self.least
    }

    /// The greatest height of the terrain, in metres.
    pub fn most(&self) -> i16
        ensures { IsGreatest result self.now.terrain.table }
    {
        self.most
    }

    /// The version of the file's layout: 1, or 2 where it names a step.
    pub fn version(&self) -> u8
        ensures { result ≡ self.now.head.version }
    {
        self.header.version
    }

    /// The step in metres, odd, and 1 in version 1: heights were kept to (step - 1) / 2 metres.
    pub fn step(&self) -> u8
        ensures { result ≡ self.now.head.step }
    {
        self.header.step
    }

    /// The terrain, read from the bytes. It takes the memory of the grid and of the next coarser level.
    pub fn grid(&self, alloc: Global) -> Result<Grid, NoMemory>
        ensures { IfOk result (λ grid. grid ≡ self.now.terrain) }
    {
        match read_heights(alloc, self.bytes.as_slice()) {
            Ok(StoredHeights { header: _, grid }) => Ok(grid),
            Err(_) => Err(NoMemory),
        }
    }

    /// How many blocks there are with cells in the terrain, at all levels together.
    pub fn blocks(&self) -> u64
        ensures { result ≡ block_total self.now.head }
    {
        u64::from(block_total(self.header))
    }

    /// The block in column `bx` and row `by` of a level: its cells in the terrain and its bytes, or `Outside` where it
    /// has no such cells or the store no such level. It is found in constant time, and no memory is taken.
    ///
    /// With the block's patch of coarser heights, `piece_heights` makes the level's heights of it.
    pub fn block(&self, level: u8, bx: i32, by: i32) -> Block<'_>
        ensures level { result.level ≡ level }
        ensures column { result.bx ≡ bx }
        ensures row { result.by ≡ by }
        ensures step { result.step ≡ self.now.head.step }
        ensures kind { HasBlock result.kind self.now level bx by result.inside }

        // What `piece_heights` asks of a block.
        ensures odd { IsStep result.step }
        ensures decodes { (patch : Patch) → IsPatchOf bx by patch → HasKind result.kind bx by result.inside patch }
    {
        store_index::blocks_of_stores();
        let step = self.header.step;
        let Some(place) = find_block(self.header, level, bx, by) else {
            return Block {
                level,
                bx,
                by,
                inside: Region::empty(),
                step,
                kind: Kind::Outside,
            };
        };
        let content = self
            .index
            .content(self.bytes.as_slice(), self.header, place.number);
        Block {
            level,
            bx,
            by,
            inside: place.cells,
            step,
            kind: kind_of(content, level, self.header.levels),
        }
    }
}
