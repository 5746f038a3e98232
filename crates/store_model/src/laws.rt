//! Laws over the definitions alone: each function does nothing, and its contract is the law.

ghost use Rattle.store_model.specs.Laws.{LevelOutside, RestoredWithinHalf, RestoredByOne, CanonicalWordBlock, RestoredIsTerrain, RestoredLevels, CanonicalStore, RestoredTerrainByOne, CanonicalStoreByOne};

/// Outside the terrain the heights of every level are 0.
pub fn level_outside()
    ensures { LevelOutside }
{}

/// A restored height lies within half a step of the height, and by the step 1 it is the height.
pub fn restored_heights()
    ensures near { RestoredWithinHalf }
    ensures same { RestoredByOne }
{
    terrain_model::coarser_level();
    four_point::values_are_near();
}

/// A canonical block of a level that isn't the coarsest stands for the restored heights, over the restored coarser
/// ones.
pub fn canonical_blocks()
    ensures { CanonicalWordBlock }
{
    four_point::predictions();
    four_point::values_are_near();
    four_point::brought_heights();
    four_point::code_size();
    rice_residuals::laws::canonical_word_is_a_word();
}

/// The restored terrain is a terrain, and its heights at every level are the restored ones.
pub fn restored_terrains()
    ensures terrain { RestoredIsTerrain }
    ensures levels { RestoredLevels }
{
    terrain_model::finest_level();
    terrain_model::coarser_level();
    four_point::brought_heights();
}

/// The canonical store of a terrain, of either version, is a store of the terrain that its step restores.
pub fn canonical_stores()
    ensures { CanonicalStore }
{
    canonical_blocks();
    restored_terrains();
    rice_residuals::laws::canonical_words_are_short();
}

/// By the step 1 the restored terrain is the terrain, and the canonical store, of either version, is a store of it.
pub fn stores_by_one()
    ensures terrain { RestoredTerrainByOne }
    ensures store { CanonicalStoreByOne }
{
    terrain_model::finest_level();
    restored_heights();
    canonical_stores();
}
