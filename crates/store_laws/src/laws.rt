//! Each function does nothing, and its contract is the law.

ghost use Rattle.store_laws.specs.Laws.{OneTerrain, StoreHasNoFault, OneFirstFault, FrontOfLike, StoreOfLevels};

/// No bytes stand for two terrains, whatever their headers say.
pub fn one_terrain()
    ensures { OneTerrain }
{
    terrain_model::finest_level();
    rice_residuals::laws::one_list_of_a_word();
}

/// Bytes that are a store have no fault, and others have no two first ones.
pub fn one_first_fault()
    ensures store { StoreHasNoFault }
    ensures first { OneFirstFault }
{
    rice_residuals::laws::one_list_of_a_word();
    rice_residuals::laws::one_fault_of_other_bytes();
}

/// Bytes of the coarsest levels are so by any heights that are the same at these levels.
pub fn fronts_of_like_heights()
    ensures { FrontOfLike }
{}

/// Bytes of all levels are a store of the terrain whose heights are those of the finest level.
pub fn stores_of_levels()
    ensures { StoreOfLevels }
{
    terrain_model::finest_level();
    terrain_model::coarser_level();
    four_point::predictions();
    four_point::brought_heights();
}
