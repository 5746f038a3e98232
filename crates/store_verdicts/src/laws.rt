//! Each function does nothing, and its contract is the law.

ghost use Rattle.store_verdicts.specs.Laws.{WordOrFault, StoreOrFault, OneVerdict};

/// Any bytes are a word of a count of residuals, or have a first fault.
pub fn word_or_fault()
    ensures { WordOrFault }
{}

/// Any bytes are a store of some terrain, of either version, or have a first fault.
pub fn store_or_fault()
    ensures { StoreOrFault }
{
    terrain_model::finest_level();
    store_model::laws::level_outside();
    store_laws::fronts_of_like_heights();
    store_laws::stores_of_levels();
}

/// Of any bytes exactly one verdict is right: the header and the terrain that they stand for, or their first fault.
pub fn one_verdict()
    ensures { OneVerdict }
{
    store_or_fault();
    store_laws::one_terrain();
    store_laws::one_first_fault();
}
