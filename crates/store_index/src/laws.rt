//! Laws over the definitions: the function does nothing, and its contract is the law.

ghost use Rattle.store_index.specs.Laws.{BlocksAreThere, BlocksAreFound, NumbersAreBelow};

/// The blocks of a store stand whole in its bytes, and each is found by its number.
pub fn blocks_of_stores()
    ensures there { BlocksAreThere }
    ensures found { BlocksAreFound }
    ensures below { NumbersAreBelow }
{}
