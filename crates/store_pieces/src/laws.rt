//! Laws over the definitions: the function does nothing, and its contract is the law.

ghost use Rattle.store_pieces.specs.Laws.{PiecesAreHeights, PiecesHaveNoFault};

/// A piece of a block of a store is decoded to the heights of its level, and refused by no fault.
pub fn pieces_of_blocks()
    ensures heights { PiecesAreHeights }
    ensures faults { PiecesHaveNoFault }
{
    store_model::laws::level_outside();
    rice_residuals::laws::one_list_of_a_word();
    rice_residuals::laws::one_fault_of_other_bytes();
}
