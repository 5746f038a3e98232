//! Laws of adding parts, over the definitions alone: each function's contract is the law.

ghost use Rattle.ring_mesh.specs.Laws.{AddedTwice, AddedRest, FewFirst, FewRest};

/// Parts that are added one after another: both together, what is left of them, and how many triangles.
pub fn parts_add_up()
    ensures together { AddedTwice }
    ensures rest { AddedRest }
    ensures few_first { FewFirst }
    ensures few_rest { FewRest }
{}
