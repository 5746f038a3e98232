//! Laws of strips and pieces.

ghost use Rattle.plan_model.specs.Laws.{StripsPartition, PiecesPartition, GrowsToRectangle};

/// A filled region and its strips cover their window, and no cell twice.
pub fn strips_cover_the_window()
    ensures { StripsPartition }
{}

/// The pieces of a region cover it, and no cell twice.
pub fn pieces_cover_the_region()
    ensures { PiecesPartition }
{}

/// A filled region and its first strip are together one rectangle.
pub fn strips_grow_rectangles()
    ensures { GrowsToRectangle }
{}
