//! Laws of a filled region that grows in its window.

ghost use Rattle.plan_laws.specs.Hulls.{InsideIsHeld, PartsAreFilledIn, HullsAreEvenInside, StripsInWindows};
ghost use Rattle.plan_laws.specs.Hulls.{StripsUnlessWhole};

use plan_model::windows_have_even_corners;

/// A region of some cells lies in a window by its corners exactly where the window holds it.
pub fn inside_is_held()
    ensures { InsideIsHeld }
{}

/// A filled region that is empty or lies in its window with even corners is empty or lies in the window.
pub fn parts_are_filled_in()
    ensures { PartsAreFilledIn }
{}

/// A filled region and its current strip grow to a region with even corners in the window.
pub fn hulls_are_even_inside()
    ensures { HullsAreEvenInside }
{
    windows_have_even_corners();
}

/// The current strip of a window has a cell and lies in the window.
pub fn strips_lie_in_windows()
    ensures { StripsInWindows }
{}

/// There is a current strip unless the filled region is the window.
pub fn strips_are_there_unless_whole()
    ensures { StripsUnlessWhole }
{}
