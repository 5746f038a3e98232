//! Laws of how many places and how many moves a history has.

ghost use Rattle.plan_histories.specs.Places.{NoEntryNoPlace, PlacesWithOneMore, PlacesAreFew, MovesOfTwo};
ghost use Rattle.plan_histories.specs.Places.{MovesWithOneMore};

/// A history of no entry takes no place.
pub fn no_entry_no_place()
    ensures { NoEntryNoPlace }
{}

/// A legal history with one entry more takes as many places more as its event with its answer.
pub fn places_with_one_more()
    ensures { PlacesWithOneMore }
{}

/// A claim and a beginning take at most two places, a move, a publication and an end at most one, and a
/// job that is given back none.
pub fn places_are_few()
    ensures { PlacesAreFew }
{}

/// The moves of two lists of entries are those of the first and those of the second.
pub fn moves_of_two()
    ensures { MovesOfTwo }
{}

/// One entry more is one move more where its event is a move.
pub fn moves_with_one_more()
    ensures { MovesWithOneMore }
{}
