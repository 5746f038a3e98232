//! Laws of what a pass has while events of other passes are answered.

ghost use Rattle.plan_histories.specs.Parts.{PassesAreKept, MovesLeaveParts, PublicationsLeaveParts, OthersKeepParts};
ghost use Rattle.plan_histories.specs.Parts.{EntriesOfOthersLeaveParts, NoEntryNoPart, NoEntryInTwo};

/// An event leaves the number of passes.
pub fn passes_are_kept()
    ensures { PassesAreKept }
{}

/// A move leaves what each pass has.
pub fn moves_leave_parts()
    ensures { MovesLeaveParts }
{}

/// A publication leaves what each pass has.
pub fn publications_leave_parts()
    ensures { PublicationsLeaveParts }
{}

/// An event of one pass leaves what every other pass has.
pub fn others_keep_parts()
    ensures { OthersKeepParts }
{}

/// A list of entries without one of a pass leaves what the pass has.
pub fn entries_of_others_leave_parts()
    ensures { EntriesOfOthersLeaveParts }
{}

/// A pass without an entry in a history has nothing.
pub fn no_entry_no_part()
    ensures { NoEntryNoPart }
{}

/// Two lists together have no entry of a pass where neither has one.
pub fn no_entry_in_two()
    ensures { NoEntryInTwo }
{}
