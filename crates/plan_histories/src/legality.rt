//! Laws of legal lists of entries, from any state.

ghost use Rattle.plan_histories.specs.Legal.{StatesAfterTwo, LegalTogether, LegalFronts, LegalWithOneMore};
ghost use Rattle.plan_histories.specs.Legal.{StatesAfterOneMore};

/// The state after two lists of entries is that after the second, from the state that the first leaves.
pub fn states_after_two()
    ensures { StatesAfterTwo }
{}

/// Two lists of entries are legal, one after the other, where the first is legal and the second from the
/// state that it leaves.
pub fn legal_together()
    ensures { LegalTogether }
{}

/// A front of a legal list of entries is legal.
pub fn legal_fronts()
    ensures { LegalFronts }
{}

/// A list with one entry more is legal where the list is and the entry is legal in the state that it leaves.
pub fn legal_with_one_more()
    ensures { LegalWithOneMore }
{}

/// The state after one entry more is what its event leaves.
pub fn states_after_one_more()
    ensures { StatesAfterOneMore }
{}
