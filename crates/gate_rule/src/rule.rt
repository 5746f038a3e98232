//! The rule of the gate, and what its steps tell.

use crate::journal::Desk;
use crate::view::View;
use atomic_table::{Join, Play, Split, TableRule};
use std::marker::Brand;
use std::snapshot::Snapshot;
use terrain_store::Shape;

/// What a clip is about: a terrain with its levels, and K.
#[derive(Drop)]
pub struct Key {
    /// The terrain with its levels.
    pub about: Snapshot<Shape>,
    /// K.
    pub size: u8,
}

/// The rule of the table of a clip: three words, the ticket to draw next, the ticket that is served and the number of
/// entries, and one slot with the book and its journal.
pub struct Gate;

impl TableRule<Option<Desk>, View, Key> for Gate {
    ghost use Rattle.gate_rule.specs.Rule.{Kept, first_view};

    ghost holds = { λ key. Kept (record { land = key.about.value; size = key.size }) };

    ghost first = { λ key. first_view (record { land = key.about.value; size = key.size }) };
}

/// A ticket is drawn.
pub struct Draw;

impl Play<Option<Desk>, View> for Draw {
    ghost use Rattle.gate_rule.specs.Plays.{Drawn};

    ghost then = { λ st before found after. Drawn before found after };
}

/// The pass looks which ticket is served: where it is its own, it takes the slot.
pub struct Look;

impl Play<Option<Desk>, View> for Look {
    ghost use Rattle.gate_rule.specs.Plays.{Looked};

    ghost then = { λ st before found after. Looked before found after };
}

/// Names what the desk is as an entry is counted.
pub trait Said {
    ghost use Rattle.gate_rule.specs.declared.journal.Desk.{Desk};

    ghost desk: { Desk };
}

impl Said for Brand {
    ghost use Rattle.gate_rule.specs.Rule.{no_desk};

    ghost desk = { no_desk };
}

/// The entry is counted.
pub struct Count<E: Said> {
    marker: std::marker::PhantomData<E>,
}

impl<E: Said> Play<Option<Desk>, View> for Count<E> {
    ghost use Rattle.gate_rule.specs.Plays.{Counted};

    ghost then = { λ st before found after. Counted E.desk before after };
}

/// The turn is passed on.
pub struct PassOn;

impl Play<Option<Desk>, View> for PassOn {
    ghost use Rattle.gate_rule.specs.Plays.{PassedOn};

    ghost then = { λ st before found after. PassedOn before after };
}

/// The least number that a pass has left to give is cut off for a new pass.
pub struct Cut;

impl Split<View> for Cut {
    ghost use Rattle.gate_rule.specs.Rule.{kept_back, given_away};

    ghost left = { kept_back };

    ghost right = { given_away };
}

/// A pass takes over what another has seen, and its numbers.
pub struct Tie;

impl Join<View> for Tie {
    ghost use Rattle.gate_rule.specs.Rule.{joined, spent};

    ghost both = { joined };

    ghost spent = { spent };
}
