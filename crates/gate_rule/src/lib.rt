//! The rule of the gate: what is true of a shared book, its journal and all passes between any two steps, and the
//! steps.
#![tactic(auto)]

mod journal;
mod rule;
mod turns;
mod view;

pub use journal::{Desk, Journal};
pub use rule::{Count, Cut, Draw, Gate, Key, Look, PassOn, Said, Tie};
pub use turns::{
    GateTable, Seat, TurnOut, close, enter, leave, note, open, places_of, split, take_over,
};
pub use view::View;
