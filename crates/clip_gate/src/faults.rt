//! What a call over a clip refuses.

/// Fewer places of the journal are free than the call asks for.
///
/// The places that are taken are the entries, and one for each pass that has a job or a frame.
#[derive(Clone, Copy, PartialEq, Eq, Debug)]
pub struct JournalFull {
    /// How many places there are: 1,048,576.
    pub limit: u32,
}

/// The pass has no number left to give.
#[derive(Clone, Copy, PartialEq, Eq, Debug)]
pub struct PassesOut;

/// Why a clip is dropped and not closed.
#[derive(Clone, Copy, PartialEq, Eq, Debug)]
pub enum CloseFault {
    /// A pass drew a ticket that was never served: the two counts differ.
    TurnOut {
        /// The ticket to draw next.
        ticket: u64,
        /// The ticket that is served.
        serving: u64,
    },
}
