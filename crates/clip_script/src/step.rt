//! What the lines of scripts say.

use plan_model::Event;
use region_cull::View;

/// A step of a play script: what one of its lines asks for.
#[derive(Clone, Copy, PartialEq, Eq, Debug)]
pub enum Step {
    /// An event of a pass. A move or a publication is taken as pass 0's.
    Book {
        /// The pass, 0 to 15.
        pass: u8,
        /// The event.
        event: Event,
    },
    /// The view is this one from now on.
    See(View),
    /// The pass ends its frame, of which only the parts that meet the view are written.
    EndSeen {
        /// The pass, 0 to 15.
        pass: u8,
    },
}

// A viewer's place.
#[derive(Clone, Copy)]
pub(crate) struct Place {
    // The column, in samples.
    pub(crate) x: i32,
    // The row, in samples.
    pub(crate) y: i32,
    // The altitude.
    pub(crate) a: u32,
}
