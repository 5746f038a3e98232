//! The states of a book and its events, plainly: what is held and pinned, what can be claimed, and what
//! each event answers and changes.
//!
//! Each function is short and slow, and its result is a definition of `plan_model`. `plan_plain` stands
//! on them.
#![tactic(auto)]

mod answers;
mod finished;
mod frames;
mod holders;
mod in_use;
mod jobs;
mod moves;
mod numbered;
mod offers;
mod pinners;
mod state;
mod steps;

pub use frames::PlainTile;
pub use holders::holder_of;
pub use in_use::finest_used;
pub use offers::PlainOffer;
pub use pinners::pinner_of;
pub use state::{PlainFrame, PlainLevel, PlainState, frame_number, has_work, job_of, same_region};
pub use steps::{is_taken, is_viewer};
