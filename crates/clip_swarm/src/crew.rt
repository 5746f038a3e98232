//! The passes of a run: how many there are, and what comes of one.

use crate::frame::SwarmFrame;
use clip_gate::{Clip, Pass};
use clip_script::SwarmScript;
use std::alloc::Global;

// How many workers and renderers there are.
#[derive(Clone, Copy)]
pub(crate) struct Crew {
    pub(crate) workers: u8,
    pub(crate) renderers: u8,
}

// What all activities have in common: the memory, the clip, what the script asks, and of how many passes.
#[derive(Clone, Copy)]
pub(crate) struct Ground<'a> {
    pub(crate) alloc: Global,
    pub(crate) clip: &'a Clip,
    pub(crate) script: &'a SwarmScript,
    pub(crate) crew: Crew,
}

// What came of an activity: its pass, the frames that it made, and whether the journal was full.
#[derive(Drop)]
pub(crate) struct Outcome {
    pub(crate) pass: Pass,
    pub(crate) frames: Vec<SwarmFrame>,
    pub(crate) full: bool,
}
