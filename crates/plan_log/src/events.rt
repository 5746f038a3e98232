//! The events of a script.

ghost use Rattle.std.specs.Prelude.{◌≡◌, IfOk};
ghost use Rattle.std.specs.List.{filter_map, list_any};
ghost use Rattle.clip_script.specs.Views.{is_view};
ghost use Rattle.plan_log.specs.Logs.{event_of};

use clip_script::Step;
use plan_plain::PlainAsked;
use std::alloc::{AllocError, Global};

// Whether a step asks for a view, which the plan hasn't.
fn is_view(step: &Step) -> bool
    ensures value { result ≡ is_view step.now }
{
    match step {
        Step::Book { .. } => false,
        Step::See(_) | Step::EndSeen { .. } => true,
    }
}

// Whether any of these steps asks for a view, which the plan hasn't.
pub(crate) fn ask_view(steps: &[Step]) -> bool
    ensures value { result ≡ list_any is_view steps.now }
{
    steps.iter().any(|step| is_view(step))
}

// The event that a step is, where it doesn't ask for a view.
fn event_of(step: &Step) -> Option<PlainAsked>
    ensures value { result ≡ event_of step.now }
{
    match *step {
        Step::Book { pass, event } => Some(PlainAsked { pass, event }),
        Step::See(_) | Step::EndSeen { .. } => None,
    }
}

// The events among these steps. It fails where memory runs out.
pub(crate) fn events_of(alloc: Global, steps: &[Step]) -> Result<Vec<PlainAsked>, AllocError>
    ensures value { IfOk result (λ events. events.items ≡ filter_map event_of steps.now) }
{
    steps
        .iter()
        .filter_map(|step| event_of(step))
        .collect(alloc)
}
