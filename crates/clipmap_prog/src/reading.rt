//! How the reading of a command's files ends where it finds nothing.

use crate::fault::Fault;
use run_actions::Halt;

// Why a reading found nothing.
pub(crate) enum Stop<'a> {
    // The command is refused.
    Refused(Fault<'a>),
    // The run halts.
    Halted(Halt),
}
