//! The status of a run.

ghost use Rattle.std.specs.Prelude.{◌≡◌};
ghost use Rattle.clip_runs.specs.Statuses.{IsRunStatus, ended_by, run_status};

use run_actions::Halt;

// The status of a run.
pub(crate) fn run_status(run: Result<(), Halt>) -> u8
    ensures value { result ≡ run_status run }
    ensures status { IsRunStatus result }
    ensures ended { ended_by result ≡ run }
{
    match run {
        Ok(()) => 0,
        Err(Halt::ShelfFailed) => 3,
        Err(Halt::SinkFailed) => 4,
        Err(Halt::NoMemory) => 5,
    }
}

/// How the run with a status ended: 0 done, 3 a call of the shelf failed, 4 a call of the sink failed, 5 no memory.
pub fn ended_by(status: u8) -> Result<(), Halt>
    ensures value { result ≡ ended_by status }
{
    if status == 0 {
        Ok(())
    } else if status == 3 {
        Err(Halt::ShelfFailed)
    } else if status == 4 {
        Err(Halt::SinkFailed)
    } else {
        Err(Halt::NoMemory)
    }
}
