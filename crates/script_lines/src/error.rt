ghost use Rattle.std.specs.Prelude.{◌≡◌, IfOk, OnOk};
ghost use Rattle.script_lines.specs.LineErrors.{line_error_status, line_error_text};

use bench_world::EventError;
use repo_io::Status;
use repo_watch::{TakeFault, WatchFault};
use script_lang::{CheckFault, LineFault};
use script_report::{Refusal, put_foreign, put_refused};
use std::alloc::{AllocError, AllocFailed};

/// Why a line was not taken.
#[derive(Clone, Copy, Debug, PartialEq, Eq)]
pub enum LineError {
    Refused(Refusal),
    /// It brings octets that pass their checks and that no member made.
    Foreign,
    NoMemory,
}

/// Writes into `report`, in place of its octets, why the run stops at the line of this number, and gives the status.
pub fn put_line_error(
    report: &mut Vec<u8>,
    line: u32,
    error: LineError,
) -> Result<Status, AllocError>
    ensures status { IfOk result (λ status. status ≡ line_error_status line error) }
    ensures text { OnOk result (report.new.items ≡ line_error_text line error) }
{
    report.clear();
    match error {
        LineError::Refused(refusal) => {
            let number = refusal.number();
            put_refused(report, u64::from(line), u64::from(number), refusal.word())?;
            Ok(Status::Refused { line, number })
        }
        LineError::Foreign => {
            put_foreign(report, u64::from(line))?;
            Ok(Status::Foreign { line })
        }
        LineError::NoMemory => Err(AllocError),
    }
}

impl From<AllocError> for LineError {
    ghost use Rattle.std.specs.Prelude.{◌≡◌};
    ghost use Rattle.script_lines.specs.declared.error.LineError.TheVariants.{NoMemory};

    ghost from_gives = { λ _ error. error ≡ NoMemory };

    fn from(_: AllocError) -> LineError {
        LineError::NoMemory
    }
}

impl<T: Drop> From<AllocFailed<T>> for LineError {
    ghost use Rattle.std.specs.Prelude.{◌≡◌};
    ghost use Rattle.script_lines.specs.declared.error.LineError.TheVariants.{NoMemory};

    ghost from_gives = { λ _ error. error ≡ NoMemory };

    fn from(_: AllocFailed<T>) -> LineError {
        LineError::NoMemory
    }
}

impl From<LineFault> for LineError {
    ghost use Rattle.std.specs.Prelude.{◌≡◌};
    ghost use Rattle.script_lines.specs.LineErrors.{line_fault_error};

    ghost from_gives = { λ fault error. error ≡ line_fault_error fault };

    fn from(fault: LineFault) -> LineError {
        match fault {
            LineFault::Syntax => LineError::Refused(Refusal::Syntax),
            LineFault::Limit => LineError::Refused(Refusal::Limit),
            LineFault::NoMemory => LineError::NoMemory,
        }
    }
}

impl From<CheckFault> for LineError {
    ghost use Rattle.std.specs.Prelude.{◌≡◌};
    ghost use Rattle.script_lines.specs.LineErrors.{check_line_error};

    ghost from_gives = { λ fault error. error ≡ check_line_error fault };

    fn from(fault: CheckFault) -> LineError {
        match fault {
            CheckFault::NoGroup => LineError::Refused(Refusal::NoGroup),
            CheckFault::Late => LineError::Refused(Refusal::Late),
            CheckFault::UnknownLabel => LineError::Refused(Refusal::UnknownLabel),
            CheckFault::Duplicate => LineError::Refused(Refusal::Duplicate),
            CheckFault::Limit => LineError::Refused(Refusal::Limit),
            CheckFault::TooLarge => LineError::Refused(Refusal::TooLarge),
            CheckFault::NoMemory => LineError::NoMemory,
        }
    }
}

impl From<WatchFault> for LineError {
    ghost use Rattle.std.specs.Prelude.{◌≡◌};
    ghost use Rattle.script_lines.specs.LineErrors.{watch_stop};

    ghost from_gives = { λ fault error. error ≡ watch_stop fault };

    fn from(fault: WatchFault) -> LineError {
        match fault {
            WatchFault::Full => LineError::Refused(Refusal::Limit),
            WatchFault::NoMemory => LineError::NoMemory,
        }
    }
}

impl From<TakeFault> for LineError {
    ghost use Rattle.std.specs.Prelude.{◌≡◌};
    ghost use Rattle.script_lines.specs.LineErrors.{take_stop};

    ghost from_gives = { λ fault error. error ≡ take_stop fault };

    fn from(fault: TakeFault) -> LineError {
        match fault {
            TakeFault::NoSuchWatch => LineError::Refused(Refusal::NoSuchWatch),
            TakeFault::NoMemory => LineError::NoMemory,
        }
    }
}

impl From<EventError> for LineError {
    ghost use Rattle.std.specs.Prelude.{◌≡◌};
    ghost use Rattle.script_lines.specs.LineErrors.{step_line_error};

    ghost from_gives = { λ fault error. error ≡ step_line_error fault };

    fn from(fault: EventError) -> LineError {
        match fault {
            EventError::NoSuchPacket => LineError::Refused(Refusal::NoSuchPacket),
            EventError::FetcherBusy => LineError::Refused(Refusal::FetcherBusy),
            EventError::FetcherIdle => LineError::Refused(Refusal::FetcherIdle),
            EventError::NumbersSpent => LineError::Refused(Refusal::NumbersSpent),
            EventError::NoSuchNumber => LineError::Refused(Refusal::NoSuchNumber),
            EventError::Foreign => LineError::Foreign,
            EventError::NoMemory => LineError::NoMemory,
        }
    }
}
