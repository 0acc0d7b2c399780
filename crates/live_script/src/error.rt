use repo_member::GroupFault;
use script_lang::{CheckFault, LineFault};
use script_report::Refusal;
use std::alloc::{AllocError, AllocFailed};

/// Why a line was not taken: it is refused, for one of eight reasons, or memory ran out.
#[derive(Clone, Copy, Debug, PartialEq, Eq)]
pub enum LineError {
    Refused(Refusal),
    NoMemory,
}

impl From<AllocError> for LineError {
    ghost use Rattle.std.specs.Prelude.{◌≡◌};
    ghost use Rattle.live_script.specs.declared.error.LineError.TheVariants.{NoMemory};

    ghost from_gives = { λ _ error. error ≡ NoMemory };

    fn from(_: AllocError) -> LineError {
        LineError::NoMemory
    }
}

impl<T: Drop> From<AllocFailed<T>> for LineError {
    ghost use Rattle.std.specs.Prelude.{◌≡◌};
    ghost use Rattle.live_script.specs.declared.error.LineError.TheVariants.{NoMemory};

    ghost from_gives = { λ _ error. error ≡ NoMemory };

    fn from(_: AllocFailed<T>) -> LineError {
        LineError::NoMemory
    }
}

impl From<LineFault> for LineError {
    ghost use Rattle.std.specs.Prelude.{◌≡◌};
    ghost use Rattle.live_script.specs.LineErrors.{line_fault_error};

    ghost from_gives = { λ fault error. error ≡ line_fault_error fault };

    fn from(fault: LineFault) -> LineError {
        match fault {
            LineFault::Syntax => LineError::Refused(Refusal::Syntax),
            LineFault::Limit => LineError::Refused(Refusal::Limit),
            LineFault::NoMemory => LineError::NoMemory,
        }
    }
}

impl From<CheckFault> for LineError {
    ghost use Rattle.std.specs.Prelude.{◌≡◌};
    ghost use Rattle.live_script.specs.LineErrors.{check_line_error};

    ghost from_gives = { λ fault error. error ≡ check_line_error fault };

    fn from(fault: CheckFault) -> LineError {
        match fault {
            CheckFault::NoGroup => LineError::Refused(Refusal::NoGroup),
            CheckFault::Late => LineError::Refused(Refusal::Late),
            CheckFault::UnknownLabel => LineError::Refused(Refusal::UnknownLabel),
            CheckFault::Duplicate => LineError::Refused(Refusal::Duplicate),
            CheckFault::Limit => LineError::Refused(Refusal::Limit),
            CheckFault::TooLarge => LineError::Refused(Refusal::TooLarge),
            CheckFault::NoMemory => LineError::NoMemory,
        }
    }
}

impl From<GroupFault> for LineError {
    ghost use Rattle.std.specs.Prelude.{◌≡◌};
    ghost use Rattle.live_script.specs.LineErrors.{group_stop};

    ghost from_gives = { λ fault error. error ≡ group_stop fault };

    fn from(fault: GroupFault) -> LineError {
        match fault {
            GroupFault::Duplicate => LineError::Refused(Refusal::Duplicate),
            GroupFault::Full => LineError::Refused(Refusal::Limit),
            GroupFault::NoMemory => LineError::NoMemory,
        }
    }
}
