use repo_object::PartRefusal;
use std::alloc::AllocError;
use svs_sync::SyncRefusal;
use thiserror::Error;

/// Why an object was not published.
#[derive(Clone, Copy, Debug, PartialEq, Eq, Error)]
pub enum PublishRefusal {
    /// The log has 65,535 publications, which is as far as the numbers go.
    #[error("all numbers are spent: the log has {log} publications")]
    NumbersSpent { log: u32 },
    #[error("out of memory")]
    NoMemory,
}

impl From<AllocError> for PublishRefusal {
    ghost use Rattle.std.specs.Prelude.{◌≡◌};
    ghost use Rattle.repo_member.specs.declared.refusals.PublishRefusal.TheVariants.{NoMemory};

    ghost from_gives = { λ _ refusal. refusal ≡ NoMemory };

    fn from(_: AllocError) -> PublishRefusal {
        PublishRefusal::NoMemory
    }
}

/// Why an object was not withdrawn, in the order of the tests.
#[derive(Clone, Copy, Debug, PartialEq, Eq, Error)]
pub enum WithdrawRefusal {
    /// No object was published under the number, or it is withdrawn already.
    #[error("there is no object of number {seq} that is not withdrawn")]
    NoSuchNumber { seq: u16 },
    /// The log has 65,535 publications, which is as far as the numbers go.
    #[error("all numbers are spent: the log has {log} publications")]
    NumbersSpent { log: u32 },
    #[error("out of memory")]
    NoMemory,
}

impl From<AllocError> for WithdrawRefusal {
    ghost use Rattle.std.specs.Prelude.{◌≡◌};
    ghost use Rattle.repo_member.specs.declared.refusals.WithdrawRefusal.TheVariants.{NoMemory};

    ghost from_gives = { λ _ refusal. refusal ≡ NoMemory };

    fn from(_: AllocError) -> WithdrawRefusal {
        WithdrawRefusal::NoMemory
    }
}

/// Why a sync Interest was not taken, in the order of the tests.
#[derive(Clone, Copy, Debug, PartialEq, Eq, Error)]
pub enum HearRefusal {
    /// The octets are no sync Interest of the group. Running out of memory is not among these refusals.
    #[error("{0}")]
    Sync(SyncRefusal),
    /// The vector reports more publications of this member than it made.
    #[error("{told} publications of this member are told, and it made {own}")]
    OwnNumberAhead { own: u32, told: u32 },
    #[error("out of memory")]
    NoMemory,
}

impl From<AllocError> for HearRefusal {
    ghost use Rattle.std.specs.Prelude.{◌≡◌};
    ghost use Rattle.repo_member.specs.declared.refusals.HearRefusal.TheVariants.{NoMemory};

    ghost from_gives = { λ _ refusal. refusal ≡ NoMemory };

    fn from(_: AllocError) -> HearRefusal {
        HearRefusal::NoMemory
    }
}

/// Why there is no want of a fetcher's part.
#[derive(Clone, Copy, Debug, PartialEq, Eq, Error)]
pub enum WantFault {
    #[error("the fetcher claims no part")]
    FetcherIdle,
    #[error("out of memory")]
    NoMemory,
}

impl From<AllocError> for WantFault {
    ghost use Rattle.std.specs.Prelude.{◌≡◌};
    ghost use Rattle.repo_member.specs.declared.refusals.WantFault.TheVariants.{NoMemory};

    ghost from_gives = { λ _ fault. fault ≡ NoMemory };

    fn from(_: AllocError) -> WantFault {
        WantFault::NoMemory
    }
}

/// Why an answer was not taken, in the order of the tests. The fetcher's claim stays.
#[derive(Clone, Copy, Debug, PartialEq, Eq, Error)]
pub enum AcceptRefusal {
    #[error("the fetcher claims no part")]
    FetcherIdle,
    /// The octets don't pass for the part that the fetcher claims.
    #[error("{0}")]
    Refused(PartRefusal),
    #[error("out of memory")]
    NoMemory,
}

impl From<AllocError> for AcceptRefusal {
    ghost use Rattle.std.specs.Prelude.{◌≡◌};
    ghost use Rattle.repo_member.specs.declared.refusals.AcceptRefusal.TheVariants.{NoMemory};

    ghost from_gives = { λ _ refusal. refusal ≡ NoMemory };

    fn from(_: AllocError) -> AcceptRefusal {
        AcceptRefusal::NoMemory
    }
}

impl From<PartRefusal> for AcceptRefusal {
    ghost use Rattle.std.specs.Prelude.{◌≡◌};
    ghost use Rattle.repo_member.specs.declared.refusals.AcceptRefusal.TheVariants.{Refused};

    ghost from_gives = { λ refused refusal. refusal ≡ Refused refused };

    fn from(refused: PartRefusal) -> AcceptRefusal {
        AcceptRefusal::Refused(refused)
    }
}
