// What fetchers claim.
ghost use Rattle.std.specs.Prelude.{◌≡◌, ◌+◌, ◌<◌, None, length};
ghost use Rattle.repo_plan.specs.Calls.{IsFetcher};
ghost use Rattle.bench_world.specs.Serving.{lossless};
ghost use Rattle.bench_world.specs.EventValues.{EventValue, report_value, claim_report};
ghost use Rattle.bench_world.specs.Runs.{IsStep};

use super::World;
use crate::event::{EventError, Happened};
use repo_plan::Part;

impl World {
    /// A member's fetcher claims the least part that is wanted and that no fetcher of the member claims, or none where
    /// there is none.
    pub(crate) fn claim(&mut self, m: u32, f: u32) -> Result<Happened, EventError>
        requires there { m < length self.old.members }
        requires fetcher { IsFetcher f }
        requires few { self.old.steps < 100000 }
        ensures { IsStep (lossless self.old.keys) (EventValue.Claim m f) self.old result self.new }
    {
        let member = &mut self.members[m as usize];
        let Ok(claim) = member.claim(f as u8) else {
            return Err(EventError::FetcherBusy);
        };
        self.steps += 1;
        Ok(claimed(m, u64::from(f), claim))
    }

    /// A fetcher's claim ends, and its part can be claimed again.
    pub(crate) fn lose(&mut self, m: u32, f: u32) -> Result<Happened, EventError>
        requires there { m < length self.old.members }
        requires fetcher { IsFetcher f }
        requires few { self.old.steps < 100000 }
        ensures { IsStep (lossless self.old.keys) (EventValue.Lose m f) self.old result self.new }
    {
        let member = &mut self.members[m as usize];
        let Ok(part) = member.lose(f as u8) else {
            return Err(EventError::FetcherIdle);
        };
        self.steps += 1;
        Ok(Happened::Lose {
            m,
            f: u64::from(f),
            publisher: part.publisher,
            seq: u64::from(part.seq),
            x: u64::from(part.part),
        })
    }
}

// The report of a claim.
fn claimed(m: u32, f: u64, claim: Option<Part>) -> Happened
    ensures { report_value result ≡ claim_report m f claim }
{
    match claim {
        Some(part) => Happened::ClaimPart {
            m,
            f,
            publisher: part.publisher,
            seq: u64::from(part.seq),
            x: u64::from(part.part),
        },
        None => Happened::ClaimNone { m, f },
    }
}
