// What a member fetches from the others.
ghost use Rattle.std.specs.Prelude.{◌+◌, ◌<◌, ◌≤◌, length};
ghost use Rattle.bench_world.specs.Serving.{environment};
ghost use Rattle.bench_world.specs.EventValues.{EventValue};
ghost use Rattle.bench_world.specs.Runs.{IsStep};

use super::World;
use crate::event::{EventError, Happened};
use crate::member_fetching::fetch_at;
use bench_net::Net;
use std::thread::Threads;

impl World {
    /// A member asks the others for the least 4,096 parts that it wants and that no fetcher of it claims, with at most
    /// `tries` attempts at each.
    pub(crate) fn fetch<N: Net + Sync, R: Threads + Sync>(
        &mut self,
        rt: &R,
        m: u32,
        workers: u32,
        tries: u32,
        loss: u32,
        net: &N,
    ) -> Result<Happened, EventError>
        requires there { m < length self.old.members }
        requires workers { (1 ≤ workers) × (workers ≤ 16) }
        requires tries { (1 ≤ tries) × (tries ≤ 16) }
        requires few { self.old.steps < 100000 }
        ensures { IsStep (environment self.old.keys (λ _ _. 0) (N.passes net.now))
            (EventValue.Fetch m workers tries loss)
            self.old result self.new }
    {
        let fetched = fetch_at(
            rt,
            self.alloc,
            &self.group,
            net,
            workers,
            &mut self.members,
            m,
            tries,
            loss,
        );
        let Ok(counts) = fetched else {
            return Err(EventError::NoMemory);
        };
        self.attempts += counts.attempts;
        self.parts += u64::from(counts.kept.parts);
        self.octets += counts.kept.octets;
        self.steps += 1;
        Ok(Happened::Fetch {
            m,
            planned: counts.planned as u64,
            kept: u64::from(counts.kept.parts),
            attempts: counts.attempts,
        })
    }
}
