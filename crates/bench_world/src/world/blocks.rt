// Blocks of insertion processes.
ghost use Rattle.std.specs.Prelude.{◌≡◌, ◌+◌, ◌<◌, length};
ghost use Rattle.repo_object.specs.Objects.{IsContent};
ghost use Rattle.bench_world.specs.Worlds.{drawing};
ghost use Rattle.bench_world.specs.EventValues.{EventValue, report_value};
ghost use Rattle.bench_world.specs.Blocks.{after_blocked, blocked_report};
ghost use Rattle.bench_world.specs.Runs.{IsStep};

use super::World;
use crate::event::{EventError, Happened};
use crate::numbers::numbers;
use bench_net::{Draws, Sent};
use repo_member::{Blocked, PublishRefusal};

impl World {
    /// A member is given a block of an insertion process. The last one that was missing publishes the object, and the
    /// member's sync Interest is sent.
    pub(crate) fn block<D: Draws>(
        &mut self,
        m: u32,
        process: u32,
        index: u64,
        content: &[u8],
        draws: &D,
    ) -> Result<Happened, EventError>
        requires there { m < length self.old.members }
        requires content { IsContent content.now }
        requires few { self.old.steps < 100000 }
        ensures { IsStep (drawing (D.draw draws.now)) (EventValue.Block m process index content.now)
            self.old result self.new }
    {
        self.sent.reserve(1)?;
        let member = &mut self.members[m as usize];
        let vector = numbers(self.alloc, member.vector())?;
        let draw = draws.draw(m, member.next_draw());
        let blocked = match member.block(&self.group, process, index, content, self.time, draw) {
            Ok(blocked) => blocked,
            Err(PublishRefusal::NumbersSpent { .. }) => {
                return Err(EventError::NumbersSpent);
            }
            Err(PublishRefusal::NoMemory) => return Err(EventError::NoMemory),
        };
        self.unsettled.note_blocked(m, &blocked);
        let happened = send_blocked(&mut self.sent, m, vector, blocked);
        self.steps += 1;
        Ok(happened)
    }
}

// Sends the sync Interest of a member that published an object. Capacity was reserved for it.
fn send_blocked(sent: &mut Sent, m: u32, mut vector: Vec<u16>, blocked: Blocked) -> Happened
    requires room { 0 < sent.old.spare }
    requires few { length sent.old.packets < 4294967295 }
    requires there { m < length vector.items }
    ensures sent { sent.new.packets ≡ after_blocked m vector.items blocked sent.old.packets }
    ensures report { report_value result ≡ blocked_report m (length sent.old.packets + 1) blocked }
{
    match blocked {
        Blocked::Unknown => Happened::Block404 { m },
        Blocked::Waiting => Happened::Block300 { m },
        Blocked::Already => Happened::Block200 { m },
        Blocked::Published(published) => {
            vector[m as usize] = published.seq;
            Happened::BlockPublished {
                m,
                seq: u64::from(published.seq),
                sync: u64::from(sent.add_reserved(m, vector, published.sync)),
            }
        }
    }
}
