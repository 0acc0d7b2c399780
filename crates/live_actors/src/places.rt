ghost use Rattle.std.specs.Prelude.{◌≡◌, ◌<◌, ◌≤◌, [], ◌∷◌, IfOk, OnOk};
ghost use Rattle.repo_plan.specs.Calls.{IsFetcher};
ghost use Rattle.live_actors.specs.ActorCalls.{Progress, Makes, IsOfMember};
ghost use Rattle.live_actors.specs.ActorCalls.{Call};

use live_member::{Lent, Lists, LiveReply, Told};
use repo_plan::Part;
use std::alloc::AllocError;

/// A live group, as one actor sees it: each method makes one call, and adds it with its answer to the calls so far.
///
/// Each method takes at most one lock, and releases it before it returns. If memory runs out, nothing is said of calls.
pub trait Places<L: Lists> {
    /// How many members there are, how many inboxes the actor may put sync Interests into, the calls so far, and how
    /// many tickets are left.
    ghost progress: { Self → Progress };

    /// Passes the gate as the member's actor of this number.
    fn pass(&mut self, member: u32, actor: u8) -> Result<(), AllocError>
        ensures { OnOk result (Makes (Call.Pass member actor ∷ []) (progress self.old) (progress self.new)) };

    /// The member publishes its next object and gives the sync Interest of it. `None` if no object is left to publish,
    /// or if its journal has no capacity left. A call that answers `None` takes a ticket.
    fn publish_next(&mut self, member: u32) -> Result<Option<Told<L>>, AllocError>
        requires member { member < (progress self.old).members }
        requires ticket { 0 < (progress self.old).left }
        ensures { IfOk result (λ r. Makes (Call.Publish member r ∷ []) (progress self.old) (progress self.new)) };

    /// Puts a copy of a sync Interest into the inbox of another member. A full inbox loses it.
    fn tell(&mut self, other: u32, told: &Told<L>) -> Result<(), AllocError>
        requires { other < (progress self.old).senders }
        ensures { OnOk result (Makes (Call.Tell other told.now ∷ []) (progress self.old) (progress self.new)) };

    /// Takes the first sync Interest out of the actor's own inbox.
    fn take(&mut self) -> Result<Option<Told<L>>, AllocError>
        ensures { IfOk result (λ r. Makes (Call.Take r ∷ []) (progress self.old) (progress self.new)) };

    /// The member hears a sync Interest.
    fn hear(&mut self, member: u32, told: &Told<L>) -> Result<LiveReply, AllocError>
        requires { member < (progress self.old).members }
        ensures { IfOk result (λ r. Makes (Call.Hear member told.now r ∷ []) (progress self.old)
            (progress self.new)) };

    /// A fetcher of the member, 1 or 2, claims a part. Each claim takes a ticket.
    fn claim(&mut self, member: u32, f: u8) -> Result<LiveReply, AllocError>
        requires member { member < (progress self.old).members }
        requires fetcher { IsFetcher f }
        requires two { f ≤ 2 }
        requires ticket { 0 < (progress self.old).left }
        ensures call { IfOk result (λ r. Makes (Call.Claim member f r ∷ []) (progress self.old) (progress self.new)) }
        ensures publisher { IfOk result (λ r. IsOfMember (progress self.old).members r) };

    /// A member lends the packet of a part of its own.
    fn lend(&mut self, publisher: u32, part: Part) -> Result<Option<Lent<L>>, AllocError>
        requires { publisher < (progress self.old).members }
        ensures { IfOk result (λ r. Makes (Call.Lend publisher part r ∷ []) (progress self.old) (progress self.new)) };

    /// A fetcher of the member is given the packet that was lent for its claim.
    fn accept(&mut self, member: u32, f: u8, lent: &Lent<L>) -> Result<LiveReply, AllocError>
        requires member { member < (progress self.old).members }
        requires fetcher { IsFetcher f }
        ensures { IfOk result (λ r.
            Makes (Call.Accept member f lent.now r ∷ []) (progress self.old) (progress self.new)) };

    /// A fetcher's claim ends without a packet.
    fn lose(&mut self, member: u32, f: u8) -> Result<LiveReply, AllocError>
        requires member { member < (progress self.old).members }
        requires fetcher { IsFetcher f }
        ensures { IfOk result (λ r. Makes (Call.Lose member f r ∷ []) (progress self.old) (progress self.new)) };
}
