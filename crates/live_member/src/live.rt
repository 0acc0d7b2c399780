ghost use Rattle.std.specs.Prelude.{◌≡◌, ◌<◌, ◌≤◌, ◌++◌, [], length, slice_index, option_map, IfOk, IfSome};
ghost use Rattle.repo_plan.specs.Calls.{IsFetcher};
ghost use Rattle.repo_member.specs.MemberState.{logged};
ghost use Rattle.repo_member.specs.Verdicts.{sync_of};
ghost use Rattle.live_member.specs.Meanings.{IsWithinLimits, objects_of, as_posts};
ghost use Rattle.live_member.specs.Lives.{living, initial_live_member, AreOfPublishedParts, ReplaysTo, IsLive};
ghost use Rattle.live_member.specs.LockedCalls.{Steps, Publishes};
ghost use Rattle.live_member.specs.declared.event.LiveEvent.TheVariants as event;

use crate::calls::{accepted, claimed, heard, lost, published};
use crate::event::{LiveEntry, LiveEvent, LiveReply};
use crate::lent::Lent;
use crate::lists::Lists;
use crate::told::Told;
use repo_member::{Group, Member};
use repo_object::Object;
use repo_plan::Part;
use std::alloc::{AllocError, Global};
use std::collections::VecDeque;
use std::marker::{Model, PhantomData};

/// The result of `publish_next`.
#[derive(Drop)]
pub enum NextTold<L: Lists> {
    /// The next object was published, and this sync Interest reports it.
    Told(Told<L>),
    /// No object is left to publish.
    Done,
    /// The journal has no capacity left.
    Full,
}

/// A member with a journal of at most `M` entries. Time stands still at 0, and every draw is the member's one value.
///
/// Each call that changes something writes exactly its own entry; one that runs out of memory has changed nothing.
pub struct Live<L: Lists, const M: u32> {
    number: u32,
    draw: u32,
    member: Member,
    journal: Vec<LiveEntry>,
    unpublished: VecDeque<Object>,
    of: PhantomData<L>,
}

// A member with its journal is dropped by one call, which is proved once, and not field by field wherever one goes out
// of scope.
impl<L: Lists, const M: u32> Drop for Live<L, M> {
    fn drop(self) {
        match self {
            Live {
                number: _,
                draw: _,
                member: _,
                journal: _,
                unpublished: _,
                of: _,
            } => {}
        }
    }
}

impl<L: Lists, const M: u32> Model for Live<L, M> {
    ghost use Rattle.live_member.specs.Lives.{Living, living, IsKept};

    ghost Value = { Living };

    ghost view = { λ l. living l.member l.journal.items l.unpublished.items };

    ghost invariant = { λ l. IsKept L.meaning M l.number l.draw
        (living l.member l.journal.items l.unpublished.items) };
}

impl<L: Lists, const M: u32> Live<L, M> {
    /// The member `number` in its initial state, with an empty journal. It is to publish `objects`.
    pub fn new(
        alloc: Global,
        g: &Group,
        number: u32,
        objects: Vec<Object>,
        draw: u32,
    ) -> Result<Live<L, M>, AllocError>
        requires group { g.now ≡ L.meaning.group }
        requires within { IsWithinLimits L.meaning }
        requires number { number < length L.meaning.lists }
        requires list { objects.items ≡ objects_of L.meaning number }
        requires draw { draw ≡ slice_index L.meaning.draws number }
        ensures begins { IfOk result (λ live. live ≡ living (initial_live_member L.meaning number) [] objects.items) }
        ensures live { IfOk result (λ live. IsLive L.meaning M live) }
    {
        Ok(Live {
            number,
            draw,
            member: Member::new(alloc, g, number, 0, draw)?,
            journal: Vec::new(alloc),
            unpublished: VecDeque::from(objects),
            of: PhantomData,
        })
    }

    pub fn number(&self) -> u32
        ensures { result ≡ self.now.state.number }
    {
        self.number
    }

    /// Publishes the next object.
    pub fn publish_next(&mut self, g: &Group) -> Result<NextTold<L>, AllocError>
        requires { g.now ≡ L.meaning.group }
        ensures { Publishes L.meaning M self.old self.new result }
    {
        let Some(object) = self.unpublished.front() else {
            return Ok(NextTold::Done);
        };
        if self.journal.len() >= M as usize {
            return Ok(NextTold::Full);
        }
        self.journal.reserve(1)?;
        let published = published(&mut self.member, g, object, self.draw)?;
        self.unpublished.pop_front();
        self.journal.push_reserved(LiveEntry {
            event: LiveEvent::Publish,
            reply: LiveReply::Published { seq: published.seq },
        });
        Ok(NextTold::Told(Told::new(published.sync)))
    }

    /// The member hears a sync Interest.
    pub fn hear(&mut self, g: &Group, told: &Told<L>) -> Result<LiveReply, AllocError>
        requires { g.now ≡ L.meaning.group }
        ensures { Steps L.meaning M (event.Hear told.now) self.old self.new result }
    {
        if self.journal.len() >= M as usize {
            return Ok(LiveReply::Full);
        }
        self.journal.reserve(1)?;
        let octets = told.copied(*self.journal.allocator())?;
        let reply = heard(&mut self.member, g, told.octets(), self.draw)?;
        self.journal.push_reserved(LiveEntry {
            event: LiveEvent::Hear { octets },
            reply,
        });
        Ok(reply)
    }

    /// A fetcher claims the first part that is wanted and that nobody claims.
    pub fn claim(&mut self, _g: &Group, f: u8) -> Result<LiveReply, AllocError>
        requires { IsFetcher f }
        ensures { Steps L.meaning M (event.Claim f) self.old self.new result }
    {
        if self.journal.len() >= M as usize {
            return Ok(LiveReply::Full);
        }
        self.journal.reserve(1)?;
        let reply = claimed(&mut self.member, f);
        self.journal.push_reserved(LiveEntry {
            event: LiveEvent::Claim { f },
            reply,
        });
        Ok(reply)
    }

    /// A fetcher is given the packet of a part, which is kept if the fetcher claims that part.
    pub fn accept(&mut self, g: &Group, f: u8, lent: &Lent<L>) -> Result<LiveReply, AllocError>
        requires group { g.now ≡ L.meaning.group }
        requires fetcher { IsFetcher f }
        ensures { Steps L.meaning M (event.Accept f lent.now.part) self.old self.new result }
    {
        if self.journal.len() >= M as usize {
            return Ok(LiveReply::Full);
        }
        self.journal.reserve(1)?;
        let part = lent.part();
        let reply = accepted(&mut self.member, g, f, part, lent.octets())?;
        self.journal.push_reserved(LiveEntry {
            event: LiveEvent::Accept { f, part },
            reply,
        });
        Ok(reply)
    }

    /// A fetcher's claim ends.
    pub fn lose(&mut self, _g: &Group, f: u8) -> Result<LiveReply, AllocError>
        requires { IsFetcher f }
        ensures { Steps L.meaning M (event.Lose f) self.old self.new result }
    {
        if self.journal.len() >= M as usize {
            return Ok(LiveReply::Full);
        }
        self.journal.reserve(1)?;
        let reply = lost(&mut self.member, f);
        self.journal.push_reserved(LiveEntry {
            event: LiveEvent::Lose { f },
            reply,
        });
        Ok(reply)
    }

    /// A copy of the packet of an own part that was published; `None` where there is no such part.
    pub fn lend(&self, alloc: Global, part: Part) -> Result<Option<Lent<L>>, AllocError>
        ensures own { IfOk result (λ lent.
            option_map (λ l. l.octets) lent ≡ logged L.meaning.group self.now.state part) }
        ensures part { IfOk result (λ lent. IfSome lent (λ l. l.part ≡ part)) }
    {
        if part.publisher != self.number {
            return Ok(None);
        }
        let Some(packet) = self.member.packet(part) else {
            return Ok(None);
        };
        let octets = packet.to_vec(alloc)?;
        Ok(Some(Lent::new(part, octets)))
    }

    /// The sync Interest with the member's vector as it is now.
    pub fn tell(&self, alloc: Global, g: &Group) -> Result<Told<L>, AllocError>
        requires { g.now ≡ L.meaning.group }
        ensures { IfOk result (λ told. told ≡ sync_of L.meaning.group self.now.state.number
            self.now.state.known) }
    {
        let octets = self.member.sync(alloc, g)?;
        Ok(Told::new(octets))
    }

    /// The same member and journal, which may now have up to 1,000,000 entries. It allocates nothing.
    pub fn widen(self) -> Live<L, 1000000>
        requires { M ≤ 1000000 }
        ensures same { result ≡ self }
        ensures live { IsLive L.meaning 1000000 result }
        ensures room { length result.journal ≤ M }
    {
        let Live {
            number,
            draw,
            member,
            journal,
            unpublished,
            of,
        } = self;
        Live {
            number,
            draw,
            member,
            journal,
            unpublished,
            of,
        }
    }

    /// All that was done with the member, in order.
    //
    // A caller sees the value and not the invariant, so `replays`, `brought` and `publications` state parts of that.
    pub fn journal(&self) -> &[LiveEntry]
        ensures journal { result.now ≡ self.now.journal }
        ensures replays { ReplaysTo L.meaning self.now.journal self.now.state }
        ensures brought { AreOfPublishedParts L.meaning self.now.journal }
        ensures publications { self.now.state.log ++ as_posts self.now.unpublished
            ≡ as_posts (objects_of L.meaning self.now.state.number) }
    {
        self.journal.as_slice()
    }

    pub fn member(&self) -> &Member
        ensures { result.now ≡ self.now.state }
    {
        &self.member
    }

    /// The journal and the member, which are moved out.
    pub fn into_parts(self) -> (Vec<LiveEntry>, Member)
        ensures journal { result.0.items ≡ self.journal }
        ensures member { result.1 ≡ self.state }
    {
        match self {
            Live {
                number: _,
                draw: _,
                member,
                journal,
                unpublished: _,
                of: _,
            } => (journal, member),
        }
    }
}
