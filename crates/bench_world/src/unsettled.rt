// The publications of which somebody gained something since all settled last, for members and for mirrors apart.
ghost use Rattle.std.specs.Prelude.{◌≡◌, true, Some, option_map};
ghost use Rattle.repo_plan.specs.Parts.{pair_of};
ghost use Rattle.bench_world.specs.Touching.{blocked_pair};
ghost use Rattle.bench_world.specs.Unsettled.{NotesBoth};

use crate::touched::Touched;
use repo_member::Blocked;
use repo_plan::Part;
use std::alloc::Global;

/// The publications that were touched since all members settled last, and since all mirrors did.
#[derive(Drop)]
pub(crate) struct Unsettled {
    pub(crate) members: Touched,
    pub(crate) mirrors: Touched,
}

impl Unsettled {
    /// Every publication is touched, for members and for mirrors.
    pub(crate) fn all(alloc: Global) -> Unsettled
        ensures members { result.members.all ≡ true }
        ensures mirrors { result.mirrors.all ≡ true }
    {
        Unsettled {
            members: Touched::all(alloc),
            mirrors: Touched::all(alloc),
        }
    }

    /// Notes the publication as touched, for members and for mirrors.
    pub(crate) fn note(&mut self, publisher: u32, seq: u16)
        ensures { NotesBoth self.old (Some (publisher, seq)) self.new }
    {
        self.members.note(publisher, seq);
        self.mirrors.note(publisher, seq);
    }

    /// Notes the publication of the part that a fetcher claims, if it claims one.
    pub(crate) fn note_claimed(&mut self, claim: Option<Part>)
        ensures { NotesBoth self.old (option_map pair_of claim) self.new }
    {
        if let Some(part) = claim {
            self.note(part.publisher, part.seq);
        }
    }

    /// Notes the publication that a block of member `m` completed, if it completed one.
    pub(crate) fn note_blocked(&mut self, m: u32, blocked: &Blocked)
        ensures { NotesBoth self.old (blocked_pair m blocked.now) self.new }
    {
        if let Blocked::Published(published) = blocked {
            self.note(m, published.seq);
        }
    }
}
