// Members that lend their packets to a holder that asks for parts.
ghost use Rattle.std.specs.Prelude.{◌≡◌, option_map};
ghost use Rattle.bench_world.specs.Lending.{attempt_passes, if_comes, lent, lent_first};

use bench_net::Net;
use fetch_work::{Lending, Link, Reply};
use repo_member::Member;
use repo_object::{Packet, Want};
use repo_plan::Part;

/// The members that a holder asks for parts, and the network that its attempts go through.
#[derive(Drop)]
pub(crate) struct MemberLink<'w, N> {
    /// The members that are asked, in order: all but the asker.
    pub(crate) others: &'w [Member],
    pub(crate) net: &'w N,
    pub(crate) asker: u32,
    /// How lossy the way is. If it is `None`, every attempt passes, whatever the network says.
    pub(crate) loss: Option<u32>,
}

impl<'w, N: Net> Link for MemberLink<'w, N> {
    ghost use Rattle.bench_world.specs.Lending.{lent_answer};

    ghost answer = { λ l want attempt. lent_answer (N.passes l.net.now) l.others.now l.asker l.loss want attempt };

    fn ask<'a>(&'a self, want: &Want, attempt: u32) -> Reply<'a> {
        match came(self, want.part(), attempt) {
            Some(packet) => Reply::Came(packet.octets()),
            None => Reply::Lost,
        }
    }

    fn lend<'a>(&'a self, want: &Want, attempt: u32) -> Lending<'a> {
        match came(self, want.part(), attempt) {
            Some(packet) => Lending::Packet(packet),
            None => Lending::Lost,
        }
    }

    fn may_wait(&self) -> bool {
        self.net.may_wait()
    }
}

// The packet that an attempt at a part receives.
fn came<'a, N: Net>(link: &'a MemberLink<'_, N>, part: Part, attempt: u32) -> Option<&'a Packet>
    ensures { option_map (λ packet. packet.now) result ≡ if_comes
        (attempt_passes (N.passes link.now.net.now) link.now.asker link.now.loss part attempt)
        (lent_first link.now.others.now link.now.asker part) }
{
    if comes_through(link, part, attempt) {
        lent(link.others, link.asker, part)
    } else {
        None
    }
}

// Whether the attempt at a part passes.
fn comes_through<'w, N: Net>(link: &MemberLink<'w, N>, part: Part, attempt: u32) -> bool
    ensures { result ≡ attempt_passes (N.passes link.now.net.now) link.now.asker link.now.loss part attempt }
{
    let passes = link.net.passes(
        link.asker,
        part.publisher,
        u32::from(part.seq),
        u32::from(part.part),
        attempt,
        link.loss.unwrap_or(0),
    );
    link.loss.is_none() || passes
}

// The packet that is lent for a part. Its publisher is asked first, so that most parts are found at once.
fn lent<'w>(others: &'w [Member], asker: u32, part: Part) -> Option<&'w Packet>
    ensures { option_map (λ packet. packet.now) result ≡ lent_first others.now asker part }
{
    let publisher = part.publisher;
    let place = if publisher < asker {
        publisher
    } else {
        publisher.saturating_sub(1)
    };
    if let Some(member) = others.get(place as usize) {
        if let Some(packet) = member.stored(part) {
            return Some(packet);
        }
    }
    lent_by(others, part)
}

// The packet of the part at the first of these members that stores one.
fn lent_by<'w>(members: &'w [Member], part: Part) -> Option<&'w Packet>
    ensures { option_map (λ packet. packet.now) result ≡ lent members.now part }
{
    for member in members {
        if let Some(packet) = member.stored(part) {
            return Some(packet);
        }
    }
    None
}
