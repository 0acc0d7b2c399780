ghost use Rattle.std.specs.Prelude.{◌≡◌, ◌+◌, ◌<◌, ◌≤◌, length, All, slice_index_or};
ghost use Rattle.repo_object.specs.Verdict.{ring_verdict};
ghost use Rattle.fetch_work.specs.Attempts.{packet_at, job_at, CanBeTried, checked_reply, if_passed};

use crate::link::{Lending, Link};
use crate::trial::Trial;
use ndn_sign::KeyRing;
use repo_object::{Checked, Job, Packet, check_packet, check_part};

// A link over which jobs are tried, and the ring that their packets are checked with.
#[derive(Drop)]
pub(crate) struct LinkTrial<'p, L> {
    pub(crate) link: &'p L,
    pub(crate) jobs: &'p [Job],
    pub(crate) ring: &'p KeyRing,
}

impl<'p, L: Link> Trial for LinkTrial<'p, L> {
    type Value = Checked<'p>;

    ghost can = { λ t i a. (i < length t.jobs.now)
        × All (λ job. CanBeTried (length t.ring.now) (a + 1) job) t.jobs.now };

    ghost packet_at = { λ t i a. packet_at (L.answer t.link.now) t.ring.now (job_at t.jobs.now i) a };

    fn attempt(&self, item: usize, before: u32) -> Option<Checked<'p>> {
        try_job(self.link, &self.jobs[item], self.ring, before)
    }
}

// Asks once for the part of a job, and checks the reply.
fn try_job<'p, L: Link>(
    link: &'p L,
    job: &'p Job,
    ring: &'p KeyRing,
    before: u32,
) -> Option<Checked<'p>>
    requires { CanBeTried (length ring.now) (before + 1) job.now }
    ensures { result ≡ packet_at (L.answer link.now) ring.now job.now before }
{
    match link.lend(&job.want, job.base + before + 1) {
        Lending::Lost => None,
        Lending::Octets(octets) => checked(job, octets, ring),
        Lending::Packet(packet) => checked_packet(job, packet, ring),
    }
}

// The octets, where they pass for the job's want.
fn checked<'p>(job: &'p Job, octets: &'p [u8], ring: &'p KeyRing) -> Option<Checked<'p>>
    requires { job.now.want.part.publisher < length ring.now }
    ensures { result ≡ checked_reply job.now.want ring.now (Some octets.now) }
{
    check_part(&job.want, octets, ring).ok()
}

// The packet, where it passes for the job's want.
fn checked_packet<'p>(job: &'p Job, packet: &'p Packet, ring: &'p KeyRing) -> Option<Checked<'p>>
    requires { job.now.want.part.publisher < length ring.now }
    ensures { result ≡ checked_reply job.now.want ring.now (Some packet.now) }
{
    check_packet(&job.want, packet, ring).ok()
}
