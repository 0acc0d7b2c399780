// What mirrors fetch of alice's publications, and what they list then.
ghost use Rattle.std.specs.Prelude.{◌≡◌, ◌<◌, ◌≤◌, ◌∷◌, [], length, slice_get, Some, IfSome, Option};
ghost use Rattle.repo_holdings.specs.Wanting.{AreShortNames};
ghost use Rattle.repo_mirror.specs.MirrorOutcomes.{IsMirrorOutcome};
ghost use Rattle.repo_object.specs.Verdict.{CheckedPart};
ghost use Rattle.repo_object.specs.declared.job.Job.{Job};

use crate::expect::{is, same};
use crate::member::node_name;
use crate::watch::is_for;
use crate::worked::{RECORD, SEGMENT, WITHDRAWAL};
use ndn_name::Name;
use ndn_sign::KeyRing;
use repo_member::Group;
use repo_mirror::Mirror;
use repo_object::{Checked, Job, check_part};
use repo_plan::Part;
use repo_watch::{Filter, Pattern};
use std::process::Abort;
use std::test::*;
use svs_vector::Vector;

const ALICE: u32 = 0;

const BOB: u32 = 1;

// The group "/g" of alice and bob.
fn two_members(rt: &(impl Abort + AllocGlobal)) -> Group {
    let mut g = Group::new(rt.alloc(), &node_name(rt, "/g")).expect(rt, "memory");
    same(
        rt,
        g.add_member(&node_name(rt, "/alice"), b"k1"),
        Ok(ALICE),
        "alice",
    );
    same(
        rt,
        g.add_member(&node_name(rt, "/bob"), b"k2"),
        Ok(BOB),
        "bob",
    );
    g
}

// A part of alice's publication `seq`.
const fn part(seq: u16, part: u16) -> Part {
    Part {
        publisher: ALICE,
        seq,
        part,
    }
}

// The packet of that part: the first publication is an object of one segment, and the second withdraws it.
fn packet(part: Part) -> &'static [u8] {
    if part.seq == 2 {
        return &WITHDRAWAL;
    }
    if part.part == 0 {
        return &RECORD;
    }
    &SEGMENT
}

// A mirror of the group that knows of two publications of alice.
fn reported_mirror(
    rt: &(impl Abort + AllocGlobal),
    publisher: Option<u32>,
    prefix: &str,
) -> Mirror {
    let prefix = Name::from_uri(rt.alloc(), prefix).expect(rt, "a name");
    let mut mirror = Mirror::new(rt.alloc(), 2, Pattern { publisher, prefix }).expect(rt, "memory");
    let mut reported = Vector::new(rt.alloc(), 2).expect(rt, "memory");
    reported.raise(ALICE, 2);
    assert!(rt; reported.members() == mirror.vector().members());
    mirror.learn(&reported);
    assert!(rt; mirror.vector().members() == 2);
    let numbers = (mirror.vector().get(ALICE), mirror.vector().get(BOB));
    same(rt, numbers, (2, 0), "numbers");
    mirror
}

// The names that a mirror plans by are short, and there is one for each number that it knows.
fn ready(rt: &impl Abort, g: &Group, mirror: &Mirror)
    ensures width { length g.now.members.names ≡ length mirror.now.known }
    ensures names { AreShortNames g.now.members.names g.now.name }
{
    g.cite_soundness();
    assert!(rt; g.roster().len() == mirror.vector().members());
}

// What is received for a job: its packet, unless it is lost.
fn checked<'p>(
    job: &'p Job,
    octets: &'p [u8],
    ring: &'p KeyRing,
    is_lost: bool,
) -> Option<Checked<'p>>
    requires { job.now.want.part.publisher < length ring.now }
    ensures { IfSome result (λ c. c.want ≡ job.now.want) }
{
    if is_lost {
        return None;
    }
    check_part(&job.want, octets, ring).ok()
}

// Takes the result of the first of these jobs. The answer is how many parts were received.
fn take_first<'p>(
    rt: &(impl Abort + AllocGlobal),
    filter: &Filter,
    mirror: &mut Mirror,
    jobs: &'p [Job],
    octets: &'p [u8],
    ring: &'p KeyRing,
    is_lost: bool,
) -> Option<u32>
    requires outcome { (job : Job) (part : Option CheckedPart) → slice_get jobs.now 0 ≡ Some job
        → IfSome part (λ c. c.want ≡ job.want) → IsMirrorOutcome mirror.old jobs.now (part ∷ []) (3 ∷ []) }
{
    let job = jobs.first()?;
    assert!(rt; (job.want.part().publisher as usize) < ring.len());
    let part = checked(job, octets, ring, is_lost);
    let came = mirror.take_outcome(filter, jobs, &[part], &[3]);
    Some(came.expect(rt, "memory"))
}

fn few_tries(rt: &impl Abort, job: &Job)
    ensures { job.now.base < 1000 }
{
    assert!(rt; job.base < 1000);
}

// Takes the result of the next job, if there is one. The answer is the part, the attempts before, and how many parts
// came.
fn fetch_next(
    rt: &(impl Abort + AllocGlobal),
    g: &Group,
    filter: &Filter,
    mirror: &mut Mirror,
    is_lost: bool,
) -> Option<(Part, u32, u32)> {
    ready(rt, g, mirror);
    let jobs = mirror
        .plan(rt.alloc(), g.roster(), g.name(), None, 1)
        .expect(rt, "memory");
    let job = jobs.first()?;
    few_tries(rt, job);
    let (part, base) = (job.want.part(), job.base);
    let came = take_first(
        rt,
        filter,
        mirror,
        &jobs,
        packet(part),
        g.members(),
        is_lost,
    )?;
    Some((part, base, came))
}

// The parts that come one after another, with the number of entries then.
fn compare_parts(rt: &(impl Abort + AllocGlobal), mirror: &mut Mirror, parts: &[(Part, usize)]) {
    let g = two_members(rt);
    let filter = Filter::new(|pattern: &Pattern, publisher: u32, name: &Name| {
        is_for(pattern, publisher, name)
    });
    for (part, entries) in parts {
        let lost = fetch_next(rt, &g, &filter, mirror, true);
        is(rt, lost == Some((*part, 0, 0)), "lost");
        let came = fetch_next(rt, &g, &filter, mirror, false);
        is(rt, came == Some((*part, 3, 1)), "came");
        same(rt, mirror.catalogue().entries().len(), *entries, "entries");
    }
    is(
        rt,
        fetch_next(rt, &g, &filter, mirror, false).is_none(),
        "no more",
    );
}

#[test]
fn mirrors_fetch_what_their_pattern_is_for(rt: HostRuntime) {
    let object = [(part(1, 0), 0), (part(1, 1), 1), (part(2, 0), 0)];
    compare_parts(&rt, &mut reported_mirror(&rt, Some(ALICE), "/doc"), &object);
    compare_parts(&rt, &mut reported_mirror(&rt, None, "/"), &object);
}

#[test]
fn mirrors_pass_over_other_objects(rt: HostRuntime) {
    let records = [(part(1, 0), 0), (part(2, 0), 0)];
    compare_parts(&rt, &mut reported_mirror(&rt, None, "/x"), &records);
    compare_parts(&rt, &mut reported_mirror(&rt, Some(BOB), "/doc"), &[]);
}
