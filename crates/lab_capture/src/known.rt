// What is known before a line.
ghost use Rattle.std.specs.Prelude.{◌≡◌, ◌<◌, length, map, IfOk, IfSome};
ghost use Rattle.std.specs.Option.{option_map};
ghost use Rattle.script_lang.specs.Forms.{stated};
ghost use Rattle.group_model.specs.Steps.{claim_at, planned_parts};
ghost use Rattle.repo_plan.specs.Calls.{IsFetcher};
ghost use Rattle.bench_world.specs.Worlds.{world_of};
ghost use Rattle.lab_capture.specs.Frames.{asked_for, below, claim_between, claim_of, claim_sent, claim_with, fetch_by};
ghost use Rattle.lab_capture.specs.Frames.{fetch_made, fetch_of, known_before, member_named, mirror_named};
ghost use Rattle.lab_capture.specs.Frames.{nothing_known, stated_in};
ghost use Rattle.script_lines.specs.Scripts.{reached};
ghost use Rattle.lab_capture.specs.Capturings.{asked_by, claimed, fetched, known_as};

use crate::held::{Holding, holders_before};
use crate::mirrored::mirrors_before;
use bench_world::World;
use lab_text::put_line;
use repo_member::WantFault;
use repo_object::Job;
use repo_plan::Part;
use script_lang::{Line, LineFault, Words, read_line};
use script_lines::Script;
use std::alloc::{AllocError, Global};

// The want of a fetcher's claim, which a member sends to another.
#[derive(Drop)]
pub(crate) struct Claim {
    pub asker: u32,
    pub asked: u32,
    pub part: Part,
    pub interest: Vec<u8>,
}

// A fetch: the member `asker`, which asks all members, and the jobs that it plans.
#[derive(Drop)]
pub(crate) struct Fetch {
    pub asker: u32,
    pub jobs: Vec<Job>,
}

// What is known before a line: how many sync Interests were sent, the claim that the line sends, the fetch that it
// makes, and the members and mirrors that gain parts, with what they hold.
#[derive(Drop)]
pub(crate) struct KnownBefore {
    pub sent: u32,
    pub claim: Option<Claim>,
    pub fetch: Option<Fetch>,
    pub holders: Vec<Holding>,
    pub mirrors: Vec<Holding>,
}

impl KnownBefore {
    // What is known before the first event.
    pub fn nothing(alloc: Global) -> KnownBefore
        ensures { known_as result ≡ nothing_known }
    {
        KnownBefore {
            sent: 0,
            claim: None,
            fetch: None,
            holders: Vec::new(alloc),
            mirrors: Vec::new(alloc),
        }
    }
}

// What is known before a line of the script.
pub(crate) fn known_before(
    alloc: Global,
    script: &Script,
    line: &[u8],
) -> Result<KnownBefore, AllocError>
    ensures { IfOk result (λ known. known_as known ≡ known_before (reached script.now).state line.now) }
{
    match script.world() {
        Some(world) => {
            world.cite_soundness();
            let stated = read(alloc, line)?;
            let holders = holders_before(alloc, world, &stated)?;
            let mirrors = mirrors_before(alloc, script.words(), world, &stated)?;
            let fetch = fetch_made(alloc, script.words(), world, &stated)?;
            let claim = claim_sent(alloc, script.words(), world, stated)?;
            let sent = world.tally().syncs as u32;
            Ok(KnownBefore {
                sent,
                claim,
                fetch,
                holders,
                mirrors,
            })
        }
        None => Ok(KnownBefore::nothing(alloc)),
    }
}

// How many parts a fetch asks for at most.
const MOST_JOBS: usize = 4096;

// What a line states, which is given without its line feed; nothing where it can't be read as a line.
pub(crate) fn read(alloc: Global, line: &[u8]) -> Result<Option<Line>, AllocError>
    ensures { IfOk result (λ read. option_map stated read ≡ stated_in line.now) }
{
    let mut whole = Vec::new(alloc);
    put_line(&mut whole, line)?;
    match read_line(alloc, &whole) {
        Ok(line) => Ok(line),
        Err(LineFault::NoMemory) => Err(AllocError),
        Err(_) => Ok(None),
    }
}

// The number of the member with this label.
pub(crate) fn member_named(words: &Words, world: &World, label: &str) -> Option<u32>
    ensures named { result ≡ member_named words.now (world_of world.now) label.now }
    ensures there { IfSome result (λ m. m < length world.now.members) }
{
    below(words.member(label), world.members())
}

// The number of the mirror with this label.
pub(crate) fn mirror_named(words: &Words, world: &World, label: &str) -> Option<u32>
    ensures named { result ≡ mirror_named words.now (length world.now.mirrors) label.now }
    ensures there { IfSome result (λ i. i < length world.now.mirrors) }
{
    below(words.mirror(label), world.mirrors())
}

// A number, if it is below a bound.
pub(crate) fn below(number: Option<u32>, bound: usize) -> Option<u32>
    ensures below { result ≡ below bound number }
    ensures there { IfSome result (λ i. i < bound) }
{
    match number {
        Some(i) if (i as usize) < bound => Some(i),
        _ => None,
    }
}

// The claim that a line sends to a member, if it does.
pub(crate) fn claim_sent(
    alloc: Global,
    words: &Words,
    world: &World,
    line: Option<Line>,
) -> Result<Option<Claim>, AllocError>
    ensures { IfOk result (λ claim. option_map claimed claim
        ≡ claim_sent words.now world.now.keys (world_of world.now) (option_map stated line)) }
{
    match line {
        Some(line) => claim_of(alloc, words, world, line),
        None => Ok(None),
    }
}

fn claim_of(
    alloc: Global,
    words: &Words,
    world: &World,
    line: Line,
) -> Result<Option<Claim>, AllocError>
    ensures { IfOk result (λ claim. option_map claimed claim
        ≡ claim_of words.now world.now.keys (world_of world.now) (stated line).verb (stated line).values) }
{
    match line {
        Line::Answer { m, f, q } => {
            let asker = member_named(words, world, &m);
            let asked = member_named(words, world, &q);
            claim_between(alloc, world, f, asker, asked)
        }
        _ => Ok(None),
    }
}

// The claim that a fetcher of a member sends to another member, if there are both.
fn claim_between(
    alloc: Global,
    world: &World,
    f: u32,
    asker: Option<u32>,
    asked: Option<u32>,
) -> Result<Option<Claim>, AllocError>
    requires { IfSome asker (λ m. m < length world.now.members) }
    ensures { IfOk result (λ claim. option_map claimed claim
        ≡ claim_between world.now.keys (world_of world.now) f asker asked) }
{
    match (asker, asked) {
        (Some(asker), Some(asked)) if 1 <= f && f <= 16 => {
            claim_with(alloc, world, f as u8, asker, asked)
        }
        _ => Ok(None),
    }
}

// The claim that a fetcher of a member sends, if it claims a part.
fn claim_with(
    alloc: Global,
    world: &World,
    f: u8,
    asker: u32,
    asked: u32,
) -> Result<Option<Claim>, AllocError>
    requires there { asker < length world.now.members }
    requires fetcher { IsFetcher f }
    ensures { IfOk result (λ claim. option_map claimed claim
        ≡ claim_with world.now.keys (world_of world.now) asker asked (claim_at (world_of world.now) asker f)) }
{
    world.cite_soundness();
    match world.member(asker).want(alloc, world.group(), f) {
        Ok(want) => Ok(Some(Claim {
            asker,
            asked,
            part: want.part(),
            interest: want.interest().to_vec(alloc)?,
        })),
        Err(WantFault::NoMemory) => Err(AllocError),
        Err(WantFault::FetcherIdle) => Ok(None),
    }
}

// The fetch that a line makes, if it does.
pub(crate) fn fetch_made(
    alloc: Global,
    words: &Words,
    world: &World,
    line: &Option<Line>,
) -> Result<Option<Fetch>, AllocError>
    ensures { IfOk result (λ fetch. option_map fetched fetch
        ≡ fetch_made words.now world.now.keys (world_of world.now) (option_map stated line.now)) }
{
    match line {
        Some(line) => fetch_of(alloc, words, world, line),
        None => Ok(None),
    }
}

fn fetch_of(
    alloc: Global,
    words: &Words,
    world: &World,
    line: &Line,
) -> Result<Option<Fetch>, AllocError>
    ensures { IfOk result (λ fetch. option_map fetched fetch
        ≡ fetch_of words.now world.now.keys (world_of world.now) (stated line.now).verb (stated line.now).values) }
{
    match line {
        Line::Fetch { m, .. } => fetch_by(alloc, world, member_named(words, world, m)),
        _ => Ok(None),
    }
}

// The fetch of a member, if a member is given.
fn fetch_by(alloc: Global, world: &World, asker: Option<u32>) -> Result<Option<Fetch>, AllocError>
    requires { IfSome asker (λ m. m < length world.now.members) }
    ensures { IfOk result (λ fetch. option_map fetched fetch
        ≡ fetch_by world.now.keys (world_of world.now) asker) }
{
    match asker {
        Some(asker) => {
            let jobs = planned(alloc, world, asker)?;
            Ok(Some(Fetch { asker, jobs }))
        }
        None => Ok(None),
    }
}

// The jobs that a member plans.
fn planned(alloc: Global, world: &World, m: u32) -> Result<Vec<Job>, AllocError>
    requires { m < length world.now.members }
    ensures { IfOk result (λ jobs. map asked_by jobs.items
        ≡ map (asked_for world.now.keys (world_of world.now)) (planned_parts (world_of world.now) m)) }
{
    world.cite_soundness();
    world.member(m).plan(alloc, world.group(), None, MOST_JOBS)
}
