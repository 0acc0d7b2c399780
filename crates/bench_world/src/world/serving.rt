// Responses to claims, from other members and from outside, and the report of octets from outside.
ghost use Rattle.std.specs.Prelude.{◌≡◌, ◌+◌, ◌<◌, length, IfOk};
ghost use Rattle.repo_plan.specs.Calls.{IsFetcher};
ghost use Rattle.repo_store.specs.Served.{served};
ghost use Rattle.bench_world.specs.Serving.{lossless};
ghost use Rattle.bench_world.specs.Worlds.{drawing};
ghost use Rattle.bench_world.specs.Answering.{kept_of};
ghost use Rattle.bench_world.specs.Replying.{fed_reply, parts_kept};
ghost use Rattle.bench_world.specs.EventValues.{EventValue, report_value, answer_report, ask_report};
ghost use Rattle.bench_world.specs.EventValues.{mode_report};
ghost use Rattle.bench_world.specs.Runs.{IsStep};

use super::World;
use crate::answering::{Fed, answer, feed};
use crate::event::{EventError, Happened};
use crate::hearing::{hear_sent, signed_vector};
use bench_net::Draws;
use repo_member::{HearRefusal, Member};
use std::alloc::{AllocError, Global};
use svs_sync::Mode;

impl World {
    /// A member is about to be asked by name: it puts the names of its packets in order. The world stays as it is.
    pub(crate) fn order_names(&mut self, m: u32)
        requires { m < length self.old.members }
        ensures { self.new ≡ self.old }
    {
        self.members[m as usize].order_names();
    }

    /// A member's fetcher asks another member for what it claims.
    ///
    /// The answer is foreign where the packet passes for the part and isn't its publisher's.
    pub(crate) fn answer(&mut self, m: u32, f: u32, q: u32) -> Result<Happened, EventError>
        requires there { m < length self.old.members }
        requires fetcher { IsFetcher f }
        requires other { q < length self.old.members }
        requires few { self.old.steps < 100000 }
        ensures { IsStep (lossless self.old.keys) (EventValue.Answer m f q) self.old result self.new }
    {
        let claimed = self.members[m as usize].claimed(f as u8);
        let kept = answer(self.alloc, &self.group, &mut self.members, m, f as u8, q)?;
        self.unsettled.note_claimed(claimed);
        self.attempts += 1;
        self.parts += parts_of(kept);
        self.octets += kept.unwrap_or(0);
        self.steps += 1;
        Ok(answered(m, u64::from(f), kept.is_some()))
    }

    /// Octets are received as a packet of the part that a member's fetcher claims.
    ///
    /// They are foreign where they pass for the part and aren't its publisher's packet.
    pub(crate) fn feed(&mut self, m: u32, f: u32, octets: &[u8]) -> Result<Happened, EventError>
        requires there { m < length self.old.members }
        requires fetcher { IsFetcher f }
        requires few { self.old.steps < 100000 }
        ensures { IsStep (lossless self.old.keys) (EventValue.Feed m f octets.now) self.old result self.new }
    {
        let claimed = self.members[m as usize].claimed(f as u8);
        let fed = feed(
            self.alloc,
            &self.group,
            &mut self.members,
            m,
            f as u8,
            octets,
        )?;
        self.unsettled.note_claimed(claimed);
        let kept = kept_octets(fed, octets);
        self.parts += parts_of(kept);
        self.octets += kept.unwrap_or(0);
        self.steps += 1;
        Ok(fed_happened(m, u64::from(f), fed))
    }

    /// What a member answers to octets as an Interest: the packet of the least part that satisfies it.
    pub(crate) fn ask(&mut self, m: u32, octets: &[u8]) -> Result<Happened, EventError>
        requires there { m < length self.old.members }
        requires few { self.old.steps < 100000 }
        ensures { IsStep (lossless self.old.keys) (EventValue.Ask m octets.now) self.old result self.new }
    {
        let happened = asked(self.alloc, m, &self.members[m as usize], octets)?;
        self.count();
        Ok(happened)
    }

    /// A member hears octets as a sync Interest, as it hears one that was sent.
    ///
    /// They are foreign where they pass, and nobody of the group sent a sync Interest of that signer and vector.
    pub(crate) fn hear<D: Draws>(
        &mut self,
        m: u32,
        octets: &[u8],
        draws: &D,
    ) -> Result<Happened, EventError>
        requires there { m < length self.old.members }
        requires few { self.old.steps < 100000 }
        ensures { IsStep (drawing (D.draw draws.now)) (EventValue.Hear m octets.now) self.old result self.new }
    {
        let (signer, vector) = match signed_vector(
            self.alloc,
            &self.group,
            &self.members[m as usize],
            m,
            octets,
        ) {
            Ok(received) => received,
            Err(HearRefusal::NoMemory) => return Err(EventError::NoMemory),
            Err(HearRefusal::Sync(refusal)) => {
                self.count();
                return Ok(Happened::HearRefused {
                    m,
                    refusal: HearRefusal::Sync(refusal),
                });
            }
            Err(HearRefusal::OwnNumberAhead { own, told }) => {
                self.count();
                return Ok(Happened::HearRefused {
                    m,
                    refusal: HearRefusal::OwnNumberAhead { own, told },
                });
            }
        };
        let member = &mut self.members[m as usize];
        let draw = draws.draw(m, member.next_draw());
        let mode = hear_sent(
            self.alloc, &self.sent, member, signer, &vector, self.time, draw,
        )?;
        self.delivered += 1;
        self.steps += 1;
        Ok(heard(m, mode))
    }
}

// The report of an answer.
fn answered(m: u32, f: u64, kept: bool) -> Happened
    ensures { report_value result ≡ answer_report m f kept }
{
    if kept {
        Happened::AnswerKept { m, f }
    } else {
        Happened::AnswerNone { m, f }
    }
}

// How many parts become held: one if octets are kept, and else none.
fn parts_of(kept: Option<u64>) -> u64
    ensures { result ≡ parts_kept kept }
{
    match kept {
        Some(_) => 1,
        None => 0,
    }
}

// How many octets are kept, if they are.
fn kept_octets(fed: Fed, octets: &[u8]) -> Option<u64>
    ensures { result ≡ kept_of octets.now fed }
{
    match fed {
        Fed::Kept => Some(octets.len() as u64),
        Fed::Refused { .. } => None,
    }
}

// The report of octets for a claim.
fn fed_happened(m: u32, f: u64, fed: Fed) -> Happened
    ensures { report_value result ≡ fed_reply m f fed }
{
    match fed {
        Fed::Kept => Happened::FeedKept { m, f },
        Fed::Refused { refusal } => Happened::FeedRefused { m, f, refusal },
    }
}

// The report of what a member answers to an Interest.
fn asked(alloc: Global, m: u32, member: &Member, octets: &[u8]) -> Result<Happened, AllocError>
    ensures { IfOk result (λ happened. report_value happened ≡ ask_report m (served octets.now member.now.store)) }
{
    match member.serve(octets) {
        Ok(Some(packet)) => Ok(Happened::AskFound {
            m,
            octets: packet.to_vec(alloc)?,
        }),
        Ok(None) => Ok(Happened::AskNone { m }),
        Err(refusal) => Ok(Happened::AskRefused { m, refusal }),
    }
}

// The report of a vector that a member heard, by its mode afterwards.
fn heard(m: u32, mode: Mode) -> Happened
    ensures { report_value result ≡ mode_report m mode }
{
    match mode {
        Mode::Steady => Happened::HearSteady { m },
        Mode::Suppressed => Happened::HearSuppressed { m },
    }
}
