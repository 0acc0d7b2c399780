ghost use Rattle.std.specs.Prelude.{◌≡◌, ℕ, List, Option};
ghost use Rattle.repo_object.specs.Wants.{WantedPart};
ghost use Rattle.fetch_work.specs.Attempts.{reply_octets, octets_lent};

use repo_object::{Packet, Want};

/// The answer to a question for a part.
#[derive(Drop)]
pub enum Reply<'p> {
    /// The question or its answer was lost.
    Lost,
    /// These octets were received. Nobody has checked them.
    Came(&'p [u8]),
}

/// What is lent for a part.
#[derive(Drop)]
pub enum Lending<'p> {
    /// The question or its answer was lost.
    Lost,
    /// These octets were received. Nobody has checked them.
    Octets(&'p [u8]),
    /// This packet was received, and may be shared. Nobody has checked it.
    Packet(&'p Packet),
}

/// A link lends packets that are asked for.
///
/// What it answers is a function of what it holds, of the want and of the attempt. It allocates nothing and can't fail.
/// Threads may share it.
pub trait Link {
    ghost answer: { Self → WantedPart → ℕ → Option (List ℕ) };

    /// Asks for the part. Attempts at a part are counted from 1, over all its fetches.
    fn ask<'a>(&'a self, want: &Want, attempt: u32) -> Reply<'a>
        ensures { reply_octets result ≡ answer self.now want.now attempt };

    /// Asks for the part, of a link that may have packets to share. Attempts are counted as in `ask`.
    fn lend<'a>(&'a self, want: &Want, attempt: u32) -> Lending<'a>
        ensures { octets_lent result ≡ answer self.now want.now attempt }
    {
        match self.ask(want, attempt) {
            Reply::Lost => Lending::Lost,
            Reply::Came(octets) => Lending::Octets(octets),
        }
    }

    /// Whether an answer may be long in coming, so that even a few questions are better asked at the same time. It
    /// changes no answer.
    fn may_wait(&self) -> bool {
        true
    }
}
