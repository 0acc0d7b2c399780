use live_member::{Lent, Lists, LiveReply, Told};
use repo_plan::Part;
use std::snapshot::Snapshot;

/// A call that an actor makes, with its answer, as an implementation of `Places` notes it for contracts to read. A
/// packet is noted as a `Snapshot`, which takes no bytes.
#[derive(Drop)]
pub enum Noted<L: Lists> {
    Pass {
        member: u32,
        actor: u8,
    },
    Publish {
        member: u32,
        told: Snapshot<Option<Told<L>>>,
    },
    Tell {
        other: u32,
        told: Snapshot<Told<L>>,
    },
    Take {
        told: Snapshot<Option<Told<L>>>,
    },
    Hear {
        member: u32,
        told: Snapshot<Told<L>>,
        replied: LiveReply,
    },
    Claim {
        member: u32,
        f: u8,
        claimed: LiveReply,
    },
    Lend {
        publisher: u32,
        part: Part,
        lent: Snapshot<Option<Lent<L>>>,
    },
    Accept {
        member: u32,
        f: u8,
        lent: Snapshot<Lent<L>>,
        ended: LiveReply,
    },
    Lose {
        member: u32,
        f: u8,
        ended: LiveReply,
    },
}
