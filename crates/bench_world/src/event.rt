use ndn_name::{Name, PacketFault};
use repo_catalog::Entry;
use repo_member::HearRefusal;
use repo_object::PartRefusal;
use std::alloc::AllocError;

/// What may happen to a group.
///
/// `m` and `q` are numbers of members, `f` is a fetcher's, from 1 to 16, and `k` that of a packet that was sent, from
/// 1.
#[derive(Drop)]
pub enum Event {
    /// A member publishes the content in segments of `size` octets.
    Publish {
        m: u32,
        name: Name,
        size: u32,
        content: Vec<u8>,
    },
    /// A member withdraws the object that it published under the number `s`.
    Withdraw {
        m: u32,
        s: u32,
    },
    /// A member hears a sync Interest that was sent.
    Deliver {
        k: u32,
        m: u32,
    },
    /// Which octets a sync Interest has that was sent.
    Sync {
        k: u32,
    },
    /// The time moves on by `ms` milliseconds.
    Advance {
        ms: u64,
    },
    /// A member's timer fires.
    Fire {
        m: u32,
    },
    /// A member starts again.
    Restart {
        m: u32,
    },
    /// Which numbers a member knows.
    Vector {
        m: u32,
    },
    /// What a member's catalogue lists.
    Catalogue {
        m: u32,
    },
    /// A fetcher claims the least part that is wanted and that no fetcher of its member claims.
    Claim {
        m: u32,
        f: u32,
    },
    /// A fetcher's claim ends.
    Lose {
        m: u32,
        f: u32,
    },
    /// A fetcher asks member `q` for what it claims.
    Answer {
        m: u32,
        f: u32,
        q: u32,
    },
    /// A member asks the others for the parts that it wants, by `workers` workers, with at most `tries` attempts at
    /// each part, over a network with the loss `loss`.
    Fetch {
        m: u32,
        workers: u32,
        tries: u32,
        loss: u32,
    },
    /// Each member announces what it knows, and fetches what it lacks, by `workers` workers.
    Settle {
        workers: u32,
    },
    /// Which octets the packet of a part has, if the member holds it: part `x` of publication `s` of member `p`.
    Dump {
        m: u32,
        p: u32,
        s: u32,
        x: u32,
    },
    /// A member hears octets as a sync Interest.
    Hear {
        m: u32,
        octets: Vec<u8>,
    },
    /// A member is asked by octets as an Interest.
    Ask {
        m: u32,
        octets: Vec<u8>,
    },
    /// Octets are received as a packet of the part that a fetcher claims.
    Feed {
        m: u32,
        f: u32,
        octets: Vec<u8>,
    },
    /// A member is given octets as a command.
    Order {
        m: u32,
        octets: Vec<u8>,
    },
    /// A client asks a member to take an object, whose blocks have the indexes `first` to `last`.
    Insert {
        m: u32,
        client: u32,
        name: Name,
        first: u64,
        last: u64,
    },
    /// A member is given a block of an insertion process.
    Block {
        m: u32,
        process: u32,
        index: u64,
        content: Vec<u8>,
    },
    /// A client asks a member how an insertion process stands.
    Status {
        m: u32,
        client: u32,
        process: u32,
    },
    /// A client asks a member to drop every object of this name.
    Delete {
        m: u32,
        client: u32,
        name: Name,
    },
    /// The totals of all catalogues.
    Summary,
    /// The counts of sync Interests, deliveries, attempts, parts and octets.
    Traffic,
}

/// The report of an event.
#[derive(Drop)]
pub enum Happened {
    Publish {
        m: u32,
        seq: u64,
        segments: u64,
        sync: u64,
    },
    /// The member's object of the number `withdrawn` is withdrawn under its number `seq`.
    Withdraw {
        m: u32,
        seq: u64,
        withdrawn: u64,
        sync: u64,
    },
    DeliverSteady {
        k: u64,
        m: u32,
    },
    DeliverSuppressed {
        k: u64,
        m: u32,
    },
    Sync {
        k: u64,
        octets: Vec<u8>,
    },
    Advance {
        now: u64,
    },
    FireEarly {
        m: u32,
    },
    FireQuiet {
        m: u32,
    },
    /// The number `k` is that of the sync Interest that the member sent.
    FireSent {
        m: u32,
        k: u64,
    },
    Restart {
        m: u32,
    },
    Vector {
        m: u32,
        members: Vec<u32>,
        numbers: Vec<u64>,
    },
    Catalogue {
        m: u32,
        count: u64,
        entries: Vec<Entry>,
    },
    ClaimPart {
        m: u32,
        f: u64,
        publisher: u32,
        seq: u64,
        x: u64,
    },
    ClaimNone {
        m: u32,
        f: u64,
    },
    Lose {
        m: u32,
        f: u64,
        publisher: u32,
        seq: u64,
        x: u64,
    },
    AnswerKept {
        m: u32,
        f: u64,
    },
    AnswerNone {
        m: u32,
        f: u64,
    },
    Fetch {
        m: u32,
        planned: u64,
        kept: u64,
        attempts: u64,
    },
    Settle {
        syncs: u64,
        kept: u64,
    },
    DumpHex {
        m: u32,
        octets: Vec<u8>,
    },
    DumpNone {
        m: u32,
    },
    HearSteady {
        m: u32,
    },
    HearSuppressed {
        m: u32,
    },
    HearRefused {
        m: u32,
        refusal: HearRefusal,
    },
    AskFound {
        m: u32,
        octets: Vec<u8>,
    },
    AskNone {
        m: u32,
    },
    AskRefused {
        m: u32,
        refusal: PacketFault,
    },
    FeedKept {
        m: u32,
        f: u64,
    },
    FeedRefused {
        m: u32,
        f: u64,
        refusal: PartRefusal,
    },
    Order {
        m: u32,
        code: u64,
        process: Option<u64>,
        inserted: Option<u64>,
        deleted: Option<u64>,
    },
    Insert {
        m: u32,
        code: u64,
        process: Option<u64>,
        inserted: Option<u64>,
        deleted: Option<u64>,
    },
    Status {
        m: u32,
        code: u64,
        process: Option<u64>,
        inserted: Option<u64>,
        deleted: Option<u64>,
    },
    Delete {
        m: u32,
        code: u64,
        process: Option<u64>,
        inserted: Option<u64>,
        deleted: Option<u64>,
    },
    /// Another block is missing.
    Block300 {
        m: u32,
    },
    /// There is no such process, or it has no block of that index.
    Block404 {
        m: u32,
    },
    /// The object was published before.
    Block200 {
        m: u32,
    },
    BlockPublished {
        m: u32,
        seq: u64,
        sync: u64,
    },
    Summary {
        members: Vec<u32>,
        entries: Vec<u64>,
        segments: Vec<u64>,
        octets: Vec<u64>,
    },
    Traffic {
        syncs: u64,
        delivered: u64,
        attempts: u64,
        parts: u64,
        octets: u64,
    },
}

/// Why an event was not carried out, by name.
#[derive(Clone, Copy, Debug, PartialEq, Eq)]
pub enum EventError {
    /// No such packet was sent.
    NoSuchPacket,
    /// The fetcher claims a part.
    FetcherBusy,
    /// The fetcher claims no part.
    FetcherIdle,
    /// The member's numbers are spent.
    NumbersSpent,
    /// The member has no object of that number, or one that is withdrawn.
    NoSuchNumber,
    /// Octets pass their checks, and nobody of the group made them.
    Foreign,
    NoMemory,
}

impl From<AllocError> for EventError {
    ghost use Rattle.std.specs.Prelude.{◌≡◌};
    ghost use Rattle.bench_world.specs.declared.event.EventError.TheVariants.{NoMemory};

    ghost from_gives = { λ _ fault. fault ≡ NoMemory };

    fn from(_: AllocError) -> EventError {
        EventError::NoMemory
    }
}

/// Why a step was not made.
#[derive(Clone, Copy, Debug, PartialEq, Eq)]
pub enum StepFault {
    /// The event is refused, by this number of the script's refusals.
    Refused { number: u32 },
    /// Octets pass their checks, and nobody of the group made them.
    Foreign,
    NoMemory,
}

impl From<EventError> for StepFault {
    ghost use Rattle.std.specs.Prelude.{◌≡◌};
    ghost use Rattle.bench_world.specs.Steps.{step_fault};

    ghost from_gives = { λ event fault. fault ≡ step_fault event };

    fn from(event: EventError) -> StepFault {
        match event {
            EventError::NoSuchPacket => StepFault::Refused { number: 5 },
            EventError::FetcherBusy => StepFault::Refused { number: 6 },
            EventError::FetcherIdle => StepFault::Refused { number: 7 },
            EventError::NumbersSpent => StepFault::Refused { number: 8 },
            EventError::NoSuchNumber => StepFault::Refused { number: 14 },
            EventError::Foreign => StepFault::Foreign,
            EventError::NoMemory => StepFault::NoMemory,
        }
    }
}
