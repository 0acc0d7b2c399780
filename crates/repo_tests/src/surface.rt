// The signature of each public call, as a program that is written to it needs it.
use bench_net::*;
use bench_world::{MirrorFault, StepFault, World};
use fetch_board::*;
use fetch_work::Worker;
use ndn_name::{Name, NameView, PacketFault};
use ndn_sign::KeyRing;
use repo_catalog::*;
use repo_command::*;
use repo_member::*;
use repo_mirror::Mirror;
use repo_object::*;
use repo_plan::*;
use repo_process::*;
use repo_store::Store;
use repo_watch::{Pattern, WatchFault, Watchers};
use std::alloc::{AllocError, Global};
use std::test::*;
use svs_sync::Mode;
use svs_vector::{Roster, Vector};

#[test]
fn calls_of_what_is_held(_rt: HostRuntime) {
    calls_of_plans();
    calls_of_wants();
    calls_of_objects();
    calls_of_stores();
    calls_of_catalogues();
}

fn calls_of_plans() {
    let _: fn(Global, usize) -> Result<Plan, AllocError> = Plan::new;
    let _: fn(&mut Plan, u32, u16) = Plan::raise;
    let _: fn(&mut Plan, Part, Option<Shape>) -> Result<bool, AllocError> = Plan::hold;
    let _: fn(&Plan, Part) -> bool = Plan::holds;
    let _: fn(&Plan, u32, u16) -> Option<Shape> = Plan::shape;
    let _: fn(&Plan, u32, u16) -> bool = Plan::complete;
    let _: fn(&mut Plan, u8) -> Result<Option<Part>, FetcherBusy> = Plan::claim;
    let _: fn(&Plan, u8) -> Option<Part> = Plan::claimed;
    let _: fn(&mut Plan, u8) -> Result<Part, FetcherIdle> = Plan::release;
    let _: fn(&mut Plan) = Plan::end_claims;
    let _: fn(&mut Plan, u32, u16) -> Result<(), AllocError> = Plan::hide;
    let _: fn(&Plan, Global, Option<Part>, usize) -> Result<Vec<Part>, AllocError> =
        Plan::wanted_after;
    let _: fn(&Plan, Part) -> u32 = Plan::attempts;
    let _: fn(&mut Plan, Part, u32) -> Result<(), AllocError> = Plan::add_attempts;
    let _: fn(&mut Plan, usize) -> Result<(), AllocError> = Plan::reserve;
    let _: fn(&mut Plan, Part, Option<Shape>) -> bool = Plan::hold_reserved;
    let _: fn(&mut Plan, u32, u16) = Plan::hide_reserved;
    let _: fn(&mut Plan, Part, u32) = Plan::add_attempts_reserved;
}

// Octets that are made.
type Made = Result<Vec<u8>, AllocError>;

fn calls_of_objects() {
    let _: fn(Global, &Name, &[Vec<u8>]) -> Result<Object, AllocError> = Object::new;
    let _: fn(Global, &[u8], usize) -> Result<Vec<Vec<u8>>, CutFault> = cut;
    let _: fn(Global, &Object, u16, &Name, &Name, &[u8]) -> Result<Vec<Vec<u8>>, AllocError> =
        packets_of;
    let _: fn(Global, u16, u16, &Name, &Name, &[u8]) -> Made = withdrawal_packet;
    let _: fn(&[u8]) -> bool = is_record;
    let _: fn(Global, &[u8]) -> Result<Record, RecordFault> = read_record;
}

fn calls_of_wants() {
    let _: fn(Global, Part, &Name, &Name) -> Result<Want, AllocError> = want_record;
    let _: fn(Global, Part, &Record, &Name, &Name) -> Result<Want, AllocError> = want_index;
    let _: fn(&Want) -> Part = Want::part;
}

fn calls_of_stores() {
    let _: fn(Global) -> Store = Store::new;
    let _: fn(&mut Store, Part, &[u8]) -> Result<bool, AllocError> = Store::put;
    let _: fn(&Store) -> usize = Store::len;
    let _: fn(&mut Store, usize) -> Result<(), AllocError> = Store::reserve;
    let _: fn(&mut Store, Part, Vec<u8>) -> bool = Store::put_reserved;
}

fn calls_of_catalogues() {
    let _: fn(Global) -> Catalogue = Catalogue::new;
    let _: fn(&mut Catalogue, Entry) -> Result<bool, AllocError> = Catalogue::add;
    let _: fn(&mut Catalogue, u32, u16) -> bool = Catalogue::remove;
    let _: for<'p> fn(&Catalogue, &NameView<'p>) -> Option<(u32, u16)> = Catalogue::first_named;
    let _: fn(&Catalogue) -> (u32, u64, u64) = Catalogue::totals;
    let _: fn(&Catalogue, &Catalogue) -> bool = Catalogue::same;
    let _: fn(&mut Catalogue, usize) -> Result<(), AllocError> = Catalogue::reserve;
    let _: fn(&mut Catalogue, Entry) -> bool = Catalogue::add_reserved;
}

#[test]
fn calls_of_members(_rt: HostRuntime) {
    calls_of_groups();
    calls_of_one_member();
    calls_of_publishing();
    calls_of_reading();
    calls_of_commands();
    calls_of_processes();
    calls_of_mirrors();
}

fn calls_of_groups() {
    let _: fn(Global, &Name) -> Result<Group, AllocError> = Group::new;
    let _: fn(&mut Group, &Name, &[u8]) -> Result<u32, GroupFault> = Group::add_member;
    let _: fn(&mut Group, &Name, &[u8]) -> Result<u32, GroupFault> = Group::add_client;
}

fn calls_of_one_member() {
    let _: fn(Global, &Group, u32, u64, u32) -> Result<Member, AllocError> = Member::new;
    let _: fn(&mut Member, &Group, &[u8], u64, u32) -> Result<Mode, HearRefusal> = Member::hear;
    let _: fn(&mut Member, &Group, &[u8]) -> Result<bool, HearRefusal> = Member::join_from;
    let _: fn(&mut Member, &Group, u64, u32) -> Result<Fire, AllocError> = Member::fire;
    let _: fn(&Member, Global, &Group) -> Made = Member::sync;
    let _: fn(&mut Member, u8) -> Result<Option<Part>, FetcherBusy> = Member::claim;
    let _: fn(&mut Member, u8) -> Result<Part, FetcherIdle> = Member::lose;
    let _: fn(&Member, Global, &Group, u8) -> Result<Want, WantFault> = Member::want;
    let _: fn(&mut Member, &Group, u8, &[u8]) -> Result<Part, AcceptRefusal> = Member::accept;
    let _: fn(&mut Member, u64, u32) = Member::restart;
    let _: fn(&mut Member, u64, u32) = Member::reset;
    let _: fn(&mut Member) = Member::end_claims;
}

// The parts of a publication.
type Publishing = Result<Published, PublishRefusal>;

fn calls_of_publishing() {
    let _: fn(&mut Member, &Group, &Name, &[Vec<u8>], u64, u32) -> Publishing = Member::publish;
    let _: fn(&mut Member, &Group, u16, u64, u32) -> Result<Published, WithdrawRefusal> =
        Member::withdraw;
    let _: fn(&mut Member, &Group, &[u8]) -> Result<Answered, AllocError> = Member::command;
    let _: fn(&mut Member, &Group, u32, u64, &[u8], u64, u32) -> Result<Blocked, PublishRefusal> =
        Member::block;
    let _: fn(&Member, Global, &Group, Option<Part>, usize) -> Result<Vec<Job>, AllocError> =
        Member::plan;
    let _: fn(&Member, &Group, Part) -> Result<Option<Vec<u8>>, AllocError> = Member::logged;
}

fn calls_of_reading() {
    let _: fn(&Member) -> Mode = Member::mode;
    let _: fn(&Member) -> u64 = Member::next_draw;
    let _: fn(&Member) -> u32 = Member::log_len;
}

fn calls_of_commands() {
    let _: fn(Global, &Name, &Command, &Name, &[u8]) -> Made = make_command;
    let _: fn(Global, &[u8], &Name, &KeyRing) -> Result<(u32, Command), CommandRefusal> =
        check_command;
    let _: fn(Global, &Answer) -> Made = write_answer;
    let _: fn(&[u8]) -> Option<Answer> = read_answer;
}

fn calls_of_processes() {
    let _: fn(Global) -> Processes = Processes::new;
    let _: fn(&mut Processes, &Name, u64, u64) -> Result<u32, StartFault> = Processes::start;
    let _: fn(&Processes) -> Option<u32> = Processes::next;
    let _: fn(&mut Processes, u32, u64, &[u8]) -> Result<BlockState, AllocError> = Processes::block;
    let _: fn(&mut Processes, u32, u64) = Processes::take_back;
    let _: fn(&Processes, u64) -> Option<(u64, bool)> = Processes::status;
    let _: fn(&Processes, Global, u32) -> Result<Option<Blocks>, AllocError> = Processes::object;
    let _: fn(&mut Processes, u32) = Processes::published;
    let _: fn(&mut Processes) = Processes::clear;
}

fn calls_of_mirrors() {
    let _: fn(Global) -> Watchers = Watchers::new;
    let _: fn(Global, usize, Pattern) -> Result<Mirror, AllocError> = Mirror::new;
    let _: fn(&mut Mirror, &Vector) = Mirror::learn;
    let _: fn(
        &Mirror,
        Global,
        &Roster,
        &Name,
        Option<Part>,
        usize,
    ) -> Result<Vec<Job>, AllocError> = Mirror::plan;
}

// No pointer is to a generic function, so each is called by one that isn't.
#[test]
fn calls_of_generics(_rt: HostRuntime) {
    let _: fn(Global) -> Opened = opened;
    let _: fn(&Board<u32>) -> u32 = tries;
    let _: fn(Seat<u32>) -> Worker<u32> = worker;
    let _: fn(Worker<u32>) -> Seat<u32> = seat;
    let _: fn(Global, Group, &FixedDraws) -> Result<World, AllocError> = world;
}

// A new board and its seats.
type Opened = Result<(Board<u32>, Vec<Seat<u32>>), AllocError>;

fn opened(alloc: Global) -> Opened {
    let items: usize = 2;
    let tries: u32 = 2;
    let seats: usize = 1;
    Board::new(alloc, items, tries, seats)
}

fn tries(board: &Board<u32>) -> u32 {
    Board::tries(board)
}

fn worker(seat: Seat<u32>) -> Worker<u32> {
    Worker::new(seat)
}

fn seat(worker: Worker<u32>) -> Seat<u32> {
    Worker::into_seat(worker)
}

fn world(alloc: Global, group: Group, draws: &FixedDraws) -> Result<World, AllocError> {
    World::new(alloc, group, draws)
}

#[test]
fn calls_of_worlds(_rt: HostRuntime) {
    calls_of_nets();
    calls_of_reading_worlds();
    let _: fn(&mut World, Pattern) -> Result<u32, MirrorFault> = World::add_mirror;
    let _: fn(&mut World, u32, u32) -> Result<(), StepFault> = World::mirror_deliver;
}

fn calls_of_reading_worlds() {
    let _: fn(&World) -> u32 = World::steps;
    let _: fn(&World) -> u64 = World::now;
    let _: fn(&World) -> Tally = World::tally;
    let _: fn(&World, u32) -> u32 = World::published;
}

fn calls_of_nets() {
    let _: fn([u8; 32]) -> Seeded = Seeded::new;
    let _: fn(u32) -> FixedDraws = FixedDraws::new;
    let _: fn(u32) -> TableNet = TableNet::new;
    let _: fn() -> OpenNet = OpenNet::new;
    let _: fn(Global) -> Sent = Sent::new;
    let _: fn(&mut Sent, u32, &Vec<u16>, &[u8]) -> Result<u32, AllocError> = Sent::add;
    let _: fn(&Sent, u32, &[u16]) -> bool = Sent::has;
    let _: fn(&mut Sent, usize) -> Result<(), AllocError> = Sent::reserve;
    let _: fn(&mut Sent, u32, Vec<u16>, Vec<u8>) -> u32 = Sent::add_reserved;
}

#[test]
fn calls_of_outcomes(_rt: HostRuntime) {
    calls_that_take();
    let _: fn(&mut Store, u32, u16) -> u32 = Store::drop_parts;
    let _: fn(&mut Watchers, Pattern, &Catalogue) -> Result<u32, WatchFault> = Watchers::add;
    let _: fn(StepFault) -> u32 = refused_by;
}

// How many parts a call of a member newly holds.
type Held = Result<u32, AllocError>;

fn calls_that_take() {
    let _: for<'p> fn(&mut Member, &Group, &[Job], &[Option<Checked<'p>>], &[u32]) -> Held =
        Member::take_outcome;
}

// The number of a refusal, or 0.
fn refused_by(fault: StepFault) -> u32 {
    match fault {
        StepFault::Refused { number } => number,
        StepFault::Foreign => 0,
        StepFault::NoMemory => 0,
    }
}

// No pointer is to a method that lends what a value keeps, so these are called, by values of the types that they take.
#[test]
fn calls_that_lend(_rt: HostRuntime) {
    lent_by_an_object(None);
    lent_by_a_want(None);
    lent_by_a_store(None);
    lent_by_a_catalogue(None);
    lent_by_a_group(None);
    lent_by_a_member(None);
    lent_by_a_mirror(None);
    lent_by_sent_packets(None);
    lent_by_a_world(None);
}

fn lent_by_an_object<'p>(object: Option<&'p Object>) {
    if let Some(object) = object {
        let _: &'p Name = Object::name(object);
        let _: &'p [Vec<u8>] = Object::contents(object);
    }
}

fn lent_by_a_want<'p>(given: Option<(&'p Want, &'p [u8], &'p KeyRing)>) {
    let Some((want, octets, ring)) = given else {
        return;
    };
    let _: &'p [u8] = Want::interest(want);
    if (want.part().publisher as usize) < ring.len() {
        let checked: Result<Checked<'p>, PartRefusal> = check_part(want, octets, ring);
        if let Ok(checked) = checked {
            let _: &'p [u8] = Checked::octets(&checked);
            let _: Part = Checked::part(&checked);
        }
    }
}

fn lent_by_a_store<'p>(given: Option<(&'p Store, Part, &[u8])>) {
    if let Some((store, part, interest)) = given {
        let _: Option<&'p [u8]> = Store::get(store, part);
        let _: Result<Option<&'p [u8]>, PacketFault> = Store::serve(store, interest);
    }
}

fn lent_by_a_catalogue<'p>(catalogue: Option<&'p Catalogue>) {
    if let Some(catalogue) = catalogue {
        let _: &'p [Entry] = Catalogue::entries(catalogue);
        let publisher: u32 = 0;
        let seq: u16 = 1;
        let _: Option<&'p Entry> = Catalogue::entry(catalogue, publisher, seq);
    }
}

fn lent_by_a_group<'p>(group: Option<&'p Group>) {
    if let Some(group) = group {
        let _: &'p Roster = Group::roster(group);
        let _: &'p KeyRing = Group::members(group);
        let _: &'p KeyRing = Group::clients(group);
        let _: &'p Name = Group::name(group);
    }
}

fn lent_by_a_member<'p>(given: Option<(&'p Member, Part, &[u8])>) {
    if let Some((member, part, interest)) = given {
        let _: Option<&'p [u8]> = Member::packet(member, part);
        let _: &'p Catalogue = Member::catalogue(member);
        let _: &'p Vector = Member::vector(member);
        let _: Result<Option<&'p [u8]>, PacketFault> = Member::serve(member, interest);
    }
}

fn lent_by_a_mirror<'p>(mirror: Option<&'p Mirror>) {
    if let Some(mirror) = mirror {
        let _: &'p Vector = Mirror::vector(mirror);
        let _: &'p Catalogue = Mirror::catalogue(mirror);
    }
}

fn lent_by_sent_packets<'p>(sent: Option<&'p Sent>) {
    if let Some(sent) = sent {
        let k: u32 = 1;
        let _: Option<&'p [u8]> = Sent::octets(sent, k);
    }
}

fn lent_by_a_world<'p>(world: Option<&'p World>) {
    if let Some(world) = world {
        let _: &'p Group = World::group(world);
        let m: u32 = 0;
        if (m as usize) < world.members() {
            let _: &'p Member = World::member(world, m);
        }
    }
}
