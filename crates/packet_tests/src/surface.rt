// The signature of each public call, as a program that is written to it needs it.
use ndn_data::DataView;
use ndn_inspect::inspect;
use ndn_interest::{InterestView, write_plain};
use ndn_name::*;
use ndn_sign::{KeyRing, RingFault, digest, hmac};
use ndn_tlv::*;
use script_lang::*;
use std::alloc::{AllocError, Global};
use std::cmp::Ordering;
use std::test::*;
use svs_sync::*;
use svs_vector::*;

// Octets are written so.
type Written = Result<Vec<u8>, PacketWriteFault>;

#[test]
fn calls_of_packets(rt: HostRuntime) {
    calls_of_elements();
    calls_of_names();
    calls_of_keys();
    calls_of_interests();
    calls_of_data();
    calls_of_views();
    calls_of_lenders(
        &KeyRing::new(rt.alloc()),
        &Name::new(rt.alloc()),
        &Roster::new(rt.alloc()),
    );
    let _: fn(Global, &[u8]) -> Result<(Vec<u8>, bool), AllocError> = inspect;
}

fn calls_of_elements() {
    let _: fn(u32) -> bool = is_critical;
    let _: fn(&[u8]) -> Option<u64> = read_number;
    let _: fn(Global) -> Writer = Writer::new;
    let _: fn(&mut Writer, u32, &[u8]) -> Result<(), AllocError> = Writer::put;
    let _: fn(&mut Writer, u32, u64) -> Result<(), AllocError> = Writer::put_number;
    let _: fn(Writer) -> Vec<u8> = Writer::finish;
}

fn calls_of_names() {
    let _: fn(Global) -> Name = Name::new;
    let _: fn(Global, &str) -> Result<Name, NameFault> = Name::from_uri;
    let _: fn(&Name, Global) -> Result<String, AllocError> = Name::to_uri;
    let _: for<'p> fn(Global, &NameView<'p>) -> Result<Name, NameFault> = Name::from_view;
    let _: fn(&mut Name, u16, &[u8]) -> Result<(), NameFault> = Name::push;
    let _: fn(&mut Name, u16, u64) -> Result<(), NameFault> = Name::push_number;
    let _: fn(Global, &Name, &[u8; 32]) -> Result<Name, NameFault> = full_name;
}

fn calls_of_keys() {
    let _: fn(&[u8]) -> [u8; 32] = digest;
    let _: fn(&[u8], &[u8], &[u8]) -> [u8; 32] = hmac;
    let _: fn(Global) -> KeyRing = KeyRing::new;
    let _: fn(&mut KeyRing, &[u8], &[u8]) -> Result<u32, RingFault> = KeyRing::add;
    let _: fn(&KeyRing, &[u8]) -> Option<u32> = KeyRing::find;
    let _: fn(&KeyRing, u32, &[u8], &[u8], &[u8]) -> bool = KeyRing::check_mac;
}

fn calls_of_interests() {
    let _: fn(Global, &Name, bool) -> Result<Vec<u8>, AllocError> = write_plain;
    let _: fn(Global, &Name, &[u8], &Name, &[u8]) -> Written = ndn_interest::write_signed;
}

fn calls_of_data() {
    let _: fn(Global, &Name, Option<u64>, &[u8], &Name, &[u8]) -> Written = ndn_data::write_signed;
}

// These are called, by values of the types that they take, since no pointer is to a method of a type with a lifetime.
fn calls_of_views() {
    calls_of_readers(&[]);
    calls_of_read_names(&[], 0);
    calls_of_read_interests(&[]);
    calls_of_read_data(&[]);
}

// Nor is one to a method that lends what a value keeps.
fn calls_of_lenders<'p>(keys: &'p KeyRing, name: &'p Name, roster: &'p Roster) {
    let _: &'p [u8] = Name::octets(name);
    let _: NameView<'p> = Name::view(name);
    let i: u32 = 0;
    if (i as usize) < keys.len() {
        let _: &'p [u8] = KeyRing::name(keys, i);
        let _: &'p [u8] = KeyRing::key(keys, i);
    }
    if (i as usize) < roster.len() {
        let _: &'p Name = Roster::name(roster, i);
    }
}

fn calls_of_readers<'p>(octets: &'p [u8]) {
    let mut reader: Reader<'p> = Reader::new(octets, 0usize);
    let _: Result<Option<Element<'p>>, TlvFault> = Reader::next(&mut reader);
}

fn calls_of_read_names<'p>(octets: &'p [u8], i: usize) {
    let read: Result<NameView<'p>, NameFault> = NameView::read(octets, 0usize);
    if let Ok(name) = read {
        let len: usize = NameView::len(&name);
        if i < len {
            let _: ComponentView<'p> = NameView::component(&name, i);
        }
        let _: &'p [u8] = NameView::octets(&name);
        let _: Ordering = NameView::compare(&name, &name);
        let _: bool = NameView::is_prefix_of(&name, &name);
    }
}

fn calls_of_read_interests<'p>(octets: &'p [u8]) {
    let read: Result<InterestView<'p>, PacketFault> = InterestView::read(octets);
    if let Ok(interest) = read {
        let _: Option<(&'p [u8], &'p [u8])> = InterestView::signed_portion(&interest);
        let _: bool = InterestView::params_digest_matches(&interest);
    }
}

fn calls_of_read_data<'p>(octets: &'p [u8]) {
    let read: Result<DataView<'p>, PacketFault> = DataView::read(octets);
    if let Ok(data) = read {
        let _: &'p [u8] = DataView::signed_portion(&data);
        let _: bool = DataView::all_signed(&data);
        let digest: [u8; 32] = [0; 32];
        let _: bool = DataView::satisfies(&data, &data.name, true, &digest);
    }
}

#[test]
fn calls_of_vectors(_rt: HostRuntime) {
    calls_of_rosters();
    calls_of_machines();
    let _: fn(Global, usize) -> Result<Vector, AllocError> = Vector::new;
    let _: fn(&Vector, Global) -> Result<Vector, AllocError> = Vector::copy;
    let _: fn(&Vector, u32) -> u16 = Vector::get;
    let _: fn(&mut Vector, u32, u16) = Vector::raise;
    let _: fn(&mut Vector, &Vector) -> bool = Vector::join;
    let _: fn(&Vector, &Vector) -> bool = Vector::covers;
    let _: fn(&Vector, Global, &Roster) -> Result<Vec<u8>, AllocError> = Vector::write;
    let _: fn(Global, &[u8], &Roster) -> Result<Vector, VectorFault> = Vector::read;
}

fn calls_of_rosters() {
    let _: fn(Global) -> Roster = Roster::new;
    let _: fn(&mut Roster, &Name) -> Result<u32, RosterFault> = Roster::add;
    let _: for<'p> fn(&Roster, &NameView<'p>) -> Option<u32> = Roster::find;
    let _: fn(&Roster) -> usize = Roster::len;
}

fn calls_of_machines() {
    let _: fn(Global, usize, u64, u32) -> Result<Machine, AllocError> = Machine::new;
    let _: fn(&mut Machine, u64, u32) = Machine::published;
    let _: fn(&mut Machine, u64, u32) = Machine::reset;
    let _: fn(&mut Machine, u64, &Vector, &Vector, u32) -> Mode = Machine::heard;
    let _: fn(&mut Machine, u64, &Vector, u32) -> Fired = Machine::fired;
    let _: fn(&Machine) -> Mode = Machine::mode;
    let _: fn(&Machine) -> u64 = Machine::deadline;
    let _: fn(&Machine) -> u64 = Machine::next_draw;
    calls_of_sync_interests();
}

fn calls_of_sync_interests() {
    let _: fn(Global, &Name, &Vector, &Roster, &Name, &[u8]) -> Result<Vec<u8>, AllocError> =
        make_sync;
    let _: fn(Global, &[u8], &Name, &Roster, &KeyRing) -> Result<(u32, Vector), SyncRefusal> =
        check_sync;
}

#[test]
fn calls_of_scripts(_rt: HostRuntime) {
    let _: fn(Global, &[u8]) -> Result<Option<Line>, LineFault> = read_line;
    let _: fn(Global) -> Words = Words::new;
    let _: fn(&mut Words, &Line) -> Result<(), CheckFault> = Words::check;
    let _: fn(&Words, &str) -> Option<u32> = Words::member;
    let _: fn(&Words, &str) -> Option<u32> = Words::client;
}
