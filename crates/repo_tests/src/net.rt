use crate::expect::{is, same};
use bench_net::*;
use std::process::Abort;
use std::test::*;

// Shared by threads, so that a proof that these can be is owed here.
fn passed<N: Net + Sync>(net: &N) -> bool {
    net.passes(0, 1, 1, 0, 1, 100)
}

fn drawn<D: Draws + Sync>(draws: &D) -> u32 {
    draws.draw(3, 7)
}

#[test]
fn answers(rt: HostRuntime) {
    is(&rt, passed(&OpenNet::new()), "passed");
    same(&rt, drawn(&FixedDraws::new(100)), 100, "drawn");
}

#[test]
fn a_table_passes_one_attempt(rt: HostRuntime) {
    let net = TableNet::new(3);
    for attempt in 0..6 {
        let passes = net.passes(0, 1, 1, 0, attempt, 1_000);
        same(
            &rt,
            (attempt, passes),
            (attempt, attempt == 3),
            "an attempt",
        );
    }
}

// A seed's octets, from 0 to 31.
const COUNTED: [u8; 32] = [
    0, 1, 2, 3, 4, 5, 6, 7, 8, 9, 10, 11, 12, 13, 14, 15, 16, 17, 18, 19, 20, 21, 22, 23, 24, 25,
    26, 27, 28, 29, 30, 31,
];

// Member, number and draw, by ChaCha with 8 rounds as a script that is no part of this repository computes it.
const DRAWN: [(u32, u64, u32); 5] = [
    (0, 0, 1_740_451_766),
    (0, 1, 4_239_384_297),
    (1, 0, 2_118_177_571),
    (3, 70, 2_961_103_490),
    (4_294_967_295, 18_446_744_073_709_551_615, 3_276_201_136),
];

#[test]
fn seeded_draws(rt: HostRuntime) {
    let draws = Seeded::new([0; 32]);
    for (member, k, value) in &DRAWN {
        same(&rt, draws.draw(*member, *k), *value, "draw");
    }
    same(&rt, drawn(&Seeded::new(COUNTED)), 2_819_326_855, "drawn");
}

// Asker, publisher, number, part, attempt and the word modulo 1,000, by the same script. The first four are the first
// words of stream 0 under the zero seed.
const ZERO_SEED: [(u32, u32, u32, u32, u32, u32); 8] = [
    (0, 0, 0, 0, 0, 318),
    (0, 0, 0, 0, 1, 985),
    (0, 0, 0, 0, 2, 159),
    (0, 0, 0, 0, 3, 551),
    (1, 0, 1, 0, 1, 412),
    (1, 0, 1, 1, 1, 532),
    (15, 15, 65_535, 65_535, 2_097_151, 961),
    (
        4_294_967_295,
        4_294_967_295,
        4_294_967_295,
        4_294_967_295,
        4_294_967_295,
        304,
    ),
];

#[test]
fn seeded_passes(rt: HostRuntime) {
    let net = Seeded::new([0; 32]);
    for (asker, publisher, seq, part, attempt, most) in &ZERO_SEED {
        let passes = |loss: u32| net.passes(*asker, *publisher, *seq, *part, *attempt, loss);
        is(&rt, passes(*most), "at the word");
        is(&rt, !passes(*most + 1), "past the word");
        is(&rt, passes(0), "no loss");
        is(&rt, !passes(1_000), "all are lost");
    }
    is(
        &rt,
        Seeded::new(COUNTED).passes(15, 15, 65_535, 65_535, 2_097_151, 135),
        "passes",
    );
    is(&rt, passed(&Seeded::new([0; 32])), "the zero seed");
    is(&rt, passed(&TableNet::new(1)), "a table");
}

#[test]
fn packets_that_were_sent_are_found(rt: HostRuntime) {
    let mut sent = Sent::new(rt.alloc());
    let first = add(&rt, &mut sent, 1, &[0, 2], b"ab");
    let second = add(&rt, &mut sent, 0, &[1, 2], b"c");
    same(&rt, (first, second, sent.len()), (1, 2, 2), "numbers");
    same(&rt, sent.octets(0), None, "0");
    same(&rt, sent.octets(1), Some(b"ab"), "1");
    same(&rt, sent.octets(2), Some(b"c"), "2");
    same(&rt, sent.octets(3), None, "3");
    has_both(&rt, &sent);
}

fn has_both(rt: &impl Abort, sent: &Sent) {
    is(rt, sent.has(1, &[0, 2]), "the first");
    is(rt, sent.has(0, &[1, 2]), "the second");
    is(rt, !sent.has(0, &[0, 2]), "another sender");
    is(rt, !sent.has(1, &[1, 2]), "another sender");
    is(rt, !sent.has(1, &[0, 3]), "another vector");
}

// The number of a packet that is added.
fn add(
    rt: &(impl Abort + AllocGlobal),
    sent: &mut Sent,
    sender: u32,
    vector: &[u16],
    octets: &[u8],
) -> u32 {
    let vector = Vec::from_slice(rt.alloc(), vector).expect(rt, "memory");
    assert!(rt; sent.len() < 10);
    sent.add(sender, &vector, octets).expect(rt, "memory")
}
