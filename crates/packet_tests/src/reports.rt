ghost use Rattle.std.specs.Prelude.{◌≡◌, length, IfOk};

use crate::expect::same;
use ndn_name::Name;
use repo_catalog::Entry;
use script_report::*;
use std::alloc::{AllocError, Global};
use std::str;
use std::test::*;

// A line of each form, and of those with a repeating piece one without a piece and one with two.
const REPORT: &str = "\
publish alice 1 segments 200 sync 3
withdraw alice 65535 of 1 sync 2
deliver 1 bob steady
deliver 4294967295 bob suppressed
sync 1 05000aff
sync 2 \n\
advance now 1000000000
fire bob early
fire bob quiet
fire bob sent 3
restart bob
claim bob 1 part alice 65535 200
claim bob 16 none
lose bob 2 part alice 1 0
answer bob 1 kept
answer bob 1 none
fetch bob planned 4096 kept 0 attempts 65536
settle syncs 2 kept 8
feed bob 1 kept
feed bob 1 refused OtherDigest
dump bob 0600
dump bob none
hear bob steady
hear bob suppressed
hear bob refused BadVector 0
ask bob found 0600
ask bob none
ask bob refused Missing Name
order alice 403
insert alice 100 process 1
status alice 300 inserted 0
delete alice 200 packets 4
order alice 200 process 1 inserted 2 packets 3
block alice 300
block alice 404
block alice 200
block alice 200 published 1 sync 18446744073709551615
journal bob 12
journal alice 0
publish 65535
hear 0500 steady
hear 05 suppressed
hear  refused
claim 1 part alice 65535 20100
claim 16 none
claim 2 refused
feed 1 alice 65535 20100 kept
feed 2 bob 1 0 refused
lose 16 part bob 1 0
lose 1 refused
watch bob 1
told bob 16 0
told bob 1 7
entry alice 1 /doc segments 1 octets 3 sha256 ba7816bf8f01cfea414140de5dae2223b00361a396177a9cb410ff61f20015ad
entry bob 65535 /... segments 0 octets 0 sha256 e3b0c44298fc1c149afbf4c8996fb92427ae41e4649b934ca495991b7852b855
mdeliver 4294967295 mia
mfetch mia planned 4096 kept 0 attempts 65536
mcatalogue mia 0
mcatalogue mia 7
entry alice 1 /doc segments 1 octets 3 sha256 ba7816bf8f01cfea414140de5dae2223b00361a396177a9cb410ff61f20015ad
entry bob 65535 /... segments 0 octets 0 sha256 e3b0c44298fc1c149afbf4c8996fb92427ae41e4649b934ca495991b7852b855
vector bob
vector bob alice=2 bob=0
catalogue bob 0
catalogue bob 7
entry alice 1 /doc segments 1 octets 3 sha256 ba7816bf8f01cfea414140de5dae2223b00361a396177a9cb410ff61f20015ad
entry bob 65535 /... segments 0 octets 0 sha256 e3b0c44298fc1c149afbf4c8996fb92427ae41e4649b934ca495991b7852b855
summary alice entries 1 segments 2 octets 3
summary bob entries 0 segments 0 octets 0
traffic syncs 3 delivered 2 attempts 0 parts 2 octets 197
refused 1004 10 TooLarge
foreign 5
";

#[test]
fn each_form_is_written(rt: HostRuntime) -> Result<(), Fail> {
    let mut out = Vec::new(rt.alloc());
    put_all(rt.alloc(), &mut out)?;
    same(&rt, str::from_utf8(&out), Ok(REPORT), "a report");
    Ok(())
}

fn put_all(alloc: Global, out: &mut Vec<u8>) -> Result<(), Fail> {
    put_events(out)?;
    put_parts(out)?;
    put_octets(out)?;
    put_commands(out)?;
    put_journals(out)?;
    put_readings(alloc, out)?;
    put_refused(out, 1_004, 10, "TooLarge")?;
    put_foreign(out, 5)?;
    Ok(())
}

fn put_events(out: &mut Vec<u8>) -> Result<(), AllocError> {
    put_publish(out, "alice", 1, 200, 3)?;
    put_withdraw(out, "alice", 65_535, 1, 2)?;
    put_deliver_steady(out, 1, "bob")?;
    put_deliver_suppressed(out, 4_294_967_295, "bob")?;
    put_sync(out, 1, b"\x05\x00\x0a\xff")?;
    put_sync(out, 2, b"")?;
    put_advance(out, 1_000_000_000)?;
    put_fire_early(out, "bob")?;
    put_fire_quiet(out, "bob")?;
    put_fire_sent(out, "bob", 3)?;
    put_restart(out, "bob")
}

fn put_parts(out: &mut Vec<u8>) -> Result<(), AllocError> {
    put_claim_part(out, "bob", 1, "alice", 65_535, 200)?;
    put_claim_none(out, "bob", 16)?;
    put_lose(out, "bob", 2, "alice", 1, 0)?;
    put_answer_kept(out, "bob", 1)?;
    put_answer_none(out, "bob", 1)?;
    put_fetch(out, "bob", 4_096, 0, 65_536)?;
    put_settle(out, 2, 8)?;
    put_feed_kept(out, "bob", 1)?;
    put_feed_refused(out, "bob", 1, "OtherDigest")
}

fn put_octets(out: &mut Vec<u8>) -> Result<(), AllocError> {
    put_dump_hex(out, "bob", b"\x06\x00")?;
    put_dump_none(out, "bob")?;
    put_hear_steady(out, "bob")?;
    put_hear_suppressed(out, "bob")?;
    put_hear_refused(out, "bob", "BadVector 0")?;
    put_ask_found(out, "bob", b"\x06\x00")?;
    put_ask_none(out, "bob")?;
    put_ask_refused(out, "bob", "Missing Name")
}

fn put_commands(out: &mut Vec<u8>) -> Result<(), AllocError> {
    put_order(out, "alice", 403, None, None, None)?;
    put_insert(out, "alice", 100, Some(1), None, None)?;
    put_status(out, "alice", 300, None, Some(0), None)?;
    put_delete(out, "alice", 200, None, None, Some(4))?;
    put_order(out, "alice", 200, Some(1), Some(2), Some(3))?;
    put_block_300(out, "alice")?;
    put_block_404(out, "alice")?;
    put_block_200(out, "alice")?;
    put_block_published(out, "alice", 1, u64::MAX)
}

fn put_journals(out: &mut Vec<u8>) -> Result<(), AllocError> {
    put_journal(out, "bob", 12)?;
    put_journal(out, "alice", 0)?;
    put_journal_publish(out, 65_535)?;
    put_journal_hear_steady(out, b"\x05\x00")?;
    put_journal_hear_suppressed(out, b"\x05")?;
    put_journal_hear_refused(out, b"")?;
    put_journal_claim_part(out, 1, "alice", 65_535, 20_100)?;
    put_journal_claim_none(out, 16)?;
    put_journal_claim_refused(out, 2)?;
    put_journal_feed_kept(out, 1, "alice", 65_535, 20_100)?;
    put_journal_feed_refused(out, 2, "bob", 1, 0)?;
    put_journal_lose_part(out, 16, "bob", 1, 0)?;
    put_journal_lose_refused(out, 1)
}

fn put_readings(alloc: Global, out: &mut Vec<u8>) -> Result<(), Fail> {
    let labels = labels(alloc)?;
    let entries = entries(alloc)?;
    put_lists(out, &labels, &entries)?;
    Ok(())
}

fn labels(alloc: Global) -> Result<Vec<String>, AllocError>
    ensures { IfOk result (λ labels. length labels.items ≡ 2) }
{
    let alice = String::from_str(alloc, "alice")?;
    let bob = String::from_str(alloc, "bob")?;
    Ok(vec![in alloc; alice, bob]?)
}

fn entries(alloc: Global) -> Result<Vec<Entry>, Fail>
    ensures { IfOk result (λ entries. length entries.items ≡ 2) }
{
    let abc = "ba7816bf8f01cfea414140de5dae2223b00361a396177a9cb410ff61f20015ad";
    let first = entry(alloc, 1, b"doc", 1, 3, abc)?;
    let nothing = "e3b0c44298fc1c149afbf4c8996fb92427ae41e4649b934ca495991b7852b855";
    let second = entry(alloc, 65_535, b"", 0, 0, nothing)?;
    Ok(vec![in alloc; first, second]?)
}

// What is printed with lists of labels or entries.
fn put_lists(out: &mut Vec<u8>, labels: &[String], entries: &[Entry]) -> Result<(), AllocError>
    requires two { length labels.now ≡ 2 }
    requires each { length entries.now ≡ 2 }
{
    put_followers(out, labels, entries)?;
    put_vector(out, "bob", &[], &[])?;
    put_vector(out, "bob", labels, &[2, 0])?;
    put_catalogue(out, "bob", 0, &[], &[])?;
    put_catalogue(out, "bob", 7, labels, entries)?;
    put_summary(out, &[], &[], &[], &[])?;
    put_summary(out, labels, &[1, 0], &[2, 0], &[3, 0])?;
    put_traffic(out, 3, 2, 0, 2, 197)
}

// What watchers and mirrors are given.
fn put_followers(out: &mut Vec<u8>, labels: &[String], entries: &[Entry]) -> Result<(), AllocError>
    requires { length labels.now ≡ length entries.now }
{
    put_watch(out, "bob", 1)?;
    put_told(out, "bob", 16, 0, &[], &[])?;
    put_told(out, "bob", 1, 7, labels, entries)?;
    put_mdeliver(out, 4_294_967_295, "mia")?;
    put_mfetch(out, "mia", 4_096, 0, 65_536)?;
    put_mcatalogue(out, "mia", 0, &[], &[])?;
    put_mcatalogue(out, "mia", 7, labels, entries)
}

fn entry(
    alloc: Global,
    seq: u16,
    component: &[u8],
    segments: u32,
    octets: u64,
    digest: &str,
) -> Result<Entry, Fail> {
    let mut name = Name::new(alloc);
    name.push(8, component)?;
    let mut digits = [0; 32];
    hex::decode_to_slice(digest, &mut digits)?;
    Ok(Entry {
        publisher: 9,
        seq,
        name,
        segments,
        octets,
        digest: digits,
    })
}
