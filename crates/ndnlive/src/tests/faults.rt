use super::{PRE, status_of};
use repo_io::*;
use std::process::Abort;
use std::sync::Wait;
use std::test::*;
use std::thread::Threads;

// Runs an input, where these calls of the source and the sink fail, and expects how it ends and how much was written.
fn expect_fault<R: Threads + Wait + Sync + AllocGlobal + Abort>(
    rt: &R,
    input: &str,
    reads: &[u64],
    writes: &[u64],
    wanted: (Status, &str),
) {
    let input = input.as_bytes().to_vec(rt.alloc()).expect(rt, "memory");
    let reads = reads.to_vec(rt.alloc()).expect(rt, "memory");
    let writes = writes.to_vec(rt.alloc()).expect(rt, "memory");
    let mut source = VecSource::new(input, 20, reads);
    let mut sink = VecSink::new(rt.alloc(), 8, writes);
    let answered = status_of(rt, "live", &mut source, &mut sink);
    assert_eq!(rt; answered, wanted.0);
    assert_eq!(rt; sink.octets(), wanted.1.as_bytes());
}

#[test]
fn a_failed_read_writes_nothing(rt: HostRuntime) {
    for call in 1..5 {
        let reads = [call];
        expect_fault(&rt, PRE, &reads, &[], (Status::ReadFault, ""));
    }
}

#[test]
fn a_failed_write_leaves_a_prefix(rt: HostRuntime) {
    let refused = format!(in rt.alloc(); "{PRE}settle 1").expect(&rt, "memory");
    expect_fault(&rt, &refused, &[], &[1], (Status::WriteFault, ""));
    expect_fault(&rt, &refused, &[], &[2], (Status::WriteFault, "refused "));
    expect_fault(
        &rt,
        &refused,
        &[],
        &[3],
        (Status::WriteFault, "refused 4 16 Not"),
    );
    expect_fault(&rt, PRE, &[], &[2], (Status::WriteFault, "journal "));
}
