use super::{PRE, compare, put, run_over};
use bench_net::{FixedDraws, Net, Seeded, TableNet};
use repo_io::*;
use std::process::Abort;
use std::test::*;
use std::thread::Threads;

// Expects what a script prints over a network.
fn expect_over<R: Threads + Sync + AllocGlobal + Abort, N: Net + Sync>(
    rt: &R,
    script: &str,
    net: &N,
    report: &str,
) {
    let mut sink = VecSink::new(rt.alloc(), 100, Vec::new(rt.alloc()));
    let answered = run_to(rt, script, &mut sink, net);
    compare(rt, (answered, sink.octets()), Status::Done, report);
}

fn run_to<R: Threads + Sync + AllocGlobal + Abort, N: Net + Sync>(
    rt: &R,
    script: &str,
    sink: &mut VecSink,
    net: &N,
) -> Status {
    let mut source = ReadSource::new(script.as_bytes());
    let mut end = None;
    let given = (net, &FixedDraws::new(100));
    run_over(rt, "run", &mut source, sink, given, &mut end)
}

// A publication of three segments that bob fetches, each time with these numbers of workers, tries and loss.
fn fetching(rt: &(impl Abort + AllocGlobal), lines: &[(u32, u32, u32)]) -> String {
    let mut script = String::from_str(rt.alloc(), PRE).expect(rt, "memory");
    put(
        rt,
        &mut script,
        "publish alice /doc 1 text:abc\ndeliver 1 bob\n",
    );
    for (workers, tries, loss) in lines {
        write!(script, "fetch bob {workers} {tries} {loss}\n").expect(rt, "memory");
    }
    script
}

#[test]
fn workers_make_no_difference(rt: HostRuntime) {
    for workers in &[1, 2, 16] {
        let workers = *workers;
        let script = fetching(
            &rt,
            &[(workers, 16, 1_000), (workers, 16, 0), (workers, 16, 0)],
        );
        let report = "publish alice 1 segments 3 sync 1\n\
            deliver 1 bob steady\n\
            fetch bob planned 1 kept 0 attempts 16\n\
            fetch bob planned 1 kept 1 attempts 1\n\
            fetch bob planned 3 kept 3 attempts 3\n";
        expect_over(&rt, &script, &Seeded::new([0; 32]), report);
        let script = fetching(&rt, &[(workers, 16, 500)]);
        let report = "publish alice 1 segments 3 sync 1\n\
            deliver 1 bob steady\n\
            fetch bob planned 1 kept 1 attempts 3\n";
        expect_over(&rt, &script, &TableNet::new(3), report);
    }
}

// Forty publications by five members, counted from 0. Those of the first or the second half, one after another.
fn put_publications(rt: &impl Abort, script: &mut String, half: u32) {
    for i in 0..40u32 {
        if i / 20 == half {
            let (m, f, octets) = (1 + i % 5, 1 + i, 100 * (1 + i % 30));
            write!(
                script,
                "publish m{m} /site/files/f{f} 100 fill:{octets}:65\n"
            )
            .expect(rt, "memory");
        }
    }
}

// What these publications print, where `besides` other sync Interests were sent before.
fn put_published(rt: &impl Abort, report: &mut String, half: u32, besides: u32) {
    for i in 0..40u32 {
        if i / 20 == half {
            let (m, seq, segments) = (1 + i % 5, 1 + i / 5, 1 + i % 30);
            let sync = besides.saturating_add(1 + i);
            write!(
                report,
                "publish m{m} {seq} segments {segments} sync {sync}\n"
            )
            .expect(rt, "memory");
        }
    }
}

fn week_script(rt: &(impl Abort + AllocGlobal)) -> String {
    let mut script = String::from_str(rt.alloc(), "group /site/docs\n").expect(rt, "memory");
    for m in 1..=5 {
        write!(script, "member m{m} /site/m{m} 6b3{m}\n").expect(rt, "memory");
    }
    put_publications(rt, &mut script, 0);
    put(rt, &mut script, "deliver 20 m1\ndeliver 20 m2\n");
    put(
        rt,
        &mut script,
        "fetch m1 4 8 200\nfetch m2 4 8 200\nsettle 4\n",
    );
    put_publications(rt, &mut script, 1);
    put(rt, &mut script, "settle 4\nsummary\n");
    script
}

// 230 parts of 20 publications reach four members each, except 4 that two members fetched before; then 330 parts.
fn week_report(rt: &(impl Abort + AllocGlobal)) -> String {
    let mut report = String::new(rt.alloc());
    put_published(rt, &mut report, 0, 0);
    put(
        rt,
        &mut report,
        "deliver 20 m1 suppressed\n\
         deliver 20 m2 suppressed\n\
         fetch m1 planned 4 kept 4 attempts 7\n\
         fetch m2 planned 4 kept 4 attempts 5\n\
         settle syncs 5 kept 912\n",
    );
    put_published(rt, &mut report, 1, 5);
    put(rt, &mut report, "settle syncs 5 kept 1320\n");
    for m in 1..=5 {
        write!(
            report,
            "summary m{m} entries 40 segments 520 octets 52000\n"
        )
        .expect(rt, "memory");
    }
    report
}

#[test]
fn a_week_of_publications_reaches_all(rt: HostRuntime) {
    let script = week_script(&rt);
    let report = week_report(&rt);
    expect_over(&rt, &script, &Seeded::new([0; 32]), &report);
}
