use super::checks::{is, same};
use super::{PRE, put, run_over};
use bench_net::{FixedDraws, Net};
use repo_io::*;
use std::process::Abort;
use std::sync::atomic::{AtomicBool, Ordering};
use std::test::*;
use std::thread::Threads;

// A network that passes all. The first call waits until all four publications were asked for, or until it looked
// 100,000,000 times.
#[derive(Drop)]
struct Gate {
    asked: [AtomicBool; 4],
    first: AtomicBool,
    saw_all: AtomicBool,
}

impl Gate {
    fn new() -> Gate {
        Gate {
            asked: [
                AtomicBool::new(false),
                AtomicBool::new(false),
                AtomicBool::new(false),
                AtomicBool::new(false),
            ],
            first: AtomicBool::new(false),
            saw_all: AtomicBool::new(false),
        }
    }
}

impl Net for Gate {
    ghost use Rattle.std.specs.Prelude.{true};

    ghost passes = { λ gate asker publisher seq part attempt loss. true };

    fn passes(
        &self,
        _asker: u32,
        _publisher: u32,
        seq: u32,
        _part: u32,
        _attempt: u32,
        _loss: u32,
    ) -> bool {
        if let Some(flag) = self.asked.get((seq % 4) as usize) {
            flag.store(true, Ordering::SeqCst);
        }
        if !self.first.swap(true, Ordering::SeqCst) {
            for _ in 0..100_000_000 {
                if self.asked.iter().all(|flag| flag.load(Ordering::SeqCst)) {
                    self.saw_all.store(true, Ordering::SeqCst);
                    break;
                }
            }
        }
        true
    }
}

// Four publications of one part, and then these lines, with what the last of them prints.
fn expect_beside<R: Threads + Sync + AllocGlobal + Abort>(rt: &R, lines: &str, last: &str) {
    let script = publishing_four(rt, lines);
    let gate = Gate::new();
    let mut sink = VecSink::new(rt.alloc(), 5_000, Vec::new(rt.alloc()));
    same(
        rt,
        run_gated(rt, &script, &mut sink, &gate),
        Status::Done,
        lines,
    );
    is(rt, sink.octets().ends_with(last.as_bytes()), lines);
    is(rt, gate.saw_all.load(Ordering::SeqCst), lines);
}

fn publishing_four(rt: &(impl Abort + AllocGlobal), lines: &str) -> String {
    let mut script = String::from_str(rt.alloc(), PRE).expect(rt, "memory");
    for name in &["/a", "/b", "/c", "/d"] {
        write!(script, "publish alice {name} 10 text:\n").expect(rt, "memory");
    }
    put(rt, &mut script, lines);
    script
}

fn run_gated<R: Threads + Sync + AllocGlobal + Abort>(
    rt: &R,
    script: &str,
    sink: &mut VecSink,
    gate: &Gate,
) -> Status {
    let mut source = ReadSource::new(script.as_bytes());
    let mut end = None;
    let given = (gate, &FixedDraws::new(100));
    run_over(rt, "run", &mut source, sink, given, &mut end)
}

#[test]
fn workers_ask_beside_each_other(rt: HostRuntime) {
    let fetched = "fetch bob planned 4 kept 4 attempts 4\n";
    expect_beside(&rt, "deliver 4 bob\nfetch bob 2 1 0\n", fetched);
    expect_beside(&rt, "settle 2\n", "settle syncs 2 kept 4\n");
}
