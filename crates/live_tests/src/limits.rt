// Which lists a live group may have.
use crate::inputs::{object, two_members};
use live_member::{are_within_limits, count_parts};
use repo_object::Object;
use std::process::Abort;
use std::test::*;

// `objects` objects of `segments` segments each.
fn list(rt: &(impl Abort + AllocGlobal), objects: usize, segments: usize) -> Vec<Object> {
    let content = vec![in rt.alloc(); 7; segments].expect(rt, "memory");
    let mut list = Vec::new(rt.alloc());
    for _ in 0..objects {
        list.push(object(rt, "/doc", &content, 1))
            .expect(rt, "memory");
    }
    list
}

#[test]
fn lists_are_limited_in_objects_and_parts(rt: HostRuntime) {
    let g = two_members(&rt);
    // Objects of alice, of bob, the segments of each, and whether they are within the limits.
    let rows = [
        (0, 0, 0, true),
        (100, 100, 0, true),
        (100, 101, 0, false),
        (201, 0, 0, false),
        (100, 100, 19, true),
        (100, 100, 20, false),
        (0, 1, 3979, true),
        (0, 1, 3980, false),
    ];
    for (alices, bobs, segments, expected) in rows {
        let lists = [list(&rt, alices, segments), list(&rt, bobs, segments)];
        assert_eq!(&rt;
            (alices, bobs, segments, are_within_limits(&g, &lists)),
            (alices, bobs, segments, expected)
        );
    }
    assert!(&rt; !are_within_limits(&g, &[list(&rt, 1, 1)]));
}

#[test]
fn parts_are_records_index_packets_and_segments(rt: HostRuntime) {
    let small = list(&rt, 2, 0);
    let large = list(&rt, 3, 201);
    assert!(&rt; small.len() == 2);
    assert!(&rt; large.len() == 3);
    assert_eq!(&rt; count_parts(&[small, large]), 2 + 3 * 204);
}
