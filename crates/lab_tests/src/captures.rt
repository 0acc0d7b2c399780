use lab_capture::{Frame, Station, read_capture};
use std::test::*;

const INTEREST: &[u8] = b"\x05\x05\x07\x03\x08\x01a";

const DATA: &[u8] = b"\x06\x07\x07\x03\x08\x01a\x15\x00";

// What another program writes of the frames below.
const CAPTURE: &[u8] =
    b"\xd4\xc3\xb2\xa1\x02\x00\x04\x00\x00\x00\x00\x00\x00\x00\x00\x00\xff\xff\x00\x00\x01\x00\x00\x00\
    \x1b\x00\x00\x00\xa0\x86\x01\x00\x15\x00\x00\x00\x15\x00\x00\x00\x01\x00\x5e\x00\x17\xaa\x02\x00\
    \x00\x00\x00\x01\x86\x24\x05\x05\x07\x03\x08\x01\x61\
    \x1b\x00\x00\x00\x88\x8a\x01\x00\x17\x00\x00\x00\x17\x00\x00\x00\x02\x00\x00\x00\x00\x01\x02\x00\
    \x00\x00\x00\x02\x86\x24\x06\x07\x07\x03\x08\x01\x61\x15\x00\
    \x00\xe8\x76\x48\x00\x00\x00\x00\x0e\x00\x00\x00\x0e\x00\x00\x00\x02\x00\x00\x00\x01\x04\x02\x00\
    \x00\x00\x03\x01\x86\x24\
    \x00\x00\x00\x00\x58\x3e\x0f\x00\x15\x00\x00\x00\x15\x00\x00\x00\x02\x00\x00\x00\x00\x02\x02\x00\
    \x00\x00\x02\x10\x86\x24\x05\x05\x07\x03\x08\x01\x61";

#[test]
fn frames_are_read(rt: HostRuntime) {
    let frames = read_capture(rt.alloc(), CAPTURE).expect(&rt, "a capture");
    assert!(&rt; frames.len() == 4, "four frames");
    assert!(&rt;
        frames[0] == Frame::at(27_100, Station::Member(0), Station::AllMembers, INTEREST),
        "the first"
    );
    assert!(&rt;
        frames[1] == Frame::at(27_101, Station::Member(1), Station::Member(0), DATA),
        "the second"
    );
    assert!(&rt; frames[2].seconds == 1_215_752_192, "the third");
    assert!(&rt; frames[3].source == Station::Client(15), "the fourth");
}

#[test]
fn others_are_no_captures(rt: HostRuntime) {
    for len in 0..CAPTURE.len() {
        let whole = len == 24 || len == 61 || len == 100 || len == 130;
        let (prefix, _) = CAPTURE.split_at(len);
        let read = read_capture(rt.alloc(), prefix);
        assert!(&rt; read.is_ok() == whole, "{len}");
    }
}
