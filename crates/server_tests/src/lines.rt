use nv_io::{MemSink, MemSource};
use nv_serve::{Status, run};
use std::alloc::Global;
use std::process::Abort;

// Asserts that the script is answered so, read by 4,000 bytes at a time.
fn assert_answered(script: Vec<u8>, expected: &str, alloc: Global, rt: &impl Abort) {
    let mut source = MemSource::new(script, 4000, Vec::new(alloc));
    let mut sink = MemSink::new(alloc, 1024, 64, Vec::new(alloc)).expect(rt, "memory");
    let status = run(alloc, &[], &mut source, &mut sink);
    assert!(rt; sink.as_slice() == expected.as_bytes());
    let refused = expected.starts_with("refused");
    assert!(rt; (status == Status::SomeRefused) == refused);
}

// A line of these bytes, so many times, and a command after it, whose line ends with CR LF.
fn script_of(bytes: &[u8], times: usize, alloc: Global, rt: &impl Abort) -> Vec<u8> {
    let mut script = Vec::new(alloc);
    for _ in 0..times {
        script.extend_from_slice(bytes).expect(rt, "memory");
    }
    script
        .extend_from_slice(b"\nls-add sw0\r\n")
        .expect(rt, "memory");
    script
}

#[test]
fn a_line_has_at_most_65536_bytes(rt: HostRuntime) {
    let long = script_of(b"#", 65_536, rt.alloc(), &rt);
    assert_answered(long, "ok\n", rt.alloc(), &rt);
    for (bytes, times) in [
        (b"#".as_slice(), 65_537),
        (b" ", 65_537),
        (b"\xff ", 70_000),
    ] {
        let longer = script_of(bytes, times, rt.alloc(), &rt);
        assert_answered(longer, "refused E02 LineTooLong\nok\n", rt.alloc(), &rt);
    }
}

#[test]
fn a_line_is_utf8(rt: HostRuntime) {
    let character = "\u{20ac}".as_bytes();
    // A comment with a character of three bytes, whole and without one of them.
    for missing in 0..4 {
        let mut line = Vec::from_slice(rt.alloc(), b"# ").expect(&rt, "memory");
        for (place, byte) in character.iter().enumerate() {
            if place != missing {
                line.push(*byte).expect(&rt, "memory");
            }
        }
        let reply = if missing < 3 {
            "refused E01 NotUtf8\nok\n"
        } else {
            "ok\n"
        };
        assert_answered(script_of(&line, 1, rt.alloc(), &rt), reply, rt.alloc(), &rt);
    }
}
