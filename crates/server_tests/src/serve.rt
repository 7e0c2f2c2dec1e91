use nv_io::{CleanSource, MemSink, MemSource, NullSink, Sink, StdSource};
use nv_serve::{Status, run};
use std::alloc::Global;
use std::io::{self, ErrorKind, Read};
use std::process::Abort;

// What `ls-add sw0` and `lflow-list` are answered.
const ADDED_AND_LISTED: &str = "ok
Datapath: sw0  Pipeline: ingress
  table=0 (ls_in_check_port_sec), priority=100, hint=0, match=(eth.src[40]), action=(drop;)
  table=0 (ls_in_check_port_sec), priority=0, hint=0, match=(1), action=(next;)
  table=1 (ls_in_pre_acl), priority=0, hint=0, match=(1), action=(next;)
  table=2 (ls_in_pre_stateful), priority=0, hint=0, match=(1), action=(next;)
  table=3 (ls_in_acl_eval), priority=0, hint=0, match=(1), action=(next;)
  table=4 (ls_in_lb), priority=0, hint=0, match=(1), action=(next;)
  table=5 (ls_in_stateful), priority=0, hint=0, match=(1), action=(next;)
  table=6 (ls_in_arp_rsp), priority=0, hint=0, match=(1), action=(next;)
  table=7 (ls_in_l2_lkup), priority=100, hint=0, match=(eth.mcast), action=(outport = \"_MC_flood\"; output;)
  table=7 (ls_in_l2_lkup), priority=0, hint=0, match=(1), action=(next;)
  table=8 (ls_in_l2_unknown), priority=0, hint=0, match=(1), action=(drop;)
Datapath: sw0  Pipeline: egress
  table=0 (ls_out_pre_acl), priority=0, hint=0, match=(1), action=(next;)
  table=1 (ls_out_pre_stateful), priority=0, hint=0, match=(1), action=(next;)
  table=2 (ls_out_acl_eval), priority=0, hint=0, match=(1), action=(next;)
  table=3 (ls_out_stateful), priority=0, hint=0, match=(1), action=(next;)
  table=4 (ls_out_check_port_sec), priority=100, hint=0, match=(eth.mcast), action=(output;)
  table=4 (ls_out_check_port_sec), priority=0, hint=0, match=(1), action=(output;)
ok
";

// What a run with a generated network writes whose script is `dump`, and one whose script adds a switch that is there.
const GENERATED_AND_DUMPED: &str = "generated switches=1 ports=1 rows=53
# nb-dump 1
lr-add gr
ls-add g0
lrp-add gr r0 02:01:00:00:00:00 10.1.0.1/24
lsp-add g0 s0
lsp-set-type s0 router
lsp-set-options s0 router-port=r0
lsp-set-addresses s0 router
acl-add g0 to-lport 1000 'ip4 && tcp.dst == 22' drop
lsp-add g0 p0
lsp-set-addresses p0 '02:00:00:00:00:00 10.1.0.2'
ok
";

const GENERATED_AND_REFUSED: &str = "generated switches=2 ports=101 rows=484
refused E10 Exists g1
";

// Room for the output of any script here.
const ROOM: usize = 8192;

// A sink with room for so many bytes, which takes nine at a time.
fn sink_of(room: usize, failing_puts: &[u64], alloc: Global, rt: &impl Abort) -> MemSink {
    let failing = Vec::from_slice(alloc, failing_puts).expect(rt, "memory");
    MemSink::new(alloc, room, 9, failing).expect(rt, "memory")
}

// A source of the script, which gives nine bytes at a time.
fn source_of(script: &str, failing_takes: &[u64], alloc: Global, rt: &impl Abort) -> MemSource {
    let failing = Vec::from_slice(alloc, failing_takes).expect(rt, "memory");
    let script = Vec::from_slice(alloc, script.as_bytes()).expect(rt, "memory");
    MemSource::new(script, 9, failing)
}

// How the run of three new switches ends, whose names are given by one take each.
fn adds_three<K: Sink>(
    failing_takes: &[u64],
    sink: &mut K,
    alloc: Global,
    rt: &impl Abort,
) -> (Status, u64) {
    let mut source = source_of("ls-add a\nls-add b\nls-add c\n", failing_takes, alloc, rt);
    let status = run(alloc, &[], &mut source, sink);
    (status, source.takes())
}

fn texts(words: &[&str], alloc: Global, rt: &impl Abort) -> Vec<String> {
    let mut texts = Vec::new(alloc);
    for word in words {
        let text = String::from_str(alloc, word).expect(rt, "memory");
        texts.push(text).expect(rt, "memory");
    }
    texts
}

// A reader whose second read fails, and whose other reads give a command each.
#[derive(Drop)]
struct FailsOnce {
    reads: u64,
}

impl Read for FailsOnce {
    fn read(&mut self, buf: &mut [u8]) -> io::Result<usize> {
        self.reads = self.reads.saturating_add(1);
        let command = b"ls-add a\n";
        if self.reads == 2 || buf.len() < command.len() {
            return Err(io::Error::from(ErrorKind::BrokenPipe));
        }
        buf[..command.len()].copy_from_slice(command);
        Ok(command.len())
    }
}

#[test]
fn no_input_is_no_output(rt: HostRuntime) {
    let arguments = texts(&["ovn_nd"], rt.alloc(), &rt);
    let mut source = CleanSource::new(Vec::new(rt.alloc()), 9);
    let mut sink = NullSink::new();
    let status = run(rt.alloc(), &arguments, &mut source, &mut sink);
    assert!(rt; status == Status::Done);
    assert!(rt; (sink.len(), sink.puts()) == (0, 0));
}

#[test]
fn arguments_are_refused(rt: HostRuntime) {
    let arguments = texts(&["ovn_nd", "--hops", "0"], rt.alloc(), &rt);
    let mut source = source_of("ls-add a\n", &[], rt.alloc(), &rt);
    // Where there is room for six bytes, the put after them is the last.
    for (room, expected, written) in [
        (
            ROOM,
            Status::Usage,
            "usage: ovn_nd [--hops N] [--generate N]\n",
        ),
        (6, Status::WriteFault, "usage:"),
    ] {
        let mut sink = sink_of(room, &[], rt.alloc(), &rt);
        let status = run(rt.alloc(), &arguments, &mut source, &mut sink);
        assert!(rt; (status, source.takes()) == (expected, 0));
        assert!(rt; sink.as_slice() == written.as_bytes());
    }
}

#[test]
fn a_run_begins_with_a_generated_network(rt: HostRuntime) {
    for (ports, script, expected, written) in [
        ("1", "dump\n", Status::Done, GENERATED_AND_DUMPED),
        (
            "101",
            "ls-add g1\n",
            Status::SomeRefused,
            GENERATED_AND_REFUSED,
        ),
    ] {
        let arguments = texts(&["ovn_nd", "--generate", ports], rt.alloc(), &rt);
        let mut source = source_of(script, &[], rt.alloc(), &rt);
        let mut sink = sink_of(ROOM, &[], rt.alloc(), &rt);
        let status = run(rt.alloc(), &arguments, &mut source, &mut sink);
        assert!(rt; status == expected);
        assert!(rt; sink.as_slice() == written.as_bytes());
    }
}

#[test]
fn a_fault_ends_the_run(rt: HostRuntime) {
    // The third take fails: the first two lines are answered, and there is no fourth take.
    let mut sink = sink_of(ROOM, &[], rt.alloc(), &rt);
    assert!(rt; adds_three(&[3], &mut sink, rt.alloc(), &rt) == (Status::ReadFault, 3));
    assert!(rt; sink.as_slice() == b"ok\nok\n".as_slice());

    // The first put fails: there is no second, and no second take.
    let mut sink = sink_of(ROOM, &[1], rt.alloc(), &rt);
    assert!(rt; adds_three(&[], &mut sink, rt.alloc(), &rt) == (Status::WriteFault, 1));
    assert!(rt; (sink.as_slice().len(), sink.puts()) == (0, 1));

    // There is room for four bytes: the put after them is the last.
    let mut sink = sink_of(4, &[], rt.alloc(), &rt);
    assert!(rt; adds_three(&[], &mut sink, rt.alloc(), &rt) == (Status::WriteFault, 2));
    assert!(rt; sink.as_slice() == b"ok\no".as_slice());
    assert!(rt; sink.puts() == 3);
}

#[test]
fn nothing_is_read_after_a_failed_read(rt: HostRuntime) {
    let mut source = StdSource::new(FailsOnce { reads: 0 });
    let mut sink = sink_of(ROOM, &[], rt.alloc(), &rt);
    let status = run(rt.alloc(), &[], &mut source, &mut sink);
    assert!(rt; status == Status::ReadFault);
    assert!(rt; (source.takes(), source.faults()) == (2, 1));
    assert!(rt; source.into_inner().reads == 2);
    assert!(rt; sink.as_slice() == b"ok\n".as_slice());
}

#[test]
fn without_memory_the_output_is_cut_off(rt: HostRuntime) {
    assert!(rt; Status::OutOfMemory.code() == 6);
    let Ok(mut sink) = MemSink::new(rt.alloc(), ROOM, 64, Vec::new(rt.alloc())) else {
        // The sink itself got no memory, so nothing ran.
        return;
    };
    let mut source = StdSource::new(b"ls-add sw0\nlflow-list".as_slice());
    let status = run(rt.alloc(), &[], &mut source, &mut sink);
    let written = sink.as_slice();
    if status == Status::Done {
        assert!(rt; written == ADDED_AND_LISTED.as_bytes());
    } else {
        assert!(rt; status == Status::OutOfMemory);
        assert!(rt; ADDED_AND_LISTED.as_bytes().starts_with(written));
    }
}
