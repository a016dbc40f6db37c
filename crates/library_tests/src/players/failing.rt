//! Sources and sinks that fail at their kth call, for each k.
use crate::players::observed::{Wanted, tries};
use sc_values::Plan;
use std::alloc::Global;
use std::sync::Wait;
use std::thread::Threads;
use trace_player::PlayFault;

// The trace of the two lines. It is written in eight pieces, four for each line.
const BOTH: &str = "{\"out\":{\"O\":false},\"steps\":7,\"tick\":1}
{\"out\":{\"O\":false},\"steps\":11,\"tick\":2}
";

// Whether just so many bytes are written and so many ticks are seen of two lines, and they end so.
fn leaves<R: Threads + Wait + Sync>(
    rt: &R,
    alloc: Global,
    (reads, writes): (Plan, Plan),
    (written, ticks, end): (usize, u64, Result<u64, PlayFault>),
) -> bool {
    let Some(trace) = BOTH.as_bytes().get(..written) else {
        return false;
    };
    let wanted = Wanted {
        input: "{}\n{\"A\":true}\n",
        reads,
        writes,
        trace,
        end,
        ticks,
        value: false,
    };
    tries(rt, alloc, wanted)
}

#[test]
fn each_failing_read_leaves_whole_ticks(rt: HostRuntime) {
    // three bytes a read: the first and the fifth end a line, and the sixth finds the end
    for (reads, left) in [
        (0, (0, 0, Err(PlayFault::Read))),
        (1, (39, 1, Err(PlayFault::Read))),
        (2, (39, 1, Err(PlayFault::Read))),
        (3, (39, 1, Err(PlayFault::Read))),
        (4, (39, 1, Err(PlayFault::Read))),
        (5, (79, 2, Err(PlayFault::Read))),
        (6, (79, 2, Ok(2))),
    ] {
        assert!(rt; leaves(&rt, rt.alloc(), (Plan::After(reads), Plan::Never), left));
    }
}

#[test]
fn each_failing_write_leaves_a_beginning(rt: HostRuntime) {
    // the end of a tick is published before the first piece of its line is written
    for (writes, left) in [
        (0, (0, 1, Err(PlayFault::Write))),
        (1, (10, 1, Err(PlayFault::Write))),
        (2, (20, 1, Err(PlayFault::Write))),
        (3, (30, 1, Err(PlayFault::Write))),
        (4, (39, 2, Err(PlayFault::Write))),
        (5, (49, 2, Err(PlayFault::Write))),
        (6, (59, 2, Err(PlayFault::Write))),
        (7, (69, 2, Err(PlayFault::Write))),
        (8, (79, 2, Ok(2))),
    ] {
        assert!(rt; leaves(&rt, rt.alloc(), (Plan::Never, Plan::After(writes)), left));
    }
}
