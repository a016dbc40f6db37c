//! An observer in a thread of its own, while ticks are published.
use crate::observers::shows::shows;
use crate::observers::trials::{Trial, is_shown};
use probe::{Observer, Publisher, TickEnd};
use std::sync::Wait;
use std::thread::{Threads, join};

const TICKS: u64 = 10_000;

const LOOKS: u64 = 1_000_000;

// Publishes the end of a tick so often. False: memory was refused.
fn publish_all<R: Wait>(rt: &R, publisher: &mut Publisher, end: &TickEnd) -> bool {
    let mut all = true;
    for _ in 0..TICKS {
        all = publisher.publish(rt, end.again()).is_ok() && all;
    }
    all
}

// Looks so often. False: it went back.
fn watch(observer: &mut Observer) -> bool {
    let mut last = 0;
    let mut rises = true;
    for _ in 0..LOOKS {
        let ticks = observer.look().ticks;
        rises = rises && last <= ticks;
        last = ticks;
    }
    rises
}

/// Whether an observer that looks while ticks are published never goes back, and ends at the last.
pub(crate) fn watched<R: Threads + Wait + Sync>(
    rt: &R,
    publisher: &mut Publisher,
    end: &TickEnd,
) -> bool {
    let Ok(mut observer) = publisher.observer() else {
        return false;
    };
    let (rises, all) = join(
        rt,
        || watch(&mut observer),
        || publish_all(rt, publisher, end),
    );
    rises && all && shows(&mut observer, TICKS, 1)
}

#[test]
fn an_observer_in_a_thread_never_goes_back(rt: HostRuntime) {
    assert!(rt; is_shown(&rt, rt.alloc(), Trial::Thread));
}
