//! What is tried with a publisher, over the image of `fork { x = 1; } par { y = x; } join;`.
use crate::observers::looks::{looked_once, notes_show};
use crate::observers::seats::eight_look;
use crate::observers::shows::{end_with, shows};
use crate::observers::threads::watched;
use crate::samples::{WRITE_AND_READ, valid};
use probe::{Observer, Publisher, TickEnd};
use std::alloc::Global;
use std::sync::Wait;
use std::thread::Threads;
use verifier::Verified;

#[derive(Clone, Copy)]
pub(crate) enum Trial {
    Notes,
    Seats,
    Thread,
}

// Whether it shows what it has to.
fn tried<R: Threads + Wait + Sync>(
    rt: &R,
    alloc: Global,
    publisher: &mut Publisher,
    end: &TickEnd,
    trial: Trial,
) -> bool {
    match trial {
        Trial::Notes => notes_show(rt, publisher, end),
        Trial::Seats => eight_look(rt, alloc, publisher, end),
        Trial::Thread => watched(rt, publisher, end),
    }
}

// The same, with a publisher of its own, that is closed behind it.
fn tried_over<R: Threads + Wait + Sync>(
    rt: &R,
    alloc: Global,
    image: &Verified,
    trial: Trial,
) -> bool {
    let Some(end) = end_with(alloc, image, &[1, 1]) else {
        return false;
    };
    let Ok(mut publisher) = Publisher::open(rt, alloc, image) else {
        return false;
    };
    let shown = tried(rt, alloc, &mut publisher, &end, trial);
    publisher.close(rt);
    shown
}

/// Whether it shows what it has to.
pub(crate) fn is_shown<R: Threads + Wait + Sync>(rt: &R, alloc: Global, trial: Trial) -> bool {
    match valid(alloc, &WRITE_AND_READ) {
        Some(image) => tried_over(rt, alloc, image.get(), trial),
        None => false,
    }
}

// Two observers of a publisher that is closed, of which the first alone has looked at its tick.
fn left_behind<R: Wait>(rt: &R, alloc: Global, image: &Verified) -> Option<(Observer, Observer)> {
    let end = end_with(alloc, image, &[1, 1])?;
    let mut publisher = Publisher::open(rt, alloc, image).ok()?;
    let observers = looked_once(rt, &mut publisher, &end);
    publisher.close(rt);
    observers
}

// Whether the first shows the tick, and the second the opening values.
fn each_has_its_own(observers: Option<(Observer, Observer)>) -> bool {
    match observers {
        Some((mut first, mut second)) => shows(&mut first, 1, 1) && shows(&mut second, 0, 0),
        None => false,
    }
}

/// Whether after the end each shows what it has.
pub(crate) fn shows_after_the_end<R: Wait>(rt: &R, alloc: Global) -> bool {
    match valid(alloc, &WRITE_AND_READ) {
        Some(image) => each_has_its_own(left_behind(rt, alloc, image.get())),
        None => false,
    }
}
