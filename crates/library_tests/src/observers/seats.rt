//! How many observers there are.
use crate::observers::shows::shows;
use crate::observers::trials::{Trial, is_shown};
use probe::{NoSeat, Observer, Publisher, TickEnd};
use std::alloc::Global;
use std::sync::Wait;

// Takes all seats.
fn all_seats(alloc: Global, publisher: &mut Publisher) -> Option<Vec<Observer>> {
    let mut observers = Vec::new(alloc);
    for _ in 0..8 {
        observers.push(publisher.observer().ok()?).ok()?;
    }
    Some(observers)
}

// Whether each of the observers shows the first tick.
fn all_show(observers: &mut [Observer]) -> bool {
    let mut all = true;
    for observer in observers.iter_mut() {
        all = shows(observer, 1, 1) && all;
    }
    all
}

/// Whether eight have seats and the ninth has none, the eight show a tick, and a seat that was left is given again.
pub(crate) fn eight_look<R: Wait>(
    rt: &R,
    alloc: Global,
    publisher: &mut Publisher,
    end: &TickEnd,
) -> bool {
    let published = publisher.publish(rt, end.again()).is_ok();
    let Some(mut observers) = all_seats(alloc, publisher) else {
        return false;
    };
    let refused = publisher.observer().is_err();
    let shown = all_show(observers.as_mut_slice());
    drop(observers.pop());
    published && refused && shown && publisher.observer().is_ok()
}

#[test]
fn eight_have_seats(rt: HostRuntime) {
    assert!(rt; is_shown(&rt, rt.alloc(), Trial::Seats));
}

// Whether the refusal of a seat prints so.
fn is_told(alloc: Global, wanted: &str) -> bool {
    match format!(in alloc; "{}", NoSeat) {
        Ok(text) => text.as_str() == wanted,
        Err(_) => false,
    }
}

#[test]
fn the_ninth_is_told_so(rt: HostRuntime) {
    assert!(rt; is_told(rt.alloc(), "E54"));
}
