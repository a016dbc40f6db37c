//! What an observer sees before and after ticks, with and without a note, and after the end.
ghost use Rattle.std.specs.Prelude.{◌≡◌};

use crate::observers::shows::shows;
use crate::observers::trials::{Trial, is_shown, shows_after_the_end};
use probe::{Observer, Publisher, TickEnd};
use std::sync::Wait;

// Whether an observer shows the opening values, and after a tick and its note that tick.
fn shows_told<R: Wait>(
    rt: &R,
    publisher: &mut Publisher,
    observer: &mut Observer,
    end: &TickEnd,
) -> bool
    requires { observer.old.publisher ≡ publisher.old.publisher }
{
    let opening = shows(observer, 0, 0);
    let published = publisher.publish(rt, end.again()).is_ok();
    observer.learn(publisher.tell());
    opening && published && shows(observer, 1, 1)
}

/// The same of an observer that learns the note, and then a second one, that learnt nothing, shows that tick.
pub(crate) fn notes_show<R: Wait>(rt: &R, publisher: &mut Publisher, end: &TickEnd) -> bool {
    let Ok(mut second) = publisher.observer() else {
        return false;
    };
    let Ok(mut first) = publisher.observer() else {
        return false;
    };
    shows_told(rt, publisher, &mut first, end) && shows(&mut second, 1, 1)
}

/// Two observers, of which the first alone has looked at the published tick.
pub(crate) fn looked_once<R: Wait>(
    rt: &R,
    publisher: &mut Publisher,
    end: &TickEnd,
) -> Option<(Observer, Observer)> {
    publisher.publish(rt, end.again()).ok()?;
    let mut first = publisher.observer().ok()?;
    first.look();
    let second = publisher.observer().ok()?;
    Some((first, second))
}

#[test]
fn a_tick_is_seen_with_and_without_its_note(rt: HostRuntime) {
    assert!(rt; is_shown(&rt, rt.alloc(), Trial::Notes));
}

#[test]
fn after_the_end_each_shows_what_it_has(rt: HostRuntime) {
    assert!(rt; shows_after_the_end(&rt, rt.alloc()));
}
