//! What workers do until there is nothing left.

use crate::gate::Gate;
use crate::of_image::OfImage;
use crate::worker::{Next, Worker};
use std::sync::Wait;
use std::thread::Scope;

// What another worker does, until what it shares is closed.
fn work<R: Wait, J: OfImage, G: Gate>(rt: &R, worker: Worker<'_, '_, J, G>) {
    let mut worker = worker;
    let mut next = Next::new();
    for _ in rt.forever() {
        next = match worker.find(rt) {
            Some(claim) => worker.serve(rt, claim, next.standing),
            None => match worker.shared.rest(rt, next.puts) {
                Some(next) => next,
                None => return,
            },
        };
    }
}

/// What the first worker does, until the tick is over.
pub(crate) fn attend<R: Wait, J: OfImage, G: Gate>(
    rt: &R,
    worker: &mut Worker<'_, '_, J, G>,
    next: Next,
) {
    let mut next = next;
    for _ in rt.forever() {
        if next.over {
            return;
        }
        next = match worker.find(rt) {
            Some(claim) => worker.serve(rt, claim, next.standing),
            None => worker.shared.rest_first(rt, next.puts),
        };
    }
}

/// Starts a worker in a thread of its own. Where none can be made nothing is lost.
pub(crate) fn start<'s, 'r: 's, 'x: 's, E: 's, R, J, G>(
    scope: &'s Scope<'s, E>,
    rt: &'s R,
    worker: Worker<'r, 'x, J, G>,
)
where
    R: Wait + Sync,
    J: OfImage + Send + Sync + 's,
    G: Gate + Sync + 's,
{
    let _ = scope.spawn(move || work(rt, worker));
}
