//! How much work there is, and whether it is worth a worker that has to be woken for it.

use crate::gate::Gate;
use tick_core::Claim;

/// How many operations are worth a worker that has to be woken, where no step waits for another.
pub(crate) const SHARE: u64 = 256;

// How many operations a step has to have at the gate where its round is to be shared, and no step waits for another: to
// claim, put and commit a step that is shared costs as much as a hundred, which no code has.
const LONG: u64 = 128;

/// Whether there are rounds that are worth sharing: a step may wait for another one at the gate, or takes long there.
pub(crate) fn may_share<G: Gate>(gate: &G) -> bool {
    gate.waits() || gate.work() >= LONG
}

/// Whether a round of so many threads is one. It depends on nothing that changes from tick to tick but their number:
/// where a thread stands says little of what it has to do in the round, as behind a pause its first step is none.
pub(crate) fn is_worth<G: Gate>(threads: usize, gate: &G) -> bool {
    threads > 1 && (gate.waits() || gate.work().saturating_mul(threads as u64) >= 2 * SHARE)
}

/// The work of a claim: the operations that are evaluated for it, one for its step, and what it has at the gate.
pub(crate) fn work_of<G: Gate>(claim: &Claim<'_>, gate: &G) -> u64 {
    match claim.code() {
        Some(code) => gate
            .work()
            .saturating_add(code.code().operations().len() as u64)
            .saturating_add(1),
        None => gate.work().saturating_add(1),
    }
}
