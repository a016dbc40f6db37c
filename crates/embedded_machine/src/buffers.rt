//! Buffers of a caller's.

ghost use Rattle.std.specs.Prelude.{◌≡◌, ◌↔◌, ◌<◌, ◌≤◌, ℕ, IsTrue, MatchBool, get_or, length, take};
ghost use Rattle.embedded_machine.specs.Buffers.{BeginsAs};

/// Puts bytes at the beginning of a buffer. Whether there is room for them; else nothing has changed.
pub fn put_bytes(from: &[u8], into: &mut [u8]) -> bool
    ensures put { MatchBool result (take (length from.now) into.new ≡ from.now) (into.new ≡ into.old) }
    ensures room { IsTrue result ↔ (length from.now ≤ length into.old) }
{
    if from.len() > into.len() {
        return false;
    }
    put_all(from, into);
    true
}

/// Puts bytes at the beginning of a buffer, which has room for them.
pub(crate) fn put_all(from: &[u8], into: &mut [u8])
    requires { length from.now ≤ length into.old }
    ensures { take (length from.now) into.new ≡ from.now }
{
    for at in 0..from.len() {
        into[at] = from[at];
    }
}

/// Puts as many of these bytes at the beginning of a buffer as have room there.
pub fn put_beginning(from: &[u8], into: &mut [u8])
    ensures length { length into.new ≡ length into.old }
    ensures begins { BeginsAs from.now into.new }
{
    for at in 0..into.len() {
        if at < from.len() {
            into[at] = from[at];
        }
    }
}
