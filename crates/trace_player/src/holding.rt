//! Output that is held back while the next line of the input is at hand.

ghost use Rattle.std.specs.Prelude.{◌≡◌, ◌≢◌, ◌++◌, [], None, true, false};
ghost use Rattle.trace_player.specs.Channels.{TakesAll, TakesPart};
ghost use Rattle.trace_player.specs.Inside.HeldBack.{Extends, sink_with};

use crate::channels::Channels;

// So many bytes are written, whatever is at hand.
const MOST_HELD: usize = 65_536;

/// Writes what is held back, and lets go of it. Whether the sink took it whole.
#[tactic(auto, using(crate::proofs::Took::nothing_taken))]
pub(crate) fn settle<P: Channels>(channels: &mut P, held: &mut Vec<u8>) -> bool
    ensures whole { result ≡ true → TakesAll (P.seen channels.old).sink (P.seen channels.new).sink held.old.items }
    ensures part { result ≡ false → TakesPart (P.seen channels.old).sink (P.seen channels.new).sink held.old.items }
    ensures held { result ≡ false → held.old.items ≢ [] }
    ensures none { held.new.items ≡ [] }
    ensures source { (P.seen channels.new).source ≡ (P.seen channels.old).source }
    ensures rows { (P.seen channels.new).rows ≡ (P.seen channels.old).rows }
    ensures same { P.names channels.new ≡ P.names channels.old }
{
    if held.is_empty() {
        return true;
    }
    let is_whole = channels.write(held.as_slice());
    held.clear();
    is_whole
}

// Puts a line of output behind what is held back. Whether there was memory for it.
fn hold(held: &mut Vec<u8>, shown: &[u8]) -> bool
    ensures kept { result ≡ true → held.new.items ≡ held.old.items ++ shown.now }
    ensures none { result ≡ false → held.new.items ≡ held.old.items }
{
    match held.extend_from_slice(shown) {
        Ok(()) => true,
        Err(_) => false,
    }
}

// Writes what is held back, and then a line of output. Whether the sink took both whole.
fn pass_on<P: Channels>(channels: &mut P, held: &mut Vec<u8>, shown: &[u8]) -> bool
    ensures whole { result ≡ true
        → TakesAll (P.seen channels.old).sink (P.seen channels.new).sink (held.old.items ++ shown.now) }
    ensures part { result ≡ false
        → TakesPart (P.seen channels.old).sink (P.seen channels.new).sink (held.old.items ++ shown.now) }
    ensures none { held.new.items ≡ [] }
    ensures source { (P.seen channels.new).source ≡ (P.seen channels.old).source }
    ensures rows { (P.seen channels.new).rows ≡ (P.seen channels.old).rows }
    ensures same { P.names channels.new ≡ P.names channels.old }
{
    if !settle(channels, held) {
        return false;
    }
    channels.write(shown)
}

/// Writes a line of output behind what is held back; or holds it back too, where `more` says that the next line of the
/// input is at hand. Whether the sink took whole what was written.
#[tactic(auto, using(crate::proofs::Took::passed_on, crate::proofs::Took::kept_back, crate::proofs::Took::took))]
pub(crate) fn write_or_hold<P: Channels>(
    channels: &mut P,
    held: &mut Vec<u8>,
    shown: &[u8],
    more: bool,
) -> bool
    ensures whole { result ≡ true → TakesAll (sink_with (P.seen channels.old).sink held.old.items)
        (sink_with (P.seen channels.new).sink held.new.items) shown.now }
    ensures grows { result ≡ true → Extends (P.seen channels.old).sink.taken (P.seen channels.new).sink.taken }
    ensures part { result ≡ false
        → TakesPart (P.seen channels.old).sink (P.seen channels.new).sink (held.old.items ++ shown.now) }
    ensures none { result ≡ false → held.new.items ≡ [] }
    ensures settled { more ≡ false → held.new.items ≡ [] }
    ensures unwatched { held.new.items ≢ [] → (P.seen channels.new).rows ≡ None }
    ensures source { (P.seen channels.new).source ≡ (P.seen channels.old).source }
    ensures rows { (P.seen channels.new).rows ≡ (P.seen channels.old).rows }
    ensures same { P.names channels.new ≡ P.names channels.old }
{
    if !hold(held, shown) {
        return pass_on(channels, held, shown);
    }
    if more && held.len() < MOST_HELD && channels.may_hold() {
        return true;
    }
    settle(channels, held)
}
