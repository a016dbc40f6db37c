//! The workers of a trace, who are kept until it ends.

ghost use Rattle.std.specs.Prelude.{◌≡◌, ◌≤◌};
ghost use Rattle.trace_player.specs.Inside.Playing.{CameTo};

use crate::channels::Channels;
use crate::player::PlayFault;
use crate::session::Session;
use crate::turns::play_lines;
use std::alloc::Global;
use std::sync::Wait;
use std::thread;
use std::thread::{Scope, Threads};
use verifier::Verified;
use worker_pool::{Gate, OfImage, Shared, Team};

/// Starts what so many workers share, who are kept until the trace ends, and plays the lines of an input.
pub(crate) fn host<'x, J, R, G, P>(
    rt: &R,
    alloc: Global,
    verified: &'x Verified,
    workers: u8,
    gate: &'x G,
    channels: &mut P,
) -> Result<u64, PlayFault>
where
    J: OfImage + Send + Sync,
    R: Threads + Wait + Sync,
    G: Gate + Sync,
    P: Channels,
    requires image { verified.now ≡ J.image }
    requires workers { workers ≤ 8 }
    ensures came { CameTo J.image (P.seen channels.old) (P.seen channels.new) result }
    ensures same { P.names channels.new ≡ P.names channels.old }
{
    let (shared, passes) = Shared::<'x, J, G>::open(alloc, verified, gate)?;
    let Some(team) = Team::of(&shared, passes, workers) else {
        return Err(PlayFault::Memory);
    };
    let work = TraceWork {
        alloc,
        verified,
        team,
    };
    let (result, _) = meet(rt, work, channels);
    result
}

// A team, and the image on whose ticks it is to work.
#[derive(Drop)]
struct TraceWork<'r, 'x, J: OfImage, G: Gate> {
    alloc: Global,
    verified: &'x Verified,
    team: Team<'r, 'x, J, G>,
    ghost of_image: { verified.now ≡ J.image },
}

// Plays the lines, and waits for all workers.
fn meet<'r, 'x, 'p, J, R, G, P>(
    rt: &R,
    work: TraceWork<'r, 'x, J, G>,
    channels: &'p mut P,
) -> (Result<u64, PlayFault>, &'p mut P)
where
    J: OfImage + Send + Sync,
    R: Threads + Wait + Sync,
    G: Gate + Sync,
    P: Channels,
    ensures name { result.1.ghost_name ≡ channels.entry.ghost_name }
    ensures came { CameTo J.image (P.seen channels.entry.now) (P.seen result.1.now) result.0 }
    ensures same { P.names result.1.now ≡ P.names channels.entry.now }
{
    thread::scope(
        thread::scope_env(),
        rt,
        move |scope| -> (Result<u64, PlayFault>, &mut P)
            ensures name { result.1.ghost_name ≡ channels.entry.ghost_name }
            ensures came { CameTo J.image (P.seen channels.entry.now) (P.seen result.1.now) result.0 }
            ensures same { P.names result.1.now ≡ P.names channels.entry.now }
        {
            let result = meet_in(rt, scope, work, channels);
            (result, channels)
        },
    )
}

fn meet_in<'s, 'r: 's, 'x: 's, E: 's, J, R, G, P>(
    rt: &'s R,
    scope: &'s Scope<'s, E>,
    work: TraceWork<'r, 'x, J, G>,
    channels: &mut P,
) -> Result<u64, PlayFault>
where
    J: OfImage + Send + Sync + 's,
    R: Wait + Sync,
    G: Gate + Sync + 's,
    P: Channels,
    ensures came { CameTo J.image (P.seen channels.old) (P.seen channels.new) result }
    ensures same { P.names channels.new ≡ P.names channels.old }
{
    let TraceWork {
        alloc,
        verified,
        team,
    } = work;
    let session = Session {
        rt,
        scope,
        alloc,
        verified,
        team,
        last: None,
    };
    play_lines(session, channels)
}
