//! A session: an image that is stepped by hand.

ghost use Rattle.std.specs.Prelude.{◌≡◌, IfOk, OnOk, OnErr};
ghost use Rattle.std.specs.Result.{IsErrOf};
ghost use Rattle.trace_player.specs.Trace.{GivesNoInputs, IsNoObject};
ghost use Rattle.simulation.specs.History.{IsHistory, Plays, begun, begun_anew, present, undone};

use crate::history::{Played, behind, push};
use crate::reacting::react;
use std::alloc::{AllocError, Global};
use std::marker::Model;
use tick_core::Control;
use trace_lines::{Interface, LineFault};
use verifier::Verified;

/// An image that is stepped by hand. Contracts see the image and the ticks that were played, which are a history: each
/// led from where the one before it had ended.
#[derive(Drop)]
pub struct Session<'x> {
    verified: &'x Verified,
    interface: Interface<'x>,
    first: Control,
    ticks: Vec<Played>,
}

impl<'x> Model for Session<'x> {
    ghost use Rattle.std.specs.Prelude.{◌≡◌};
    ghost use Rattle.sc_graph.specs.Tick.{Rests, initial};
    ghost use Rattle.simulation.specs.History.{History, IsHistory};

    ghost Value = { History };

    ghost view = { λ s. record { image = s.verified.now; ticks = s.ticks.items } };

    ghost invariant = { λ s. IsHistory s.verified.now s.ticks.items × (s.interface ≡ s.verified.now.program.variables)
        × (s.first ≡ initial s.verified.now.program) × Rests s.verified.now.program s.first };
}

impl<'x> Session<'x> {
    /// Before the first tick.
    pub fn new(alloc: Global, verified: &'x Verified) -> Result<Session<'x>, AllocError>
        ensures { IfOk result (λ s. s ≡ begun verified.now) }
    {
        let program = verified.image().program();
        let first = Control::initial(alloc, program)?;
        match Interface::of(alloc, program.variables()) {
            Ok(interface) => Ok(Session {
                verified,
                interface,
                first,
                ticks: Vec::new(alloc),
            }),
            Err(error) => {
                drop(first);
                Err(error)
            }
        }
    }

    /// The present configuration.
    pub fn control(&self) -> &Control
        ensures here { result.now ≡ present self.now }
        ensures history { IsHistory self.now.image self.now.ticks }
    {
        behind(&self.first, &self.ticks)
    }

    /// The configuration before the last tick; the present one, where there is none.
    pub(crate) fn before(&self) -> &Control {
        let last = self.ticks.len().saturating_sub(1);
        behind(&self.first, &self.ticks[..last])
    }

    /// The ticks that were played.
    pub fn ticks(&self) -> &[Played]
        ensures { result.now ≡ self.now.ticks }
    {
        &self.ticks
    }

    /// The image.
    pub fn image(&self) -> &'x Verified
        ensures { result.now ≡ self.now.image }
    {
        self.verified
    }

    /// Plays the tick of a line, which stands behind the others then. Err: the line gives no inputs, or memory was
    /// refused, and nothing has changed.
    #[tactic(auto, using(crate::proofs::Histories::one_more, crate::proofs::Histories::rest_behind))]
    pub fn tick(&mut self, alloc: Global, line: &[u8]) -> Result<(), LineFault>
        ensures plays { OnOk result (Plays self.old self.new line.now) }
        ensures kept { OnErr result (self.new ≡ self.old) }
        ensures not_json { IsErrOf result LineFault.NotJson → IsNoObject line.now }
        ensures input { IsErrOf result LineFault.Input → GivesNoInputs self.old.image.program line.now }
    {
        let control = react(
            alloc,
            self.verified,
            &self.interface,
            behind(&self.first, &self.ticks),
            line,
        )?;
        push(alloc, &mut self.ticks, line, control)?;
        Ok(())
    }

    /// Takes the last tick back. Before the first tick nothing changes.
    #[tactic(auto, using(crate::proofs::Histories::first_ones))]
    pub fn undo(&mut self)
        ensures { self.new ≡ undone self.old }
    {
        self.ticks.truncate(self.ticks.len().saturating_sub(1));
    }

    /// Takes all ticks back.
    pub fn reset(&mut self)
        ensures { self.new ≡ begun_anew self.old }
    {
        self.ticks.clear();
    }
}
