//! What is told of the states that are active where a trace differs.

ghost use Rattle.std.specs.Prelude.{◌≡◌, IfOk, string_bytes};
ghost use Rattle.controller_tests.specs.States.{TellsActive, TellsThem};

use crate::command::loading::Test;
use crate::command::saying::real_text;
use crate::states_told;
use image_charts::{ChartStates, states_in};
use std::alloc::{AllocError, Global};

// What is told of these states.
#[tactic(auto, using(crate::proofs::Verdicts::tells_them, crate::proofs::Verdicts::tells_none))]
fn told_of(
    alloc: Global,
    states: &ChartStates,
    test: &Test,
    line: u64,
) -> Result<String, AllocError>
    ensures { IfOk result (λ said. TellsThem states.now test.now.image test.now.ticks.items line (string_bytes said)) }
{
    match states_told(alloc, test.image.get(), states, &test.ticks, line)? {
        Some(said) => Ok(said),
        None => Ok(String::new(alloc)),
    }
}

/// The paths of those states that the author of the text of this name wrote which are active where the tick of the line
/// of this number ends, a line for each. A text without states says nothing.
#[tactic(auto, using(crate::proofs::Verdicts::tells_chart, crate::proofs::Verdicts::no_chart, crate::proofs::Verdicts::no_states))]
pub(crate) fn active_said(
    alloc: Global,
    name: &str,
    test: &Test,
    line: u64,
) -> Result<String, AllocError>
    ensures { IfOk result (λ said. TellsActive name.now
        test.now.bytes.items test.now.image test.now.ticks.items line (string_bytes said)) }
{
    match states_in(alloc, name, &test.bytes, test.image.get()) {
        Ok(Some(states)) => Ok(told_of(alloc, states.get(), test, line)?),
        Ok(None) => Ok(String::new(alloc)),
        Err(fault) => {
            let _text = real_text(alloc, &fault)?;
            Ok(String::new(alloc))
        }
    }
}
