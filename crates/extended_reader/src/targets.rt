//! What transitions lead to.

ghost use Rattle.std.specs.Prelude.{◌≡◌};
ghost use Rattle.chart_reader.specs.Flaws.{state_names};
ghost use Rattle.extended_reader.specs.Resolved.{target_of};

use chart_reader::StateScope;
use sc_values::Name;

/// What leads to the state of this name, or to the first one where there is none; or there by its history.
#[tactic(auto, using(crate::proofs::Looking::as_many_names))]
pub(crate) fn target(scope: &StateScope, by_history: bool, name: Name) -> u32
    ensures { result ≡ target_of (state_names scope.now.states.now) by_history name }
{
    let number = scope.number(name);
    if by_history {
        scope.states.len() as u32 + number
    } else {
        number
    }
}
