//! The variables that transitions name.

ghost use Rattle.std.specs.Prelude.{◌≡◌};
ghost use Rattle.std.specs.List.{flat_map};
ghost use Rattle.chart_warnings.specs.Inside.Marks.{all_by, by_effect, by_transition, by_trigger, marked};

use crate::marks::mark;
use crate::reads::{is_rest, mark_reads};
use core_charts::{Effect, Transition};
use sc_values::Expr;

/// In which way a transition names a variable.
#[derive(Clone, Copy, PartialEq, Eq)]
pub enum Mention {
    /// It needs its value, in its trigger or for another variable.
    Asked,
    /// It sets it.
    Set,
    /// It sets it to something else than `false` or 0.
    Switched,
    /// It computes it from its own value.
    Counted,
}

/// Marks the variables that these transitions name in this way.
#[tactic(auto, using(crate::proofs::Marking::marked_append))]
pub(crate) fn mark_transitions(way: Mention, transitions: &[Transition], marks: &mut Vec<bool>)
    ensures { marks.new.items ≡ marked (all_by way transitions.now) marks.old.items }
{
    for transition in transitions {
        mark_transition(way, transition, marks);
    }
}

/// Marks the variables that a transition names in this way.
#[tactic(auto, using(crate::proofs::Marking::marked_append))]
pub(crate) fn mark_transition(way: Mention, transition: &Transition, marks: &mut Vec<bool>)
    ensures { marks.new.items ≡ marked (by_transition way transition.now) marks.old.items }
{
    mark_trigger(way, &transition.trigger, marks);
    mark_effects(way, transition.effects.as_slice(), marks);
}

#[tactic(auto, using(crate::proofs::Marking::all_read))]
fn mark_trigger(way: Mention, trigger: &Option<Expr>, marks: &mut Vec<bool>)
    ensures { marks.new.items ≡ marked (by_trigger way trigger.now) marks.old.items }
{
    match way {
        Mention::Asked => match trigger {
            Some(condition) => mark_reads(condition, None, marks),
            None => {}
        },
        _ => {}
    }
}

#[tactic(auto, using(crate::proofs::Marking::marked_append))]
fn mark_effects(way: Mention, effects: &[Effect], marks: &mut Vec<bool>)
    ensures { marks.new.items ≡ marked (flat_map (by_effect way) effects.now) marks.old.items }
{
    for effect in effects {
        mark_effect(way, effect, marks);
    }
}

#[tactic(auto, using(crate::proofs::Marking::others_read))]
fn mark_effect(way: Mention, effect: &Effect, marks: &mut Vec<bool>)
    ensures { marks.new.items ≡ marked (by_effect way effect.now) marks.old.items }
{
    let variable = effect.variable;
    match way {
        Mention::Asked => mark_reads(&effect.value, Some(variable), marks),
        Mention::Set => mark(marks, variable as usize),
        Mention::Switched => {
            if !is_rest(&effect.value) {
                mark(marks, variable as usize);
            }
        }
        Mention::Counted => {
            if effect.value.reads(variable) {
                mark(marks, variable as usize);
            }
        }
    }
}
