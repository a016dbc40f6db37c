//! Warnings of transitions.

ghost use Rattle.std.specs.Prelude.{◌≡◌, ◌++◌, IfOk, OnOk, length, slice_get};
ghost use Rattle.core_charts.specs.declared.region.Region.TheViews.{out-State};
ghost use Rattle.core_charts.specs.declared.region.TransitionKind.TheVariants as kind;
ghost use Rattle.chart_warnings.specs.Names.{within};
ghost use Rattle.chart_warnings.specs.Warnings.{comes_with, ends, is_output, of_kind, of_outputs, of_regions};
ghost use Rattle.chart_warnings.specs.Warnings.{of_transitions};
ghost use Rattle.chart_warnings.specs.Inside.Marks.{Tells, all_by, marked};
ghost use Rattle.chart_warnings.specs.declared.names.Mention.TheVariants as way;

use crate::forestalling::is_forestalled;
use crate::inside::{mark_target, named_within};
use crate::marks::{is_marked, unmarked};
use crate::names::{Mention, mark_transition};
use crate::warning::{Warning, warn_where};
use core_charts::{Region, State, Transition, TransitionKind};
use sc_graph::{Role, Variable};
use sqlite_items::Items;
use std::alloc::{AllocError, Global};

/// Where a state's transitions stand: the chart's variables, the states of the region, and the state with its number.
#[derive(Clone, Copy)]
pub(crate) struct StateContext<'a> {
    pub(crate) variables: &'a [Variable],
    pub(crate) states: &'a [State],
    pub(crate) state: &'a State,
    pub(crate) number: usize,
}

// What the inside of a superstate does with each variable.
#[derive(Drop)]
struct Inside {
    // sets it to something else than `false` or 0
    switched: Vec<bool>,
    // computes it from its own value
    counted: Vec<bool>,
}

impl<'a> StateContext<'a> {
    /// The warnings of the state's transitions come behind others.
    pub(crate) fn warn_of_transitions(
        self,
        alloc: Global,
        warnings: &mut Items<Warning>,
    ) -> Result<(), AllocError>
        ensures { OnOk result (warnings.new ≡ warnings.old ++ of_transitions self.entry.variables.now
            self.entry.states.now self.entry.number 0 self.entry.state.now
            (out-State self.entry.state.now).transitions) }
    {
        let inside = self.inside(alloc)?;
        for (place, transition) in self.state.transitions.as_slice().iter().enumerate() {
            self.warn_of_kind(alloc, &inside, place, transition, warnings)?;
            let is_one = is_forestalled(self.state.transitions.as_slice(), place, transition);
            let warning = Warning::Forestalled {
                state: self.number,
                transition: place,
            };
            warn_where(is_one, warning, warnings)?;
        }
        Ok(())
    }

    fn inside(self, alloc: Global) -> Result<Inside, AllocError>
        ensures switched { IfOk result (λ inside. Tells
            (all_by way.Switched (within (out-State self.entry.state.now).regions))
            (length self.entry.variables.now) inside.switched.items) }
        ensures counted { IfOk result (λ inside. Tells
            (all_by way.Counted (within (out-State self.entry.state.now).regions))
            (length self.entry.variables.now) inside.counted.items) }
    {
        let count = self.variables.len();
        let regions = self.state.regions.as_slice();
        Ok(Inside {
            switched: named_within(alloc, count, Mention::Switched, regions)?,
            counted: named_within(alloc, count, Mention::Counted, regions)?,
        })
    }

    // Those of the transition at this place that its kind has.
    fn warn_of_kind(
        self,
        alloc: Global,
        inside: &Inside,
        place: usize,
        transition: &Transition,
        warnings: &mut Items<Warning>,
    ) -> Result<(), AllocError>
        requires switched { Tells (all_by way.Switched (within (out-State self.state.now).regions))
            (length self.variables.now) inside.now.switched.items }
        requires counted { Tells (all_by way.Counted (within (out-State self.state.now).regions))
            (length self.variables.now) inside.now.counted.items }
        ensures { OnOk result (warnings.new ≡ warnings.old ++ of_kind transition.now.kind self.entry.variables.now
            self.entry.states.now self.entry.number place self.entry.state.now transition.now) }
    {
        match transition.kind {
            TransitionKind::Go => Ok(()),
            TransitionKind::Join => self.warn_of_regions(place, warnings),
            TransitionKind::Strong | TransitionKind::Weak => {
                self.warn_of_outputs(alloc, inside, place, transition, warnings)
            }
        }
    }

    // Of each output that the abort at this place leaves as the inside has set it.
    fn warn_of_outputs(
        self,
        alloc: Global,
        inside: &Inside,
        place: usize,
        transition: &Transition,
        warnings: &mut Items<Warning>,
    ) -> Result<(), AllocError>
        requires switched { Tells (all_by way.Switched (within (out-State self.state.now).regions))
            (length self.variables.now) inside.now.switched.items }
        requires counted { Tells (all_by way.Counted (within (out-State self.state.now).regions))
            (length self.variables.now) inside.now.counted.items }
        ensures { OnOk result (warnings.new ≡ warnings.old
            ++ of_outputs (within (out-State self.entry.state.now).regions)
            (comes_with self.entry.states.now transition.now) self.entry.number place 0 self.entry.variables.now) }
    {
        let after = self.set_after(alloc, transition)?;
        for (number, variable) in self.variables.iter().enumerate() {
            let stays_on = is_marked(&inside.switched, number)
                && !is_marked(&inside.counted, number)
                && !is_marked(&after, number);
            let warning = Warning::StaysOn {
                state: self.number,
                transition: place,
                output: number,
            };
            warn_where(is_output(variable.role) && stays_on, warning, warnings)?;
        }
        Ok(())
    }

    // The variables that a transition sets, or what comes with it.
    fn set_after(self, alloc: Global, transition: &Transition) -> Result<Vec<bool>, AllocError>
        ensures { IfOk result (λ marks. Tells (all_by way.Set (comes_with self.entry.states.now transition.now))
            (length self.entry.variables.now) marks.items) }
    {
        let mut marks = unmarked(alloc, self.variables.len())?;
        mark_transition(Mention::Set, transition, &mut marks);
        mark_target(Mention::Set, self.states, transition.target, &mut marks);
        Ok(marks)
    }

    // Of each region that never ends, for the termination at this place.
    fn warn_of_regions(self, place: usize, warnings: &mut Items<Warning>) -> Result<(), AllocError>
        ensures { OnOk result (warnings.new ≡ warnings.old
            ++ of_regions self.entry.number place 0 (out-State self.entry.state.now).regions) }
    {
        for (number, region) in self.state.regions.as_slice().iter().enumerate() {
            let warning = Warning::NeverEnded {
                state: self.number,
                transition: place,
                region: number,
            };
            warn_where(!ends(region), warning, warnings)?;
        }
        Ok(())
    }
}

fn is_output(role: Role) -> bool
    ensures { result ≡ is_output role }
{
    match role {
        Role::Output => true,
        _ => false,
    }
}

// Whether a region has a final state.
fn ends(region: &Region) -> bool
    ensures { result ≡ ends region.now }
{
    for state in region.states.as_slice() {
        if state.is_final {
            return true;
        }
    }
    false
}
