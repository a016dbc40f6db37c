//! Guesses of where an input stands among the variables.

ghost use Rattle.std.specs.Prelude.{IfSome, MatchOption};
ghost use Rattle.tick_core.specs.Inside.Inputs.{IsForAt, NamesInput};

use crate::inputs::{is_for_at, place_of};
use sc_graph::{Role, Variable};
use sc_values::{Name, Value};
use std::alloc::{AllocError, Global};
use std::collections::BTreeMap;

// So many places in the order of names are tried before a name is looked for.
const NEAR: usize = 3;

/// Where the inputs of a program stand among its variables, by their names. What it holds is a guess: each place is
/// compared with what is looked for, and no contract rests on it.
#[derive(Drop)]
pub(crate) struct Guesses {
    by_name: BTreeMap<Name, usize>,
    // the same places, in the order of the names
    in_order: Vec<usize>,
}

impl Guesses {
    /// Where the inputs among these variables stand.
    pub(crate) fn of(alloc: Global, variables: &[Variable]) -> Result<Guesses, AllocError> {
        let by_name = places_of(alloc, variables)?;
        let in_order = ordered(alloc, &by_name)?;
        Ok(Guesses { by_name, in_order })
    }

    /// The variable that an input is for, which is given as the one at this place among all that are given; None where
    /// it is for none. Lines give their inputs in the order of names, and often all of them or all but a few.
    pub(crate) fn place_of(
        &self,
        variables: &[Variable],
        input: &(Name, Value),
        at: usize,
    ) -> Option<usize>
        ensures { MatchOption result (¬ NamesInput variables.now input.now) (IsForAt variables.now input.now) }
    {
        match self.among_the_next(variables, input, at) {
            Some(place) => Some(place),
            None => place_of(variables, input, self.by_name.get(&input.0).copied()),
        }
    }

    // The variable that an input is for, where it is one of the next few in the order of names.
    fn among_the_next(
        &self,
        variables: &[Variable],
        input: &(Name, Value),
        at: usize,
    ) -> Option<usize>
        ensures { IfSome result (IsForAt variables.now input.now) }
    {
        for next in at..at.saturating_add(NEAR) {
            match self.in_order.get(next) {
                Some(place) if is_for_at(variables, input, *place) => return Some(*place),
                _ => {}
            }
        }
        None
    }
}

fn places_of(alloc: Global, variables: &[Variable]) -> Result<BTreeMap<Name, usize>, AllocError> {
    let mut places = BTreeMap::new(alloc);
    for place in 0..variables.len() {
        if variables[place].role == Role::Input {
            places.insert(variables[place].name, place)?;
        }
    }
    Ok(places)
}

fn ordered(alloc: Global, places: &BTreeMap<Name, usize>) -> Result<Vec<usize>, AllocError> {
    let mut in_order = Vec::with_capacity(alloc, places.len())?;
    for (_name, place) in places {
        in_order.push(*place)?;
    }
    Ok(in_order)
}
