//! What a region's step does, and the configuration after it.

ghost use Rattle.std.specs.Prelude.{◌≡◌, IfOk, option_map, slice_get};
ghost use Rattle.sc_values.specs.Operator.{kind_of};
ghost use Rattle.sc_graph.specs.Steps.{takes_kind};
ghost use Rattle.chart_machine.specs.declared.standing.Standing.TheVariants as at;
ghost use Rattle.chart_machine.specs.Turns.{standing_of};
ghost use Rattle.chart_machine.specs.Steps.{effected, change_of, step};

use crate::evaluating::value_of;
use crate::region_change::{RegionChange, Write};
use crate::standing::{Configuration, Standing};
use crate::stepping::only_move;
use crate::table::Table;
use core_charts::{Effect, Transition, copied_transitions};
use sc_graph::VariableId;
use sc_values::Value;
use sqlite_items::Items;
use std::alloc::{AllocError, Global};

impl Table {
    // Whether the variable is there and of the value's kind.
    fn takes(&self, variable: VariableId, value: Value) -> bool
        ensures { result ≡ takes_kind (option_map (λ x. x.kind) (slice_get self.now.variables variable))
            (kind_of value) }
    {
        match self.variables.get(variable as usize) {
            Some(found) => found.kind == value.kind(),
            None => false,
        }
    }

    // The effect writes this value, and these effects are left.
    fn effected(
        &self,
        alloc: Global,
        region: usize,
        state: usize,
        effect: &Effect,
        rest: &[Effect],
        target: u32,
        value: Value,
    ) -> Result<Option<RegionChange>, AllocError>
        ensures { IfOk result (λ change. change ≡ effected self.now region state effect.now rest.now target value) }
    {
        if !self.takes(effect.variable, value) {
            return Ok(None);
        }
        let mut moves = Items::new(alloc);
        self.put_acts(alloc, region, state, rest, target, &mut moves)?;
        Ok(Some(RegionChange {
            write: Some(Write {
                variable: effect.variable,
                value,
            }),
            moves,
        }))
    }

    fn acted(
        &self,
        alloc: Global,
        c: &Configuration,
        region: usize,
        state: usize,
        effects: &[Effect],
        target: u32,
    ) -> Result<Option<RegionChange>, AllocError>
        ensures { IfOk result
            (λ change. change ≡ change_of self.now c.now region (at.Acting state effects.now target)) }
    {
        let Some((effect, rest)) = effects.split_first() else {
            return Ok(None);
        };
        let Some(value) = value_of(&effect.value, c.variables.as_slice()) else {
            return Ok(None);
        };
        self.effected(alloc, region, state, effect, rest, target, value)
    }

    fn tried(
        &self,
        alloc: Global,
        c: &Configuration,
        region: usize,
        state: usize,
        tests: &[Transition],
    ) -> Result<Option<RegionChange>, AllocError>
        ensures { IfOk result (λ change. change ≡ change_of self.now c.now region (at.Trying state tests.now)) }
    {
        let Some((test, rest)) = tests.split_first() else {
            return Ok(None);
        };
        let tests = copied_transitions(alloc, rest)?;
        let otherwise = only_move(alloc, region, Standing::Trying { state, tests })?;
        self.tested(alloc, c, region, state, test, otherwise)
    }

    fn come(
        &self,
        alloc: Global,
        c: &Configuration,
        region: usize,
        state: usize,
        tests: &[Transition],
    ) -> Result<Option<RegionChange>, AllocError>
        ensures { IfOk result (λ change. change ≡ change_of self.now c.now region (at.Entering state tests.now)) }
    {
        let Some((test, rest)) = tests.split_first() else {
            return Ok(None);
        };
        let otherwise = self.entering_on(alloc, region, state, rest)?;
        self.tested(alloc, c, region, state, test, otherwise)
    }

    fn guarded(
        &self,
        alloc: Global,
        c: &Configuration,
        region: usize,
        state: usize,
        tests: &[Transition],
    ) -> Result<Option<RegionChange>, AllocError>
        ensures { IfOk result (λ change. change ≡ change_of self.now c.now region (at.Guarding state tests.now)) }
    {
        let Some((test, rest)) = tests.split_first() else {
            return Ok(None);
        };
        let otherwise = self.guarding_on(alloc, region, state, rest)?;
        self.tested(alloc, c, region, state, test, otherwise)
    }

    fn closed(
        &self,
        alloc: Global,
        c: &Configuration,
        region: usize,
        state: usize,
        tests: &[Transition],
    ) -> Result<Option<RegionChange>, AllocError>
        ensures { IfOk result (λ change. change ≡ change_of self.now c.now region (at.Within state tests.now)) }
    {
        let Some((test, rest)) = tests.split_first() else {
            return Ok(None);
        };
        let tests = copied_transitions(alloc, rest)?;
        let otherwise = only_move(alloc, region, Standing::Within { state, tests })?;
        self.tested(alloc, c, region, state, test, otherwise)
    }

    fn change_of(
        &self,
        alloc: Global,
        c: &Configuration,
        region: usize,
        standing: &Standing,
    ) -> Result<Option<RegionChange>, AllocError>
        ensures { IfOk result (λ change. change ≡ change_of self.now c.now region standing.now) }
    {
        match standing {
            Standing::Outside | Standing::Ended => Ok(None),
            Standing::Trying { state, tests } => {
                self.tried(alloc, c, region, *state, tests.as_slice())
            }
            Standing::Entering { state, tests } => {
                self.come(alloc, c, region, *state, tests.as_slice())
            }
            Standing::Guarding { state, tests } => {
                self.guarded(alloc, c, region, *state, tests.as_slice())
            }
            Standing::Within { state, tests } => {
                self.closed(alloc, c, region, *state, tests.as_slice())
            }
            Standing::Acting {
                state,
                effects,
                target,
            } => self.acted(alloc, c, region, *state, effects.as_slice(), *target),
        }
    }

    /// The configuration after a region's step. None: it isn't its turn, or its step is undefined. Err: memory
    /// was refused.
    pub fn step(
        &self,
        alloc: Global,
        c: &Configuration,
        region: usize,
    ) -> Result<Option<Configuration>, AllocError>
        ensures { IfOk result (λ after. after ≡ step self.now region c.now) }
    {
        if !self.is_enabled(alloc, c, region)? {
            return Ok(None);
        }
        let Some(standing) = c.regions.get(region) else {
            return Ok(None);
        };
        match self.change_of(alloc, c, region, standing)? {
            Some(change) => {
                let after = c.after(alloc, &change)?;
                Ok(Some(after))
            }
            None => Ok(None),
        }
    }
}
