//! Expressions in which something else stands for some of what they read.

ghost use Rattle.std.specs.Prelude.{◌≡◌, IfOk, slice_get};
ghost use Rattle.extended_charts.specs.Reading.{is_count, count_variable, valued, read, replaced, replaced_trigger};

use crate::extended::ELAPSED;
use crate::making::{literal, variable};
use sc_graph::VariableId;
use sc_values::{BinaryOperator, Expr, Value};
use sqlite_items::{Boxed, Items};
use std::alloc::{AllocError, Global};

/// What stands for what an expression reads.
#[derive(Drop)]
pub enum Reading {
    /// For a number that has a value here, its literal.
    Values(Items<Option<Value>>),
    /// For the ticks since the state was entered, the time now less that at its entry.
    Elapsed { now: VariableId, at: VariableId },
    /// For so many counts, every third variable from this one on.
    Counted { first: VariableId, counts: u16 },
}

impl Reading {
    fn read(&self, alloc: Global, x: u16) -> Result<Expr, AllocError>
        ensures { IfOk result (λ made. made ≡ read self.now x) }
    {
        match self {
            Reading::Values(named) => valued(alloc, named.as_slice(), x),
            Reading::Elapsed { now, at } => {
                if x == ELAPSED {
                    let now = Boxed::new(alloc, Expr::Load(*now))?;
                    let at = Boxed::new(alloc, Expr::Load(*at))?;
                    Ok(Expr::Binary(BinaryOperator::Subtract, now, at))
                } else {
                    Ok(Expr::Load(x))
                }
            }
            Reading::Counted { first, counts } => {
                Ok(Expr::Load(count_variable(*first, *counts, x)?))
            }
        }
    }

    /// An expression that reads so. Err: memory was refused.
    pub fn replaced(&self, alloc: Global, expression: &Expr) -> Result<Expr, AllocError>
        ensures { IfOk result (λ made. made ≡ replaced self.now expression.now) }
    {
        match expression {
            Expr::Literal(value) => Ok(Expr::Literal(*value)),
            Expr::Load(x) => self.read(alloc, *x),
            Expr::Unary(f, operand) => {
                let operand = self.replaced(alloc, operand.get())?;
                Ok(Expr::Unary(*f, Boxed::new(alloc, operand)?))
            }
            Expr::Binary(f, left, right) => {
                let left = Boxed::new(alloc, self.replaced(alloc, left.get())?)?;
                let right = Boxed::new(alloc, self.replaced(alloc, right.get())?)?;
                Ok(Expr::Binary(*f, left, right))
            }
        }
    }

    /// A trigger that reads so. Err: memory was refused.
    pub fn replaced_trigger(
        &self,
        alloc: Global,
        trigger: &Option<Expr>,
    ) -> Result<Option<Expr>, AllocError>
        ensures { IfOk result (λ made. made ≡ replaced_trigger self.now trigger.now) }
    {
        match trigger {
            Some(condition) => Ok(Some(self.replaced(alloc, condition)?)),
            None => Ok(None),
        }
    }
}

/// Whether this number names one of so many counts.
pub fn is_count(counts: u16, x: u16) -> bool
    ensures { result ≡ is_count counts x }
{
    x < ELAPSED && !(counts < ELAPSED - x)
}

/// The variable of the count of this number. Err: there are more than 65535 variables.
pub fn count_variable(first: VariableId, counts: u16, x: u16) -> Result<VariableId, AllocError>
    ensures { IfOk result (λ made. made ≡ count_variable first counts x) }
{
    if x < ELAPSED {
        let left = ELAPSED - x;
        if counts < left {
            return Ok(x);
        }
        return variable(first as usize + 3 * (counts - left) as usize);
    }
    Ok(x)
}

fn valued(alloc: Global, named: &[Option<Value>], x: u16) -> Result<Expr, AllocError>
    ensures { IfOk result (λ made. made ≡ valued x (slice_get named.now x)) }
{
    match named.get(x as usize) {
        Some(Some(value)) => literal(alloc, *value),
        Some(None) | None => Ok(Expr::Load(x)),
    }
}
