//! What the numbers in the expressions of an extended chart name.

ghost use Rattle.std.specs.Prelude.{◌≡◌, IfOk, map};
ghost use Rattle.drawing.specs.declared.symbols.Symbol.TheVariants as symbol;
ghost use Rattle.drawing.specs.Symbols.{constant_symbol, declared_symbol, symbols_of};

use crate::Symbol;
use extended_charts::{Constant, Declared, ExtendedChart};
use sc_graph::VariableId;
use sqlite_items::Items;
use std::alloc::{AllocError, Global};

fn declared_symbols(alloc: Global, variables: &[Declared]) -> Result<Items<Symbol>, AllocError>
    ensures { IfOk result (λ symbols. symbols ≡ map declared_symbol variables.now) }
{
    let mut symbols = Items::new(alloc);
    for declared in variables {
        symbols.push(Symbol::Named(declared.variable.name))?;
    }
    Ok(symbols)
}

fn before_symbols(alloc: Global, befores: &[VariableId]) -> Result<Items<Symbol>, AllocError>
    ensures { IfOk result (λ symbols. symbols ≡ map symbol.Before befores.now) }
{
    let mut symbols = Items::new(alloc);
    for variable in befores {
        symbols.push(Symbol::Before(*variable))?;
    }
    Ok(symbols)
}

fn constant_symbols(alloc: Global, constants: &[Constant]) -> Result<Items<Symbol>, AllocError>
    ensures { IfOk result (λ symbols. symbols ≡ map constant_symbol constants.now) }
{
    let mut symbols = Items::new(alloc);
    for constant in constants {
        symbols.push(Symbol::Named(constant.name))?;
    }
    Ok(symbols)
}

/// What the numbers in the expressions of this chart name. Err: memory was refused.
pub(crate) fn symbols_of(alloc: Global, chart: &ExtendedChart) -> Result<Items<Symbol>, AllocError>
    ensures { IfOk result (λ symbols. symbols ≡ symbols_of chart.now) }
{
    let mut symbols = declared_symbols(alloc, chart.variables.as_slice())?;
    symbols.append(before_symbols(alloc, chart.befores.as_slice())?)?;
    symbols.append(constant_symbols(alloc, chart.constants.as_slice())?)?;
    Ok(symbols)
}
