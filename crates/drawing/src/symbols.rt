//! What the numbers in expressions name.

ghost use Rattle.std.specs.Prelude.{◌≡◌, IfOk, map, slice_get};
ghost use Rattle.drawing.specs.Expressions.{own_name, symbol_of, symbol_text};
ghost use Rattle.drawing.specs.Inside.Puts.{Puts};

use crate::text::Text;
use sc_graph::{Variable, VariableId};
use sc_values::Name;
use sqlite_items::{Items, at};
use std::alloc::{AllocError, Global};

/// What a number in expressions names.
#[derive(Clone, Copy)]
pub enum Symbol {
    /// What has this name.
    Named(Name),
    /// What that of this number was in the tick before.
    Before(VariableId),
}

/// These variables, by their names. Err: memory was refused.
pub(crate) fn symbols_of(alloc: Global, variables: &[Variable]) -> Result<Items<Symbol>, AllocError>
    ensures { IfOk result (λ symbols. symbols ≡ map symbol_of variables.now) }
{
    let mut symbols = Items::new(alloc);
    for variable in variables {
        symbols.push(Symbol::Named(variable.name))?;
    }
    Ok(symbols)
}

// The name of this number; nothing where nothing has it.
fn own_name(symbols: &[Symbol], number: VariableId) -> &str
    ensures { result.now ≡ own_name (slice_get symbols.now number) }
{
    match at(symbols, number as usize) {
        Some(Symbol::Named(name)) => name.as_str(),
        Some(Symbol::Before(_)) | None => "",
    }
}

/// Puts how what has this number is written; nothing where nothing has it.
pub(crate) fn put_symbol(text: &mut Text, symbols: &[Symbol], number: VariableId)
    ensures { Puts text.old text.new (symbol_text symbols.now number) }
{
    match at(symbols, number as usize) {
        Some(Symbol::Named(name)) => text.put(name.as_str()),
        Some(Symbol::Before(number)) => {
            text.put("pre(");
            text.put(own_name(symbols, *number));
            text.put(")");
        }
        None => {}
    }
}
