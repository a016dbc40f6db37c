//! Tables from the least numbers of each sort.

ghost use Rattle.std.specs.Prelude.{◌≡◌, ◌≤◌, ◌++◌, IfOk, OnOk, ℕ, map, nat_lt, slice_index};
ghost use Rattle.sc_graph.specs.Limits.{budget_limit};
ghost use Rattle.sc_graph.specs.Valid.{IsFormed};
ghost use Rattle.priority_weights.specs.Inside.Parts.{AreParts, fill_tables};
ghost use Rattle.priority_weights.specs.LeastTables.{AreLeast};

use crate::next::entry;
use crate::weights::entry_number;
use sc_graph::{Program, Tables};
use sqlite_items::Items;
use std::alloc::{AllocError, Global};

/// The tables of these parts, which are the least ones, and the least budget. Err: memory was refused.
pub(crate) fn assembled(
    alloc: Global,
    program: &Program,
    ends: &[u32],
    priorities: &[u32],
    weights: &[u32],
    bounds: Vec<u32>,
) -> Result<Tables, AllocError>
    requires formed { IsFormed program.now }
    requires parts { AreParts program.now ends.now priorities.now weights.now bounds.items }
    ensures least { IfOk result (AreLeast program.now) }
    ensures budget { IfOk result (λ q. q.budget ≤ budget_limit) }
{
    let entry_weight = entry_number(program, weights, 0) as u32;
    let budget = entry(bounds.as_slice(), 0).max(entry_weight);
    let mut tables = Tables {
        priorities: Items::new(alloc),
        weights: Items::new(alloc),
        end_bits: Items::new(alloc),
        bounds: Items::from_vec(bounds),
        budget,
    };
    fill_tables(ends, priorities, weights, &mut tables)?;
    Ok(tables)
}

// The tables are behind a reference, so that no `?` has to drop their parts.
fn fill_tables(
    ends: &[u32],
    priorities: &[u32],
    weights: &[u32],
    tables: &mut Tables,
) -> Result<(), AllocError>
    requires priorities { (n : ℕ) → slice_index priorities.now n ≤ 65535 }
    requires weights { (n : ℕ) → slice_index weights.now n ≤ 65535 }
    ensures { OnOk result (tables.new ≡ fill_tables ends.now priorities.now weights.now tables.old) }
{
    put_narrowed(priorities, &mut tables.priorities)?;
    put_narrowed(weights, &mut tables.weights)?;
    put_bits(ends, &mut tables.end_bits)
}

// Puts numbers in 16 bits behind others.
fn put_narrowed(numbers: &[u32], items: &mut Items<u16>) -> Result<(), AllocError>
    requires { (n : ℕ) → slice_index numbers.now n ≤ 65535 }
    ensures { OnOk result (items.new ≡ items.old ++ numbers.now) }
{
    for number in numbers {
        items.push(*number as u16)?;
    }
    Ok(())
}

// Puts for each number whether it is above 0.
fn put_bits(numbers: &[u32], items: &mut Items<bool>) -> Result<(), AllocError>
    ensures { OnOk result (items.new ≡ items.old ++ map (nat_lt 0) numbers.now) }
{
    for number in numbers {
        items.push(*number > 0)?;
    }
    Ok(())
}
