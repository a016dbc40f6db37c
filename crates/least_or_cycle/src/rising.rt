//! The least table that keeps a rule: it rises from zeros until nothing more is asked.

ghost use Rattle.std.specs.Prelude.{◌≡◌, ◌≤◌, ◌<◌, ℕ, IfOk, IsTrue, MatchOption, MatchBool, length, sum, slice_index};
ghost use Rattle.std.specs.Prelude.{Contains, Some, None};
ghost use Rattle.least_or_cycle.specs.Least.{Exceeds, IsLeast, IsWithin, Keeps};
ghost use Rattle.least_or_cycle.specs.Inside.Rising.{Became, IsUnder};

use crate::rule::NumberRule;
use std::alloc::{AllocError, Global};

/// The least table of `count` numbers that keeps a rule. None: no table within `top` keeps it. The
/// order is a hint, for speed alone: the table is raised first at its places, in this order, by the
/// parts that the rule finds fast. Err: memory was refused.
pub fn least<R: NumberRule>(
    alloc: Global,
    rule: &R,
    count: u16,
    top: u32,
    order: &[u16],
) -> Result<Option<Vec<u32>>, AllocError>
    ensures least { IfOk result (λ found. MatchOption found (Exceeds (R.keeps rule.now) count top)
        (λ table. IsLeast (R.keeps rule.now) count table.items)) }
    ensures within { IfOk result (λ found. (table : _) → found ≡ Some table
        → IsWithin count top (slice_index table.items)) }
{
    let mut table = vec![in alloc; 0; count as usize]?;
    if !raise_parts(rule, table.as_mut_slice(), top, order) {
        return Ok(None);
    }
    if rule.is_kept(alloc, table.as_slice(), count)? {
        return Ok(Some(table));
    }
    if rises(rule, table.as_mut_slice(), count, top, order) {
        Ok(Some(table))
    } else {
        Ok(None)
    }
}

// Raises a table at these places in turn by parts of what the rule asks. False: no table within the top keeps the rule.
fn raise_parts<R: NumberRule>(rule: &R, table: &mut [u32], top: u32, order: &[u16]) -> bool
    requires { IsUnder (R.keeps rule.now) top table.old }
    ensures long { length table.new ≡ length table.old }
    ensures under { MatchBool result (IsUnder (R.keeps rule.now) top table.new)
        (Exceeds (R.keeps rule.now) (length table.old) top) }
{
    for place in order {
        if !raise_part(rule, table, *place, top) {
            return false;
        }
    }
    true
}

// Raises a table at a place by a part of what the rule asks there. False: no table within the top keeps the rule.
fn raise_part<R: NumberRule>(rule: &R, table: &mut [u32], place: u16, top: u32) -> bool
    requires { IsUnder (R.keeps rule.now) top table.old }
    ensures long { length table.new ≡ length table.old }
    ensures under { MatchBool result (IsUnder (R.keeps rule.now) top table.new)
        (Exceeds (R.keeps rule.now) (length table.old) top) }
{
    let at = place as usize;
    if at >= table.len() {
        return true;
    }
    let part = rule.part(table, place);
    if part <= u64::from(table[at]) {
        return true;
    }
    if part <= u64::from(top) {
        table[at] = part as u32;
        return true;
    }
    false
}

// What became of a table that was looked over at some places.
#[derive(Clone, Copy)]
enum Raise {
    // The rule is kept there.
    Kept,
    // It was raised.
    Raised,
    // No table within the top keeps the rule.
    Over,
}

// Raises a table of zeros to the least one. False: no table within the top keeps the rule.
fn rises<R: NumberRule>(rule: &R, table: &mut [u32], count: u16, top: u32, order: &[u16]) -> bool
    requires count { length table.old ≡ count }
    requires under { IsUnder (R.keeps rule.now) top table.old }
    ensures { MatchBool result (IsLeast (R.keeps rule.now) (length table.old) table.new
        × IsUnder (R.keeps rule.now) top table.new) (Exceeds (R.keeps rule.now) (length table.old) top) }
{
    loop {
        if !raise_along(rule, table, top, order) {
            return false;
        }
        match raise_all(rule, table, count, top) {
            Raise::Kept => return true,
            Raise::Raised => {}
            Raise::Over => return false,
        }
    }
}

// Raises a table at these places in turn. False: no table within the top keeps the rule.
fn raise_along<R: NumberRule>(rule: &R, table: &mut [u32], top: u32, order: &[u16]) -> bool
    requires { IsUnder (R.keeps rule.now) top table.old }
    ensures { MatchBool result (IsUnder (R.keeps rule.now) top table.new × (sum table.old ≤ sum table.new))
        (Exceeds (R.keeps rule.now) (length table.old) top) }
{
    for place in order {
        match raise_at(rule, table, *place, top) {
            Raise::Over => return false,
            _ => {}
        }
    }
    true
}

// Raises a table at each of its places.
fn raise_all<R: NumberRule>(rule: &R, table: &mut [u32], count: u16, top: u32) -> Raise
    requires count { length table.old ≡ count }
    requires under { IsUnder (R.keeps rule.now) top table.old }
    ensures { Became (R.keeps rule.now) top (λ n. n < length table.old) table.old table.new result }
{
    let mut raised = false;
    for place in 0..count {
        match raise_at(rule, table, place, top) {
            Raise::Kept => {}
            Raise::Raised => raised = true,
            Raise::Over => return Raise::Over,
        }
    }
    if raised { Raise::Raised } else { Raise::Kept }
}

// Raises a table at a place to what the rule asks there.
fn raise_at<R: NumberRule>(rule: &R, table: &mut [u32], place: u16, top: u32) -> Raise
    requires { IsUnder (R.keeps rule.now) top table.old }
    ensures { Became (R.keeps rule.now) top (λ n. n ≡ place) table.old table.new result }
{
    let at = place as usize;
    if at >= table.len() {
        return Raise::Kept;
    }
    let need = rule.need(table, place);
    if need <= u64::from(table[at]) {
        Raise::Kept
    } else if need <= u64::from(top) {
        table[at] = need as u32;
        Raise::Raised
    } else {
        Raise::Over
    }
}
