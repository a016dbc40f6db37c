//! The bytes of the lines that were read last.

ghost use Rattle.std.specs.Prelude.{◌≡◌, ◌++◌, ◌+◌, ℕ, true, false, IfOk, IfSome, IfNone};
ghost use Rattle.trace_lines.specs.Lines.{has_feed, first_line, after_line};
ghost use Rattle.trace_lines.specs.Inside.Causes.{Leads};

use crate::feed_in;
use std::alloc::{AllocError, Global};

/// The bytes before the first line feed, and those behind it. None: there is no line feed.
#[tactic(auto, using(crate::proofs::Behind::rest_is, crate::proofs::Behind::feed_is))]
pub(crate) fn cut(bytes: &[u8]) -> Option<(&[u8], &[u8])>
    ensures feed { IfSome result (λ _. has_feed bytes.now ≡ true) }
    ensures first { IfSome result (λ r. r.0.now ≡ first_line bytes.now) }
    ensures rest { IfSome result (λ r. r.1.now ≡ after_line bytes.now) }
    ensures none { IfNone result (has_feed bytes.now ≡ false) }
{
    let at = feed_in(bytes)?;
    Some((&bytes[..at], &bytes[at + 1..]))
}

/// The bytes behind the last line feed, and behind how many lines they are, where these bytes are behind `before`.
/// None: the lines cannot be counted.
#[tactic(auto, using(crate::proofs::Behind::leads_none))]
pub(crate) fn last_line(bytes: &[u8], before: u64) -> Option<(&[u8], u64)>
    ensures { IfSome result (λ r. Leads bytes.now before r.0.now r.1) }
{
    match cut(bytes) {
        None => Some((bytes, before)),
        Some((_, rest)) => {
            let (last, count) = last_line(rest, before.checked_add(1)?)?;
            Some((last, count))
        }
    }
}

/// The bytes behind so many lines of these, each of which has its line feed. None: there are not so many.
#[tactic(auto, using(crate::proofs::Behind::leads_same))]
pub(crate) fn behind(bytes: &[u8], lines: u64) -> Option<&[u8]>
    ensures { IfSome result (λ r. (before : ℕ) → Leads bytes.now before r.now (before + lines)) }
{
    if lines == 0 {
        return Some(bytes);
    }
    let (_, rest) = cut(bytes)?;
    let last = behind(rest, lines - 1)?;
    Some(last)
}

/// Bytes, and others behind them.
pub(crate) fn joined(alloc: Global, bytes: &[u8], more: &[u8]) -> Result<Vec<u8>, AllocError>
    ensures { IfOk result (λ all. all.items ≡ bytes.now ++ more.now) }
{
    let mut all = Vec::with_capacity(alloc, bytes.len() + more.len())?;
    all.extend_from_slice(bytes)?;
    all.extend_from_slice(more)?;
    Ok(all)
}
