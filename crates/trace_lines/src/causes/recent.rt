//! A source that keeps the lines that were read last.

ghost use Rattle.std.specs.Prelude.{◌≡◌, ◌<◌, ℕ, List, Option, true, false, IfSome, IsTrue};
ghost use Rattle.trace_lines.specs.Lines.{ahead};
ghost use Rattle.trace_lines.specs.Inside.Causes.{AreBehind, HasEnded, IsFound, LeadsOn};
ghost use Rattle.trace_lines.specs.Recent.{IsGiven};

use crate::LINE_LIMIT;
use crate::causes::line::Line;
use crate::causes::tail::{behind, cut, joined, last_line};
use sc_values::{Failed, Source};
use std::alloc::Global;
use std::marker::{Brand, PhantomData};

/// An input: the name of its source, and the bytes that were to come from it at first, where they are known.
pub trait OfInput {
    ghost name: { ℕ };

    ghost start: { Option (List ℕ) };
}

impl OfInput for Brand {
    ghost use Rattle.std.specs.Prelude.{None};

    ghost name = { 0 };

    ghost start = { None };
}

/// A source, lent: it is handed on as the one that it is.
#[derive(Drop)]
pub struct Lent<'a, S: Source> {
    /// The source.
    pub source: &'a mut S,
}

/// A source, lent, of whose bytes the lines are kept that were read last: the one whose end was not read yet, and those
/// that were read with its beginning.
#[derive(Drop)]
pub struct Recent<'a, S: Source, N: OfInput> {
    source: &'a mut S,
    alloc: Global,
    kept: Vec<u8>,
    before: u64,
    is_lost: bool,
    is_ended: bool,
    of: PhantomData<N>,
    ghost of_input: { source.ghost_name ≡ N.name },
    ghost behind: { is_lost ≡ false → AreBehind N.start before (ahead kept.items (S.to_come source.now)) },
    ghost ended: { is_ended ≡ true → HasEnded (S.to_come source.now) },
}

// The bytes of the last line and of more behind it, and behind how many lines they are. None: they cannot be had.
fn kept_on(alloc: Global, kept: &[u8], before: u64, more: &[u8]) -> Option<(Vec<u8>, u64)>
    ensures { IfSome result (λ r. LeadsOn kept.now more.now before r.0.items r.1) }
{
    let (last, before) = last_line(kept, before)?;
    match joined(alloc, last, more) {
        Ok(all) => Some((all, before)),
        Err(_) => None,
    }
}

// Whether a read that gave so many bytes, into so much room, says the end.
fn says_end(count: usize, room: usize) -> bool
    ensures { IsTrue result → (count ≡ 0) × (0 < room) }
{
    count == 0 && room > 0
}

// The first line of these bytes. It may end with them where nothing is to come.
#[tactic(auto, using(crate::proofs::CauseGiven::found_feed, crate::proofs::CauseGiven::found_end))]
fn line_in(rest: &[u8], is_ended: bool) -> Line<'_>
    ensures { IsFound rest.now is_ended result }
{
    match cut(rest) {
        Some((line, _)) => Line::Whole(line),
        None if is_ended && !rest.is_empty() => Line::Whole(rest),
        None if rest.len() > LINE_LIMIT => Line::Long,
        None => Line::Lost,
    }
}

impl<'a, S: Source, N: OfInput> Recent<'a, S, N> {
    /// The source, of which nothing is kept yet. Without `keeps` nothing will be, and it is passed on as it is.
    #[tactic(auto, using(crate::proofs::Behind::at_start))]
    pub fn of(alloc: Global, lent: Lent<'a, S>, keeps: bool) -> Recent<'a, S, N>
        requires name { lent.source.ghost_name ≡ N.name }
        requires start { S.to_come lent.source.now ≡ N.start }
        ensures source { result.source.ghost_name ≡ lent.entry.source.ghost_name }
        ensures now { result.source.now ≡ lent.entry.source.now }
    {
        let Lent { source } = lent;
        Recent {
            source,
            alloc,
            kept: Vec::new(alloc),
            before: 0,
            is_lost: !keeps,
            is_ended: false,
            of: PhantomData,
        }
    }

    /// The source, as it was lent.
    pub fn lent(self) -> Lent<'a, S>
        ensures name { result.source.ghost_name ≡ N.name }
        ensures now { result.source.now ≡ self.entry.source.now }
    {
        let Recent { source, .. } = self;
        Lent { source }
    }

    /// The line of this number, from 1, of all that were to come at first, if it is kept.
    #[tactic(auto, using(crate::proofs::CauseGiven::given_behind))]
    pub fn line(&self, number: u64) -> Line<'_>
        ensures { IsGiven N.start number result }
    {
        if self.is_lost || number <= self.before {
            return Line::Lost;
        }
        match behind(&self.kept, number - 1 - self.before) {
            Some(rest) => line_in(rest, self.is_ended),
            None => Line::Lost,
        }
    }
}

impl<'a, S: Source, N: OfInput> Source for Recent<'a, S, N> {
    ghost to_come = { λ r. S.to_come r.source.now };

    ghost progress = { λ r. S.progress r.source.now };

    ghost failures = { λ r. S.failures r.source.now };

    fn read(&mut self, buf: &mut [u8]) -> Result<usize, Failed> {
        let was_lost = self.is_lost;
        self.is_lost = true;
        self.is_ended = false;
        let count = match self.source.read(buf) {
            Ok(count) => count,
            Err(fault) => {
                self.is_lost = was_lost;
                return Err(fault);
            }
        };
        if was_lost {
            return Ok(count);
        }
        let is_ended = says_end(count, buf.len());
        if let Some((kept, before)) = kept_on(self.alloc, &self.kept, self.before, &buf[..count]) {
            self.kept = kept;
            self.before = before;
            self.is_lost = false;
            self.is_ended = is_ended;
        }
        Ok(count)
    }
}
