//! Tests, one after the other, and what is told of them.

ghost use Rattle.std.specs.Prelude.{◌≡◌, ◌≢◌, ◌≤◌, ◌<◌, ◌+◌, ◌^◌, ◌++◌, ◌∷◌, IfOk, List, OnErr, OnOk, true};
ghost use Rattle.std.specs.Prelude.{codes, false, length, map, string_bytes};
ghost use Rattle.command_files.specs.FaultText.{shown_name};
ghost use Rattle.controller_tests.specs.Inside.Judging.{is_failed, verdict_seen};
ghost use Rattle.controller_tests.specs.Inside.Putting.{PutsFirst, PutsTold};
ghost use Rattle.controller_tests.specs.Run.{TriesSome, TriesTests, failed, passed};
ghost use Rattle.controller_tests.specs.Verdict.{Verdict as Seen, verdict_text};

use crate::beside;
use crate::command::naming::tests_of;
use crate::command::verdict::{Verdict, try_test};
use command_files::{Files, shown_name};
use std::alloc::{AllocError, Global};

// How many tests pass, and how many fail.
#[derive(Clone, Copy)]
struct Counts {
    passed: usize,
    failed: usize,
}

// The line of a file: this word, and the name of the file.
fn file_line(alloc: Global, word: &str, name: &str) -> Result<String, AllocError>
    ensures { IfOk result (λ line. string_bytes line ≡ word.now ++ (codes " " ++ (shown_name name.now ++ codes "\n"))) }
{
    let shown = shown_name(alloc, name)?;
    format!(in alloc; "{word} {shown}\n")
}

// What is told of what a test comes to.
fn told_of(alloc: Global, name: &str, verdict: &Verdict) -> Result<String, AllocError>
    ensures { IfOk result (λ told. string_bytes told ≡ verdict_text name.now (verdict_seen verdict.now)) }
{
    match verdict {
        Verdict::Passed => file_line(alloc, "ok", name),
        Verdict::Written => {
            let trace_name = beside(alloc, name, ".trace")?;
            file_line(alloc, "wrote", trace_name.as_str())
        }
        Verdict::Failed(said) => format!(in alloc; "FAILED {said}"),
    }
}

// One more test that comes to this.
fn counted(counts: Counts, verdict: &Verdict) -> Counts
    requires few { (counts.passed + 1 < 2 ^ 64) × (counts.failed + 1 < 2 ^ 64) }
    ensures passed { (verdicts : List Seen) → counts.passed ≡ passed verdicts
        → result.passed ≡ passed (verdict_seen verdict.now ∷ verdicts) }
    ensures failed { (verdicts : List Seen) → counts.failed ≡ failed verdicts
        → result.failed ≡ failed (verdict_seen verdict.now ∷ verdicts) }
    ensures few { result.passed + result.failed ≤ counts.passed + counts.failed + 1 }
    ensures none { result.failed ≡ 0 → (is_failed (verdict_seen verdict.now) ≡ false) × (counts.failed ≡ 0) }
{
    let Counts { passed, failed } = counts;
    match verdict {
        Verdict::Passed => Counts {
            passed: passed + 1,
            failed,
        },
        Verdict::Written => Counts { passed, failed },
        Verdict::Failed(_) => Counts {
            passed,
            failed: failed + 1,
        },
    }
}

// Puts what is told of what a test comes to behind a text.
fn tell(alloc: Global, name: &str, verdict: &Verdict, told: &mut String) -> Result<(), AllocError>
    ensures { OnOk result (string_bytes told.new
        ≡ string_bytes told.old ++ verdict_text name.now (verdict_seen verdict.now)) }
{
    let text = told_of(alloc, name, verdict)?;
    told.push_str(text.as_str())
}

// Tries tests, and puts what is told of each behind a text.
#[tactic(auto, using(crate::proofs::Tried::none_tried, crate::proofs::Tried::first_untold))]
fn tell_tests<F: Files>(
    alloc: Global,
    writes: bool,
    names: &[String],
    files: &mut F,
    told: &mut String,
) -> Result<Counts, AllocError>
    ensures told { IfOk result (λ counts. PutsTold writes (F.contents files.old) (F.contents files.new)
        (map string_bytes names.now) (string_bytes told.old) (string_bytes told.new) counts.passed counts.failed) }
    ensures few { IfOk result (λ counts. counts.passed + counts.failed ≤ length names.now) }
    ensures first { OnErr result (PutsFirst writes (F.contents files.old) (F.contents files.new)
        (map string_bytes names.now)) }
    ensures kept { writes ≢ true → F.contents files.new ≡ F.contents files.old }
    ensures none_missed { IfOk result (λ counts. counts.failed ≡ 0 → F.failures files.new ≡ F.failures files.old) }
    ensures missed { F.failures files.old ≤ F.failures files.new }
{
    match names.split_first() {
        None => Ok(Counts {
            passed: 0,
            failed: 0,
        }),
        Some((name, names)) => {
            let came = try_test(alloc, name.as_str(), writes, files)?;
            tell(alloc, name.as_str(), &came, told)?;
            let others = tell_tests(alloc, writes, names, files, told)?;
            Ok(counted(others, &came))
        }
    }
}

/// Tries the tests that words name: plays the ticks beside each, and compares the trace with the one beside it; where
/// traces are to be written, and nothing stands where one of them does, it writes that. Gives a text that tells of
/// each, whose last line counts those that pass and those that fail, and how many fail. Err: memory was refused.
#[tactic(auto, using(crate::proofs::Tried::all_tried, crate::proofs::Tried::tried_first, crate::proofs::Tried::tried_untold))]
pub fn try_tests<F: Files>(
    alloc: Global,
    writes: bool,
    words: &[String],
    files: &mut F,
) -> Result<(String, usize), AllocError>
    ensures tried { IfOk result (λ r. TriesTests writes (F.contents files.old) (F.contents files.new)
        (map string_bytes words.now) r.1 (string_bytes r.0)) }
    ensures some { OnErr result (TriesSome writes (F.contents files.old) (F.contents files.new)
        (map string_bytes words.now)) }
    ensures kept { writes ≢ true → F.contents files.new ≡ F.contents files.old }
    ensures none_missed { IfOk result (λ r. r.1 ≡ 0 → F.failures files.new ≡ F.failures files.old) }
    ensures missed { F.failures files.old ≤ F.failures files.new }
{
    let names = tests_of(alloc, words, files)?;
    let mut told = String::new(alloc);
    let Counts { passed, failed } = tell_tests(alloc, writes, &names, files, &mut told)?;
    let line = format!(in alloc; "{passed} passed, {failed} failed\n")?;
    told.push_str(line.as_str())?;
    Ok((told, failed))
}
