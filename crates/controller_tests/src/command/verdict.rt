//! What a test comes to.

ghost use Rattle.std.specs.Prelude.{◌≡◌, ◌≢◌, ◌≤◌, IfErr, IfOk, OnErr, false, string_bytes, true};
ghost use Rattle.command_files.specs.Files.{IsFree, IsTaken};
ghost use Rattle.controller_tests.specs.Inside.Judging.{Judges, StopsSo, is_failed, verdict_seen};
ghost use Rattle.controller_tests.specs.Verdict.{ComesTo, HasTicks, trace_name};
ghost use Rattle.controller_tests.specs.Outcome.{MakesTrace};
ghost use Rattle.trace_player.specs.Trace.{Good};

use crate::command::loading::{Test, load_test};
use crate::command::saying::{difference_said, fault_said, lack_said};
use crate::{Outcome, beside, test_controller, trace_of};
use command_files::{Files, bytes_of, store_new};
use std::alloc::{AllocError, Global};
use trace_player::PlayFault;

/// What a test comes to.
#[derive(Drop)]
pub(crate) enum Verdict {
    /// The trace beside it is the one that its ticks make.
    Passed,
    /// No trace stood beside it, and the one that its ticks make is written.
    Written,
    /// It fails, and this is said of it.
    Failed(String),
}

// Compares the trace that the ticks of a test make with these bytes.
#[tactic(auto, using(crate::proofs::Verdicts::judged_other, crate::proofs::Verdicts::judged_stopped))]
fn judge(alloc: Global, name: &str, test: &Test, wanted: &[u8]) -> Result<Verdict, AllocError>
    ensures { IfOk result (λ v. Judges name.now
        test.now.bytes.items test.now.image test.now.ticks.items wanted.now (verdict_seen v)) }
{
    match test_controller(alloc, test.image.get(), &test.ticks, wanted)? {
        Outcome::Passed => Ok(Verdict::Passed),
        Outcome::Differs(difference) => {
            Ok(Verdict::Failed(difference_said(alloc, name, test, &difference)?))
        }
        Outcome::Stops(fault) => Ok(Verdict::Failed(fault_said(alloc, name, fault)?)),
    }
}

// Compares the trace that the ticks of a test make with the one beside it.
#[tactic(auto, using(crate::proofs::Verdicts::judged))]
fn compare<F: Files>(
    alloc: Global,
    name: &str,
    writes: bool,
    test: &Test,
    files: &mut F,
) -> Result<Verdict, AllocError>
    requires has { HasTicks (F.contents files.old) name.now test.now.bytes.items test.now.image test.now.ticks.items }
    requires taken { writes ≡ true → IsTaken (F.contents files.old) (trace_name name.now) }
    ensures comes { IfOk result (λ v. ComesTo writes
        (F.contents files.old) (F.contents files.new) name.now (verdict_seen v)) }
    ensures same { F.contents files.new ≡ F.contents files.old }
    ensures none_missed { IfOk result (λ v. is_failed (verdict_seen v) ≡ false
        → F.failures files.new ≡ F.failures files.old) }
    ensures missed { F.failures files.old ≤ F.failures files.new }
{
    let trace_name = beside(alloc, name, ".trace")?;
    match bytes_of(alloc, files, trace_name.as_str()) {
        Ok(wanted) => Ok(judge(alloc, name, test, &wanted)?),
        Err(fault) => Ok(Verdict::Failed(lack_said(alloc, name, &fault)?)),
    }
}

// The trace that the ticks of a test make. Err: what is said of a line that ends it.
#[tactic(auto, using(crate::proofs::Verdicts::stopped_so))]
fn make(alloc: Global, name: &str, test: &Test) -> Result<Result<Vec<u8>, String>, AllocError>
    ensures made { IfOk result (λ made. IfOk made
        (λ trace. MakesTrace test.now.image test.now.ticks.items trace.items Good)) }
    ensures stopped { IfOk result (λ made. IfErr made
        (λ said. StopsSo name.now test.now.image test.now.ticks.items (string_bytes said))) }
{
    match trace_of(alloc, test.image.get(), &test.ticks) {
        Ok(trace) => Ok(Ok(trace)),
        Err(PlayFault::Memory) => Err(AllocError),
        Err(fault) => Ok(Err(fault_said(alloc, name, fault)?)),
    }
}

// Writes the trace that the ticks of a test make, where nothing stands yet.
#[tactic(auto, using(crate::proofs::Verdicts::written, crate::proofs::Verdicts::stopped))]
fn write<F: Files>(
    alloc: Global,
    name: &str,
    test: &Test,
    files: &mut F,
) -> Result<Verdict, AllocError>
    requires has { HasTicks (F.contents files.old) name.now test.now.bytes.items test.now.image test.now.ticks.items }
    requires free { IsFree (F.contents files.old) (trace_name name.now) }
    ensures comes { IfOk result (λ v. ComesTo true
        (F.contents files.old) (F.contents files.new) name.now (verdict_seen v)) }
    ensures untold { OnErr result (F.contents files.new ≡ F.contents files.old) }
    ensures none_missed { IfOk result (λ v. is_failed (verdict_seen v) ≡ false
        → F.failures files.new ≡ F.failures files.old) }
    ensures missed { F.failures files.old ≤ F.failures files.new }
{
    let trace_name = beside(alloc, name, ".trace")?;
    let trace = match make(alloc, name, test)? {
        Ok(trace) => trace,
        Err(said) => return Ok(Verdict::Failed(said)),
    };
    match store_new(alloc, files, trace_name.as_str(), &trace) {
        Ok(()) => Ok(Verdict::Written),
        Err(fault) => Ok(Verdict::Failed(lack_said(alloc, name, &fault)?)),
    }
}

// What a test comes to whose program has an image and ticks.
#[tactic(auto, using(crate::proofs::Verdicts::where_wanted))]
fn settle<F: Files>(
    alloc: Global,
    name: &str,
    writes: bool,
    test: &Test,
    files: &mut F,
) -> Result<Verdict, AllocError>
    requires has { HasTicks (F.contents files.old) name.now test.now.bytes.items test.now.image test.now.ticks.items }
    ensures comes { IfOk result (λ v. ComesTo writes
        (F.contents files.old) (F.contents files.new) name.now (verdict_seen v)) }
    ensures untold { OnErr result (F.contents files.new ≡ F.contents files.old) }
    ensures kept { writes ≢ true → F.contents files.new ≡ F.contents files.old }
    ensures none_missed { IfOk result (λ v. is_failed (verdict_seen v) ≡ false
        → F.failures files.new ≡ F.failures files.old) }
    ensures missed { F.failures files.old ≤ F.failures files.new }
{
    if !writes {
        return compare(alloc, name, false, test, files);
    }
    let trace_name = beside(alloc, name, ".trace")?;
    if files.is_free(trace_name.as_str()) {
        Ok(write(alloc, name, test, files)?)
    } else {
        Ok(compare(alloc, name, true, test, files)?)
    }
}

/// What the test of this name comes to. Where traces are to be written and nothing stands where its own does, that is
/// written. Err: memory was refused, and no file changed.
pub(crate) fn try_test<F: Files>(
    alloc: Global,
    name: &str,
    writes: bool,
    files: &mut F,
) -> Result<Verdict, AllocError>
    ensures comes { IfOk result (λ v. ComesTo writes
        (F.contents files.old) (F.contents files.new) name.now (verdict_seen v)) }
    ensures untold { OnErr result (F.contents files.new ≡ F.contents files.old) }
    ensures kept { writes ≢ true → F.contents files.new ≡ F.contents files.old }
    ensures none_missed { IfOk result (λ v. is_failed (verdict_seen v) ≡ false
        → F.failures files.new ≡ F.failures files.old) }
    ensures missed { F.failures files.old ≤ F.failures files.new }
{
    match load_test(alloc, name, files) {
        Ok(test) => Ok(settle(alloc, name, writes, &test, files)?),
        Err(fault) => Ok(Verdict::Failed(lack_said(alloc, name, &fault)?)),
    }
}
