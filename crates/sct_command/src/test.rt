//! The verb `test`.

ghost use Rattle.std.specs.Prelude.{◌≡◌, ◌≢◌, ◌+◌, ◌≤◌, IfErr, OnOk, map, string_bytes, true};
ghost use Rattle.sct_command.specs.Failing.{files_failed, reads_failed, writes_failed};
ghost use Rattle.sct_command.specs.Testing.{RefusesTests, TestsPass};

use crate::fault::Fault;
use crate::writing::write_bytes;
use command_files::Files;
use controller_tests::try_tests;
use sc_values::Sink;
use std::alloc::Global;

/// Tries the tests that words name, which are files or folders of them: compiles each text, plays the ticks beside it,
/// and compares the trace with the one beside it, or, where `writes` and that is missing, writes it. Tells of each, and
/// last how many there are. Err: some fail; memory was refused; or the output failed.
#[tactic(auto, using(crate::proofs::Tests::all_passed, crate::proofs::Tests::some_failed, crate::proofs::Tests::told_in_part))]
pub(crate) fn test_files<F: Files, W: Sink>(
    alloc: Global,
    writes: bool,
    words: &[String],
    files: &mut F,
    output: &mut W,
) -> Result<(), Fault>
    ensures done { OnOk result (TestsPass writes (F.contents files.old) (F.contents files.new)
        (map string_bytes words.now) (W.taken output.old) (W.taken output.new)) }
    ensures refused { IfErr result (RefusesTests writes (F.contents files.old) (F.contents files.new)
        (map string_bytes words.now) (W.taken output.old) (W.taken output.new)) }
    ensures none_failed { OnOk result (W.failures output.new ≡ W.failures output.old) }
    ensures failed { IfErr result (λ fault. W.failures output.new ≡ W.failures output.old + writes_failed fault) }
    ensures files { writes ≢ true → F.contents files.new ≡ F.contents files.old }
    ensures unread { IfErr result (λ fault. reads_failed fault ≡ 0) }
    ensures none_missed { OnOk result (F.failures files.new ≡ F.failures files.old) }
    ensures missed { IfErr result (λ fault. F.failures files.old + files_failed fault ≤ F.failures files.new) }
{
    let (told, failed) = try_tests(alloc, writes, words, files)?;
    write_bytes(output, told.as_bytes())?;
    if failed == 0 {
        Ok(())
    } else {
        Err(Fault::Tests)
    }
}
