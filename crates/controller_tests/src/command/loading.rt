//! A test without its trace: a program with its image, and the ticks beside its text.

ghost use Rattle.std.specs.Prelude.{◌≡◌, ◌≤◌, IfErr, IfOk, OnOk};
ghost use Rattle.command_files.specs.Files.{HasBytes};
ghost use Rattle.command_files.specs.Images.{FileLacksImage};
ghost use Rattle.controller_tests.specs.Verdict.{HasTicks, LacksTicks};
ghost use Rattle.controller_tests.specs.Names.{beside};

use crate::beside;
use command_files::{Files, LoadFault, bytes_of};
use image_charts::compile_written;
use sqlite_items::Boxed;
use std::alloc::Global;
use verifier::Verified;

/// What is written as a program's text, with its image, and the ticks that are played by it.
#[derive(Drop)]
pub(crate) struct Test {
    pub(crate) bytes: Vec<u8>,
    pub(crate) image: Boxed<Verified>,
    pub(crate) ticks: Vec<u8>,
}

// The bytes of the file beside this one whose name ends so. Err: it could not be read; or memory was refused.
fn bytes_beside<F: Files>(
    alloc: Global,
    name: &str,
    ending: &str,
    files: &mut F,
) -> Result<Vec<u8>, LoadFault>
    ensures bytes { IfOk result (λ bytes. HasBytes (F.contents files.old) (beside name.now ending.now) bytes.items) }
    ensures fault { IfErr result (FileLacksImage (F.contents files.old) (beside name.now ending.now)) }
    ensures same { F.contents files.new ≡ F.contents files.old }
    ensures none_missed { OnOk result (F.failures files.new ≡ F.failures files.old) }
    ensures missed { F.failures files.old ≤ F.failures files.new }
{
    let other = beside(alloc, name, ending)?;
    bytes_of(alloc, files, other.as_str())
}

/// The test of the program in the file of this name. Err: there is no image of it, or there are no ticks beside it.
#[tactic(auto, using(crate::proofs::Verdicts::no_source, crate::proofs::Verdicts::no_image, crate::proofs::Verdicts::no_ticks, crate::proofs::Verdicts::has_ticks))]
pub(crate) fn load_test<F: Files>(
    alloc: Global,
    name: &str,
    files: &mut F,
) -> Result<Test, LoadFault>
    ensures has { IfOk result (λ t. HasTicks (F.contents files.old) name.now t.bytes.items t.image t.ticks.items) }
    ensures lacks { IfErr result (LacksTicks (F.contents files.old) name.now) }
    ensures same { F.contents files.new ≡ F.contents files.old }
    ensures none_missed { OnOk result (F.failures files.new ≡ F.failures files.old) }
    ensures missed { F.failures files.old ≤ F.failures files.new }
{
    let bytes = bytes_of(alloc, files, name)?;
    let compiled = compile_written(alloc, &bytes)?;
    let image = Boxed::new(alloc, compiled)?;
    let ticks = bytes_beside(alloc, name, ".ticks", files)?;
    Ok(Test {
        bytes,
        image,
        ticks,
    })
}
