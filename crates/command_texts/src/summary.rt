//! The line that says of an image that it is good.

ghost use Rattle.command_files.specs.Counting.{files_failed};
ghost use Rattle.command_files.specs.Images.{FileLacksImage};
ghost use Rattle.command_texts.specs.Summary.{IsSummaryIn, summary_line, summary_of};
ghost use Rattle.std.specs.Prelude.{◌≡◌, ◌+◌, IfErr, IfOk, OnOk, string_bytes};

use bytecode::Image;
use command_files::{Files, LoadFault, load_verified};
use std::alloc::{AllocError, Global};

// The line for these counts and this budget.
fn summary_line(
    alloc: Global,
    nodes: usize,
    threads: usize,
    budget: u32,
) -> Result<String, AllocError>
    ensures { IfOk result (λ line. string_bytes line ≡ summary_line nodes threads budget) }
{
    format!(in alloc; "ok nodes={nodes} threads={threads} budget={budget}\n")
}

/// The line that says of an image that it is good, with its numbers of nodes and threads and its
/// budget. Err: memory was refused.
pub fn summary_of(alloc: Global, image: &Image) -> Result<String, AllocError>
    ensures { IfOk result (λ line. string_bytes line ≡ summary_of image.now) }
{
    let program = image.program();
    summary_line(
        alloc,
        program.nodes().len(),
        program.threads().len(),
        image.tables().budget,
    )
}

/// The summary of the image in this file. Err: there is no valid image in the file.
pub(crate) fn summary_in<F: Files>(
    alloc: Global,
    name: &str,
    files: &mut F,
) -> Result<Vec<u8>, LoadFault>
    ensures made { IfOk result (λ text. IsSummaryIn (F.contents files.old) name.now text.items) }
    ensures lacks { IfErr result (FileLacksImage (F.contents files.old) name.now) }
    ensures same { F.contents files.new ≡ F.contents files.old }
    ensures none_failed { OnOk result (F.failures files.new ≡ F.failures files.old) }
    ensures failed { IfErr result (λ fault. F.failures files.new ≡ F.failures files.old + files_failed fault) }
{
    let image = load_verified(alloc, files, name)?;
    let line = summary_of(alloc, image.get().image())?;
    Ok(line.into_bytes())
}
