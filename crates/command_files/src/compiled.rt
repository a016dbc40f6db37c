//! The image of the program that bytes spell.

ghost use Rattle.std.specs.Prelude.{◌≡◌, IfErr, IfOk};
ghost use Rattle.command_files.specs.Sources.{BytesLackCompiled, SpellsImage};

use crate::fault::LoadFault;
use crate::source::read_bytes;
use compiler::{ReadSource, compile_source};
use sqlite_items::Boxed;
use std::alloc::Global;
use verifier::Verified;

/// Why bytes have no image; and where they are a text with an SCL program, the text as it was read, with the graph of
/// that where it has one.
#[derive(Drop)]
pub struct Unmade<'a> {
    pub fault: LoadFault,
    pub source: Option<Boxed<ReadSource<'a>>>,
}

impl<'a> Unmade<'a> {
    /// Nothing was read, for this fault.
    pub fn unread(fault: LoadFault) -> Unmade<'a>
        ensures { result.fault ≡ fault }
    {
        Unmade {
            fault,
            source: None,
        }
    }

    /// The text as it was read.
    pub fn source(&self) -> Option<&ReadSource<'a>> {
        match &self.source {
            Some(source) => Some(source.get()),
            None => None,
        }
    }
}

/// The image of the program that these bytes spell, or of that of the chart that they spell. Err: they spell no
/// program, or why it has no image, with the text as it was read.
pub fn compile_read<'a>(alloc: Global, bytes: &'a [u8]) -> Result<Verified, Unmade<'a>>
    ensures compiled { IfOk result (SpellsImage bytes.now) }
    ensures fault { IfErr result (λ unmade. BytesLackCompiled bytes.now unmade.fault) }
{
    let source = match read_bytes(alloc, bytes) {
        Ok(source) => source,
        Err(fault) => return Err(Unmade::unread(fault)),
    };
    match compile_source(alloc, source) {
        Ok(image) => Ok(image),
        Err(uncompiled) => Err(Unmade {
            fault: LoadFault::Program(uncompiled.fault),
            source: uncompiled.source,
        }),
    }
}

/// The image of the program that these bytes spell, or of that of the chart that they spell. Err: they spell no
/// program, or why it has no image.
pub fn compile_bytes(alloc: Global, bytes: &[u8]) -> Result<Verified, LoadFault>
    ensures compiled { IfOk result (SpellsImage bytes.now) }
    ensures fault { IfErr result (BytesLackCompiled bytes.now) }
{
    match compile_read(alloc, bytes) {
        Ok(image) => Ok(image),
        Err(unmade) => Err(unmade.fault),
    }
}
