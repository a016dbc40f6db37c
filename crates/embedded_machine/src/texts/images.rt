//! Images from texts and from bytes.

ghost use Rattle.std.specs.Prelude.{◌≡◌, IfErr, IfOk};
ghost use Rattle.command_files.specs.Sources.{BytesLackImage};
ghost use Rattle.embedded_machine.specs.Texts.{IsNoImageOf, SpellsItsImage, SpellsSourceImage};
ghost use Rattle.embedded_machine.specs.Ticks.{SpellValid};

use bytecode::{decode_either, encode};
use command_files::{LoadFault, compile_bytes, reduced_source};
use std::alloc::Global;
use verifier::{Verified, verify};

/// The bytes of the image of the program, or of the chart, that this text spells, in version 2 of the layout; of an
/// extended chart's, that of the chart to which it is reduced. Err: it spells none, or why it has no image; or memory
/// was refused.
pub fn image_of_text(alloc: Global, text: &[u8]) -> Result<Vec<u8>, LoadFault>
    ensures compiled { IfOk result (λ bytes. SpellsItsImage text.now bytes.items) }
    ensures fault { IfErr result (λ fault. IsNoImageOf text.now fault) }
{
    match reduced_source(alloc, text)? {
        Some(source) => image_of_source(alloc, source.as_bytes()),
        None => image_of_source(alloc, text),
    }
}

// The bytes of the image of what this source spells.
#[tactic(auto, using(command_files::proofs::Lacking::lacks_image))]
fn image_of_source(alloc: Global, source: &[u8]) -> Result<Vec<u8>, LoadFault>
    ensures compiled { IfOk result (λ bytes. SpellsSourceImage source.now bytes.items) }
    ensures fault { IfErr result (λ fault. BytesLackImage source.now fault) }
{
    let verified = compile_bytes(alloc, source)?;
    let encoded = encode(alloc, verified.image());
    drop(verified);
    Ok(encoded?)
}

/// The valid image that these bytes spell, in either version of the layout. Err: they spell none, or why it is not
/// valid; or memory was refused.
pub fn verified_image(alloc: Global, bytes: &[u8]) -> Result<Verified, LoadFault>
    ensures { IfOk result (SpellValid bytes.now) }
{
    match decode_either(alloc, bytes) {
        Ok(image) => match verify(alloc, image) {
            Ok(verified) => Ok(verified),
            Err(refusal) => Err(LoadFault::Rule(refusal)),
        },
        Err(fault) => Err(LoadFault::Image(fault)),
    }
}
