//! What is opened of bytes and of texts.

ghost use Rattle.std.specs.Prelude.{◌≡◌, IfErr, IfOk, string_bytes};
ghost use Rattle.sc_text.specs.declared.language.Language.TheVariants as language;
ghost use Rattle.sc_text.specs.FirstToken.{IsIn};
ghost use Rattle.command_files.specs.Sources.{BytesLackCompiled, BytesLackImage, TextLacksProgram};
ghost use Rattle.embedded_machine.specs.Opened.{no_states};
ghost use Rattle.embedded_machine.specs.Ticks.{SpellValid};
ghost use Rattle.embedded_machine.specs.Texts.{AreOfChart, AreStatesOf, IsNoImageOf, IsOpenedAuthored, IsOpenedSource};
ghost use Rattle.embedded_machine.specs.Texts.{IsOpenedText, told_by};

use crate::texts::images::verified_image;
use crate::{Opened, StateTable};
use author_states::{AuthorStates, Authored, authored_source};
use chart_reader::read_chart;
use command_files::{LoadFault, compile_bytes, text_of};
use compiler::CompileFault;
use sc_text::{Language, language_of};
use std::alloc::{AllocError, Global};

/// What these bytes spell as an image, in either version of the layout; nothing is known of a chart. Err: they spell
/// none, or why it is not valid; or memory was refused.
pub fn opened_image(alloc: Global, bytes: &[u8]) -> Result<Opened, LoadFault>
    ensures valid { IfOk result (λ o. SpellValid bytes.now o.image) }
    ensures states { IfOk result (λ o. o.states ≡ no_states) }
{
    let verified = verified_image(alloc, bytes)?;
    Ok(Opened::of(verified, StateTable::none(alloc)))
}

/// The image of the program, or of the chart, that this text spells, with the states of the chart; of an extended
/// chart's, the image of the chart to which it is reduced, with the states of its author. Err: it spells none, or why
/// it has no image; or memory was refused.
#[tactic(auto, using(crate::proofs::Refused::none_as_written, crate::proofs::Refused::none_authored, crate::proofs::Told::own, crate::proofs::Told::extended))]
pub fn opened_text(alloc: Global, text: &[u8]) -> Result<Opened, LoadFault>
    ensures opened { IfOk result (IsOpenedText text.now) }
    ensures fault { IfErr result (IsNoImageOf text.now) }
{
    match authored_source(alloc, text)? {
        Some(authored) => opened_authored(alloc, authored),
        None => opened_source(alloc, text),
    }
}

// The image of the chart to which an extended chart is reduced, with the states of its author.
#[tactic(auto, using(command_files::proofs::Lacking::lacks_image, crate::proofs::Told::authored))]
fn opened_authored(alloc: Global, authored: Authored) -> Result<Opened, LoadFault>
    ensures opened { IfOk result (IsOpenedAuthored (string_bytes authored.source) authored.states) }
    ensures fault { IfErr result (BytesLackImage (string_bytes authored.source)) }
{
    let Authored { source, states } = authored;
    let opened = opened_source(alloc, source.as_bytes());
    drop(source);
    match opened {
        Ok(reduced) => Ok(with_authors(alloc, reduced, states)?),
        Err(fault) => {
            drop(states);
            Err(fault)
        }
    }
}

// The same image, with the states of its author.
fn with_authors(alloc: Global, reduced: Opened, states: AuthorStates) -> Result<Opened, AllocError>
    ensures { IfOk result (λ o. o ≡ told_by states reduced) }
{
    match states.past(alloc, reduced.states().nodes()) {
        Ok(nodes) => {
            let named = StateTable::named(nodes, states.into_paths());
            Ok(reduced.with_states(named))
        }
        Err(error) => {
            drop(reduced);
            drop(states);
            Err(error)
        }
    }
}

// The image of what this source spells, with the states of its chart.
fn opened_source(alloc: Global, bytes: &[u8]) -> Result<Opened, LoadFault>
    ensures opened { IfOk result (IsOpenedSource bytes.now) }
    ensures fault { IfErr result (BytesLackCompiled bytes.now) }
{
    let verified = compile_bytes(alloc, bytes)?;
    match states_of_bytes(alloc, bytes) {
        Ok(states) => Ok(Opened::of(verified, states)),
        Err(fault) => {
            drop(verified);
            Err(fault)
        }
    }
}

// The states of the chart that these bytes spell; none where they spell a program.
fn states_of_bytes(alloc: Global, bytes: &[u8]) -> Result<StateTable, LoadFault>
    ensures states { IfOk result (AreStatesOf bytes.now) }
    ensures fault { IfErr result (BytesLackCompiled bytes.now) }
{
    let text = text_of(bytes)?;
    states_of(alloc, text)
}

// The states of the chart that a text spells; none where it spells a program. Err: the first fault of the chart's
// text, or why it is not expanded; or memory was refused.
fn states_of(alloc: Global, text: &str) -> Result<StateTable, LoadFault>
    ensures states { IfOk result (AreStatesOf text.now) }
    ensures fault { IfErr result (TextLacksProgram text.now) }
{
    match language_of(text) {
        Language::Chart => states_in(alloc, text),
        Language::Scl => Ok(StateTable::none(alloc)),
    }
}

// The states of the chart that a text spells.
fn states_in(alloc: Global, text: &str) -> Result<StateTable, LoadFault>
    requires { IsIn text.now language.Chart }
    ensures states { IfOk result (AreOfChart text.now) }
    ensures fault { IfErr result (TextLacksProgram text.now) }
{
    let chart = match read_chart(alloc, text) {
        Ok(chart) => chart,
        Err(fault) => return Err(LoadFault::Text(fault)),
    };
    match StateTable::of_chart(alloc, &chart) {
        Ok(states) => Ok(states),
        Err(fault) => Err(LoadFault::Program(CompileFault::Expansion(fault))),
    }
}
