//! What a line says.

ghost use Rattle.std.specs.Prelude.{◌≡◌, ◌++◌, ◌∷◌, ℕ, List, IfOk, OnOk, false, string_bytes};
ghost use Rattle.simulation.specs.Commands.{is_object, said, word_said};
ghost use Rattle.simulation.specs.Words.{members_of, member_text, name_in, object_of, value_in, words_in};

use crate::cutting::cut;
use std::alloc::{AllocError, Global};
use trace_lines::quoted;

/// What a line says.
#[derive(Clone, Copy)]
pub enum Command {
    /// Nothing: a tick without inputs.
    Nothing,
    /// One tick back.
    Undo,
    /// Back to the beginning.
    Reset,
    /// To print the lines of all ticks.
    Ticks,
    /// To tell what can be said.
    Help,
    /// That this is the end.
    Quit,
    /// A tick with the inputs of a JSON object.
    Object,
    /// A tick with the inputs of words.
    Words,
}

/// What a text says, around which there are no blanks.
pub(crate) fn said(text: &str) -> Command
    ensures { result ≡ said text.now }
{
    if text.is_empty() {
        Command::Nothing
    } else if is_object(text) {
        Command::Object
    } else {
        word_said(text)
    }
}

fn is_object(text: &str) -> bool
    ensures { result ≡ is_object text.now }
{
    match text.as_bytes() {
        [first, ..] => *first == b'{',
        _ => false,
    }
}

fn word_said(text: &str) -> Command
    ensures { result ≡ word_said text.now }
{
    if text == "undo" {
        Command::Undo
    } else if text == "reset" {
        Command::Reset
    } else if text == "ticks" {
        Command::Ticks
    } else if text == "help" {
        Command::Help
    } else if text == "quit" {
        Command::Quit
    } else {
        Command::Words
    }
}

// The name of the input that a word gives, and its value.
#[tactic(auto, using(crate::proofs::Split::parts_split, crate::proofs::Split::parts_whole))]
fn parts(word: &str) -> (&str, &str)
    ensures { (result.0.now ≡ name_in word.now) × (result.1.now ≡ value_in word.now) }
{
    match cut(word, '=') {
        Some(parts) => parts,
        None => (word, "true"),
    }
}

// Puts the member that a word makes behind an object.
fn put_member(alloc: Global, object: &mut String, word: &str) -> Result<(), AllocError>
    ensures { OnOk result (string_bytes object.new ≡ string_bytes object.old ++ member_text word.now) }
{
    let (name, value) = parts(word);
    let name = quoted(alloc, name)?;
    object.push_str(name.as_str())?;
    object.push_str(":")?;
    object.push_str(value)
}

// Puts what a word makes behind an object, and tells whether there is a member now.
#[tactic(auto, using(crate::proofs::Split::one_word, crate::proofs::Split::no_word))]
fn put_word(alloc: Global, object: &mut String, word: &str, later: bool) -> Result<bool, AllocError>
    ensures { IfOk result (λ more. (rest : List (List ℕ)) → string_bytes object.new ++ members_of more rest
        ≡ string_bytes object.old ++ members_of later (word.now ∷ rest)) }
{
    if word.is_empty() {
        return Ok(later);
    }
    if later {
        object.push_str(",")?;
    }
    put_member(alloc, object, word)?;
    Ok(true)
}

// Puts what words make behind an object.
#[tactic(auto, using(crate::proofs::Split::word_put, crate::proofs::Split::last_put, crate::proofs::Split::shorter))]
fn put_words(alloc: Global, object: &mut String, words: &str) -> Result<(), AllocError>
    ensures { OnOk result (string_bytes object.new ≡ string_bytes object.old ++ members_of false (words_in words.now)) }
{
    let mut rest = words;
    let mut later = false;
    loop {
        match cut(rest, ' ') {
            Some((word, behind)) => {
                later = put_word(alloc, object, word, later)?;
                rest = behind;
            }
            None => {
                let _ = put_word(alloc, object, rest, later)?;
                return Ok(());
            }
        }
    }
}

/// The JSON object of words, each of which is the name of an input, which is true then, or has a value behind `=`.
pub(crate) fn object_of(alloc: Global, words: &str) -> Result<String, AllocError>
    ensures { IfOk result (λ object. string_bytes object ≡ object_of words.now) }
{
    let mut object = String::from_str(alloc, "{")?;
    put_words(alloc, &mut object, words)?;
    object.push_str("}")?;
    Ok(object)
}
