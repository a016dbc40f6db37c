//! What can follow the bytes before a place of a text.

ghost use Rattle.std.specs.Prelude.{◌≡◌, ◌↔◌, IfOk, IsTrue, OnOk};
ghost use Rattle.sc_text.specs.Words.{word_text, sign_text};
ghost use Rattle.diagnostics.specs.Continuations.{AreContinuations, AreThose, CanFollow, all_signs, all_words};
ghost use Rattle.diagnostics.specs.Continuations.{is_of_grammar};
ghost use Rattle.diagnostics.specs.Inside.CouldFollow.{Adds, IsStop};

use crate::could_follow::faults::fault_of;
use crate::could_follow::grammars::Grammar;
use sc_text::{FaultKind, Sign, Word};
use sqlite_items::Items;
use std::alloc::{AllocError, Global};

const WORDS: [Word; 30] = [
    Word::Chart,
    Word::Scl,
    Word::Input,
    Word::Output,
    Word::Local,
    Word::Bool,
    Word::Int,
    Word::Region,
    Word::Initial,
    Word::Final,
    Word::State,
    Word::Immediate,
    Word::If,
    Word::Do,
    Word::Go,
    Word::Strong,
    Word::Weak,
    Word::Join,
    Word::Else,
    Word::Goto,
    Word::Fork,
    Word::Par,
    Word::Pause,
    Word::True,
    Word::False,
    Word::Not,
    Word::And,
    Word::Or,
    Word::Min,
    Word::Max,
];

const SIGNS: [Sign; 20] = [
    Sign::Becomes,
    Sign::Arrow,
    Sign::OpenBrace,
    Sign::CloseBrace,
    Sign::OpenParenthesis,
    Sign::CloseParenthesis,
    Sign::Semicolon,
    Sign::Colon,
    Sign::Comma,
    Sign::Plus,
    Sign::Minus,
    Sign::Star,
    Sign::Slash,
    Sign::Percent,
    Sign::Equal,
    Sign::NotEqual,
    Sign::Less,
    Sign::LessOrEqual,
    Sign::Greater,
    Sign::GreaterOrEqual,
];

/// What can follow the bytes before a place: whether a name, whether a number, and which words and signs.
#[derive(Drop)]
pub struct Continuations {
    pub name: bool,
    pub number: bool,
    pub words: Items<Word>,
    pub signs: Items<Sign>,
}

/// Whether a piece can follow the bytes of a text of this grammar up to a place where a token may begin. Err: memory
/// was refused.
#[tactic(auto, using(crate::proofs::Following::follows))]
pub fn can_follow(
    alloc: Global,
    grammar: Grammar,
    front: &str,
    piece: &str,
) -> Result<bool, AllocError>
    ensures { IfOk result (λ can. IsTrue can ↔ CanFollow grammar front.now piece.now) }
{
    let text = format!(in alloc; "{front} {piece}")?;
    let at = front.len() + 1;
    let fault = fault_of(alloc, grammar, text.as_str())?;
    Ok(!is_stop(fault, at))
}

// Whether a text with this broken cannot go on.
fn is_of_grammar(broken: FaultKind) -> bool
    ensures { result ≡ is_of_grammar broken }
{
    match broken {
        FaultKind::Grammar | FaultKind::Limit => true,
        _ => false,
    }
}

// Whether a text of this fault cannot go on with what stands at a place.
fn is_stop(fault: Option<(FaultKind, usize)>, at: usize) -> bool
    ensures { IsTrue result ↔ IsStop fault at }
{
    match fault {
        Some((broken, place)) => place == at && is_of_grammar(broken),
        None => false,
    }
}

// Adds a word, where it can follow.
fn add_word(
    alloc: Global,
    grammar: Grammar,
    front: &str,
    word: Word,
    found: &mut Items<Word>,
) -> Result<(), AllocError>
    ensures { OnOk result (Adds (λ w. CanFollow grammar front.now (word_text w)) word found.old found.new) }
{
    if can_follow(alloc, grammar, front, word.text())? {
        found.push(word)?;
    }
    Ok(())
}

// Adds a sign, where it can follow.
fn add_sign(
    alloc: Global,
    grammar: Grammar,
    front: &str,
    sign: Sign,
    found: &mut Items<Sign>,
) -> Result<(), AllocError>
    ensures { OnOk result (Adds (λ s. CanFollow grammar front.now (sign_text s)) sign found.old found.new) }
{
    if can_follow(alloc, grammar, front, sign.text())? {
        found.push(sign)?;
    }
    Ok(())
}

// Which words can follow.
fn words(alloc: Global, grammar: Grammar, front: &str) -> Result<Items<Word>, AllocError>
    ensures { IfOk result (AreThose (λ w. CanFollow grammar front.now (word_text w)) all_words) }
{
    let mut found = Items::new(alloc);
    for word in WORDS {
        add_word(alloc, grammar, front, word, &mut found)?;
    }
    Ok(found)
}

// Which signs can follow.
fn signs(alloc: Global, grammar: Grammar, front: &str) -> Result<Items<Sign>, AllocError>
    ensures { IfOk result (AreThose (λ s. CanFollow grammar front.now (sign_text s)) all_signs) }
{
    let mut found = Items::new(alloc);
    for sign in SIGNS {
        add_sign(alloc, grammar, front, sign, &mut found)?;
    }
    Ok(found)
}

/// What can follow the bytes of a text of this grammar up to a place where a token may begin. Reads the text before
/// the place some fifty times. Err: memory was refused.
pub fn continuations_of(
    alloc: Global,
    grammar: Grammar,
    front: &str,
) -> Result<Continuations, AllocError>
    ensures { IfOk result (AreContinuations grammar front.now) }
{
    let name = can_follow(alloc, grammar, front, "x")?;
    let number = can_follow(alloc, grammar, front, "1")?;
    let words = words(alloc, grammar, front)?;
    let signs = signs(alloc, grammar, front)?;
    Ok(Continuations {
        name,
        number,
        words,
        signs,
    })
}
