//! The names and words of declarations, one token each.

ghost use Rattle.std.specs.Prelude.{◌≡◌, [], ◌∷◌};
ghost use Rattle.grammar.specs.Read.{starts};
ghost use Rattle.sc_text.specs.Classes.{AName, class_of, same_class};
ghost use Rattle.sc_text.specs.Expression.{text_tokens};
ghost use Rattle.sc_text.specs.DraftParts.{kind_of, kinds, role_of, roles};

use crate::ahead::word_follows;
use crate::{Token, TokenKind, Word};
use sc_graph::Role;
use sc_values::Kind;

/// Whether a name is next.
pub fn name_follows(tokens: &[Token]) -> bool
    ensures { result ≡ starts text_tokens (AName ∷ []) tokens.now }
{
    match tokens {
        [] => false,
        [next, ..] => is_name(next.kind),
    }
}

fn is_name(kind: TokenKind) -> bool
    ensures { result ≡ same_class AName (class_of kind) }
{
    match kind {
        TokenKind::Name(_) => true,
        TokenKind::Number(_) | TokenKind::Word(_) | TokenKind::Sign(_) => false,
    }
}

/// Whether a declaration is next.
pub fn role_follows(tokens: &[Token]) -> bool
    ensures { result ≡ starts text_tokens roles tokens.now }
{
    word_follows(tokens, Word::Input)
        || word_follows(tokens, Word::Output)
        || word_follows(tokens, Word::Local)
}

/// What a variable is declared as by the word that is this token.
pub fn role_of(kind: TokenKind) -> Role
    ensures { result ≡ role_of kind }
{
    match kind {
        TokenKind::Word(Word::Input) => Role::Input,
        TokenKind::Word(Word::Output) => Role::Output,
        _ => Role::Local,
    }
}

/// Whether the kind of a variable is next.
pub fn kind_follows(tokens: &[Token]) -> bool
    ensures { result ≡ starts text_tokens kinds tokens.now }
{
    word_follows(tokens, Word::Bool) || word_follows(tokens, Word::Int)
}

/// The kind of which a variable is declared by the word that is this token.
pub fn kind_of(kind: TokenKind) -> Kind
    ensures { result ≡ kind_of kind }
{
    match kind {
        TokenKind::Word(Word::Bool) => Kind::Bool,
        _ => Kind::Int,
    }
}
