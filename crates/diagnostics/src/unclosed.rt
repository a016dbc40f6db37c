//! What was opened in a text and not closed.

use sc_text::{Language, Sign, Token, TokenKind, tokens};
use std::alloc::Global;

// The place of the last of these tokens that opens what none of them closes.
fn open_in(tokens: &[Token]) -> Option<usize> {
    let mut closed: usize = 0;
    for token in tokens.iter().rev() {
        match token.kind {
            TokenKind::Sign(Sign::CloseBrace | Sign::CloseParenthesis) => {
                closed = closed.saturating_add(1);
            }
            TokenKind::Sign(Sign::OpenBrace | Sign::OpenParenthesis) => {
                if closed == 0 {
                    return Some(token.at);
                }
                closed = closed.saturating_sub(1);
            }
            _ => {}
        }
    }
    None
}

/// The byte of the last `{` or `(` that these bytes of a text open and do not close. None: there is none, or they are
/// no list of tokens; or memory was refused.
pub(crate) fn last_open(alloc: Global, language: Language, front: &str) -> Option<usize> {
    match tokens(alloc, language, front) {
        Ok(tokens) => open_in(tokens.as_slice()),
        Err(_) => None,
    }
}
