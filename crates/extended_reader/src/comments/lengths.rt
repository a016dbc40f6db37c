//! The block comment at the front of a text.

ghost use Rattle.std.specs.Prelude.{IsFalse, MatchOption};
ghost use Rattle.extended_reader.specs.Comments.{TakesComment, begins_comment, is_closed};
ghost use Rattle.extended_reader.specs.Inside.Comments.{Ends};
ghost use Rattle.extended_reader.specs.declared.comments.part.Part.TheVariants as part;

use crate::comments::part::Part;

/// How many bytes the block comment has with which a text begins. None: it begins with none that is closed.
pub fn comment_length(text: &[u8]) -> Option<usize>
    ensures { MatchOption result (IsFalse (begins_comment text.now)) (λ n. TakesComment text.now n) }
{
    match text {
        [b'/', b'*', behind @ ..] => {
            let rest = rest_length(behind)?;
            Some(rest + 2)
        }
        _ => None,
    }
}

// How many of these bytes of a block comment end it. None: it is not closed.
fn rest_length(bytes: &[u8]) -> Option<usize>
    ensures { MatchOption result (IsFalse (is_closed part.Block bytes.now)) (λ n. Ends bytes.now n) }
{
    let mut part = Part::Block;
    for (i, byte) in bytes.iter().enumerate() {
        if part.ends(*byte) {
            return Some(i + 1);
        }
        part = part.behind(*byte);
    }
    None
}
