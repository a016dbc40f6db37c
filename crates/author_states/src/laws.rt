//! A law that no single function says.

ghost use Rattle.author_states.specs.Own.{AuthorsStay};

/// Each state of the author's is one of the reduced chart's, in the order of his text and by its path there, and one
/// alone stands for it. All else is made. This function does nothing; its contract is the law.
pub fn authors_stay()
    ensures { AuthorsStay }
{}
