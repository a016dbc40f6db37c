//! Laws that no single function says.

ghost use Rattle.extended_reader.specs.DraftLaws.{TextsAreTold, DraftsAreShaped};

/// Reading the tokens of a text by the grammar of extended charts tells what they spell, exactly where they spell an
/// extended chart, and else their one fault: a token after which none can go on, the end where none may end, or a
/// token with which only extended charts go on that are nested too deep. This function does nothing; its contract is
/// the law.
pub fn extended_texts_are_told()
    ensures { TextsAreTold }
{}

/// Each draft of an extended text keeps what the grammar alone gives: its core keeps what the draft of a chart does,
/// and beside it stand as many items, and as many rows of actions and of what is new of transitions, as it has
/// variables, states and transitions.
/// This function does nothing; its contract is the law.
pub fn extended_drafts_are_shaped()
    ensures { DraftsAreShaped }
{}
