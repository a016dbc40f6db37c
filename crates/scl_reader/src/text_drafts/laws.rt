//! Laws that no single function says.

ghost use Rattle.scl_reader.specs.DraftLaws.{TextsAreTold, DraftsAreShaped};

/// Reading the tokens of a text by the grammar of SCL tells what they spell, exactly where they spell a
/// program, and else their one fault: a token after which no program can go on, the end where none may end,
/// or a token with which only programs go on that are nested too deep. This function does nothing; its
/// contract is the law.
pub fn scl_texts_are_told()
    ensures { TextsAreTold }
{}

/// Each draft of a text keeps what the grammar alone gives: its names are no reserved words, its expressions can be
/// written again, each fork has a branch, and forks and ifs stand in one another no deeper than their limits allow.
/// This function does nothing; its contract is the law.
pub fn scl_drafts_are_shaped()
    ensures { DraftsAreShaped }
{}
