//! Laws that no single function says.

ghost use Rattle.chart_reader.specs.DraftLaws.{TextsAreTold, DraftsAreShaped};

/// Reading the tokens of a text by the grammar of charts tells what they spell, exactly where they spell a
/// chart, and else their one fault: a token after which no chart can go on, the end where none may end, or a
/// token with which only charts go on that are nested too deep. This function does nothing; its contract is
/// the law.
pub fn chart_texts_are_told()
    ensures { TextsAreTold }
{}

/// Each draft of a text keeps what the grammar alone gives: its parts have names of charts, its expressions can be
/// written again, a termination has no trigger, there is a region, and regions stand in one another no deeper than
/// their limit allows. This function does nothing; its contract is the law.
pub fn chart_drafts_are_shaped()
    ensures { DraftsAreShaped }
{}
