//! What places tell.

ghost use Rattle.node_sources.specs.ChartLaws.{PlacedTextsHaveOneAnswer, PlacesTellTexts};

/// Of each draft of a text, and the chart that it is: there are as many places as elements, and at each place stands
/// the token that begins the element that has it, the name of a region and of a state, the word of a transition, the
/// name of an effect's variable. This function does nothing; its contract is the law.
pub fn places_tell_texts()
    ensures { PlacesTellTexts }
{}

/// Each text has one answer: one chart with one place for each of its elements, or one fault, and not both. So what
/// `read_placed` answers, unless memory was refused, is all that can be said of the text. This function does nothing;
/// its contract is the law.
pub fn placed_texts_have_one_answer()
    ensures { PlacedTextsHaveOneAnswer }
{}
