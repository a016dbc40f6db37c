//! Laws that no single function says.

ghost use Rattle.sc_text.specs.Laws.{ExpressionsAreTold, TextsAreCutOnce};

/// Reading the tokens of a text by the grammar of expressions tells the one expression that they spell,
/// exactly where they spell one, and else their one fault: a token after which no expression can go on,
/// the end where none may end, or a token with which only expressions go on that are nested too deep.
/// An expression that begins a longer text is read up to a token by which it can't go on. This function
/// does nothing; its contract is the law.
pub fn expressions_are_told()
    ensures { ExpressionsAreTold }
{}

/// A text has one list of tokens, or one first place where no token stands, and not both. This function
/// does nothing; its contract is the law.
pub fn texts_are_cut_once()
    ensures { TextsAreCutOnce }
{}
