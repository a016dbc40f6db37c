//! What holds of each text.

ghost use Rattle.extended_reader.specs.Laws.{ExtendedTextsHaveOneAnswer};

/// Each text has one answer: the one extended chart that it spells, or its one fault, and not both. So what is read is
/// read exactly where the text spells an extended chart, and a fault is told exactly where it has one. This function
/// does nothing; its contract is the law.
pub fn extended_texts_have_one_answer()
    ensures { ExtendedTextsHaveOneAnswer }
{}
