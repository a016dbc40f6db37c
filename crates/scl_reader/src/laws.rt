//! What holds of each text.

ghost use Rattle.scl_reader.specs.Laws.{SclTextsHaveOneAnswer};

/// Each text has one answer: the one program that it spells, or its one fault, and not both. So what is read is
/// read exactly where the text spells a program, and a fault is told exactly where it has one. This function does
/// nothing; its contract is the law.
pub fn scl_texts_have_one_answer()
    ensures { SclTextsHaveOneAnswer }
{}
