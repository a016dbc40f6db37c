//! The law of texts without modules.

ghost use Rattle.extended_reader.specs.ModuleLaws.{PlainTextsStay};

/// A text before whose regions no module stands is as it was. This function does nothing; its contract is the law.
pub fn plain_texts_stay()
    ensures { PlainTextsStay }
{}
