//! What holds of each text.

ghost use Rattle.chart_reader.specs.Laws.{ChartTextsHaveOneAnswer};

/// Each text has one answer: the one chart that it spells, or its one fault, and not both. So what is read is
/// read exactly where the text spells a chart, and a fault is told exactly where it has one. This function does
/// nothing; its contract is the law.
pub fn chart_texts_have_one_answer()
    ensures { ChartTextsHaveOneAnswer }
{}
