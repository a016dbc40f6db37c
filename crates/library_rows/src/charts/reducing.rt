//! What is told of a text of an extended chart: the chart to which it is reduced, laid out.

use crate::answers::Answers;
use chart_reduction::{ReduceFault, reduce};
use chart_texts::chart_text;
use extended_charts::ExtendedChart;
use extended_reader::read_extended;
use sc_text::ReadFault;
use std::alloc::{AllocError, Global};

// The text of the reduced chart, or a line that there is none.
fn tell_reduced(
    alloc: Global,
    answers: &mut Answers,
    extended: &ExtendedChart,
) -> Result<(), AllocError> {
    match reduce(alloc, extended) {
        Ok((chart, _rows)) => {
            let text = chart_text(alloc, &chart)?;
            answers.tell("reduced\n");
            answers.tell(text.as_str());
        }
        Err(ReduceFault::Limit) => answers.tell("no reduced chart\n"),
        Err(ReduceFault::Memory) => return Err(AllocError),
    }
    Ok(())
}

/// Whether a text is one of an extended chart by its first word.
pub(crate) fn is_extended(text: &str) -> bool {
    text.starts_with("extended")
}

/// Tells the reduced chart of a text, or the fault of the text. Err: memory was refused.
pub(crate) fn tell_extended(
    alloc: Global,
    answers: &mut Answers,
    text: &str,
) -> Result<(), AllocError> {
    match read_extended(alloc, text) {
        Ok(extended) => tell_reduced(alloc, answers, &extended),
        Err(ReadFault::Memory) => Err(AllocError),
        Err(fault) => {
            answers.show(&fault);
            answers.tell("\n");
            Ok(())
        }
    }
}
