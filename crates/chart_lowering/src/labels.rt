//! Labels and gotos by their numbers.

ghost use Rattle.std.specs.Prelude.{◌≡◌, ◌+◌, ◌<◌, ◌^◌, IfOk};
ghost use Rattle.chart_lowering.specs.Lowering.{label_name, label, goto};

use sc_text::numbered;
use sc_values::Name;
use scl::Statement;
use std::alloc::AllocError;

/// The name of the label of this number.
pub(crate) fn label_name(number: u64) -> Name
    ensures { result ≡ label_name number }
{
    numbered("_L", number)
}

/// The label of this number.
pub(crate) fn label(number: u64) -> Statement
    ensures { result ≡ label number }
{
    Statement::Label(label_name(number))
}

/// The goto to the label of this number.
pub(crate) fn goto(number: u64) -> Statement
    ensures { result ≡ goto number }
{
    Statement::Goto(label_name(number))
}

/// The number behind so many labels. Err: no memory holds a text with so many.
pub(crate) fn past(number: u64, labels: u64) -> Result<u64, AllocError>
    ensures sum { IfOk result (λ next. next ≡ number + labels) }
    ensures within { IfOk result (λ next. next < 2 ^ 64) }
{
    match number.checked_add(labels) {
        Some(next) => Ok(next),
        None => Err(AllocError),
    }
}
