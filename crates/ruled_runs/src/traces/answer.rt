//! What is answered to a line that gives no inputs.

ghost use Rattle.std.specs.Prelude.{◌≡◌, OnOk};
ghost use Rattle.ruled_runs.specs.Lines.{answer_line, code_of};
ghost use Rattle.ruled_runs.specs.Inside.Faults.{fault_of};

use std::alloc::{AllocError, Global};
use trace_player::PlayFault;

/// What a line is that gives no inputs.
#[derive(Clone, Copy, Debug, PartialEq, Eq)]
pub enum Bad {
    /// E51: a JSON object whose members are no inputs, or not all that are asked for.
    NoInputs,
    /// E62: no JSON object.
    NoObject,
}

fn code_of(bad: Bad) -> &'static str
    ensures { result.now ≡ code_of bad }
{
    match bad {
        Bad::NoInputs => "E51",
        Bad::NoObject => "E62",
    }
}

/// The fault of the line of this number, which is such a one.
pub(crate) fn fault_of(bad: Bad, number: u64) -> PlayFault
    ensures { result ≡ fault_of bad number }
{
    match bad {
        Bad::NoInputs => PlayFault::Input(number),
        Bad::NoObject => PlayFault::NotJson(number),
    }
}

/// Makes `shown` the answer to the line of this number, which is such a one.
pub(crate) fn write_answer(
    alloc: Global,
    shown: &mut Vec<u8>,
    bad: Bad,
    number: u64,
) -> Result<(), AllocError>
    ensures { OnOk result (shown.new.items ≡ answer_line bad number) }
{
    let code = code_of(bad);
    let text = format!(in alloc; "{{\"error\":\"{code}\",\"line\":{number}}}\n")?;
    shown.clear();
    shown.extend_from_slice(text.as_bytes())
}
