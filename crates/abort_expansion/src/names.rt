//! The names of what expansion adds.

ghost use Rattle.std.specs.Prelude.{◌≡◌};
ghost use Rattle.abort_expansion.specs.Flags.{strong_flag_name, weak_flag_name, counter_name};
ghost use Rattle.abort_expansion.specs.Flags.{preparation_name, continuation_name, monitor_name, watching_name};
ghost use Rattle.abort_expansion.specs.Flags.{abandoned_name, first_name};

use sc_text::{numbered, plain};
use sc_values::Name;

/// Of the flag of strong aborts.
pub(crate) fn strong_flag_name(superstate: u32) -> Name
    ensures { result ≡ strong_flag_name superstate }
{
    numbered("_s", superstate as u64)
}

/// Of the flag of weak aborts.
pub(crate) fn weak_flag_name(superstate: u32) -> Name
    ensures { result ≡ weak_flag_name superstate }
{
    numbered("_w", superstate as u64)
}

/// Of the termination counter.
pub(crate) fn counter_name(superstate: u32) -> Name
    ensures { result ≡ counter_name superstate }
{
    numbered("_r", superstate as u64)
}

/// Of the preparation state.
pub(crate) fn preparation_name(superstate: u32) -> Name
    ensures { result ≡ preparation_name superstate }
{
    numbered("_e", superstate as u64)
}

/// Of the continuation state.
pub(crate) fn continuation_name(superstate: u32) -> Name
    ensures { result ≡ continuation_name superstate }
{
    numbered("_b", superstate as u64)
}

/// Of the abort monitor.
pub(crate) fn monitor_name(superstate: u32) -> Name
    ensures { result ≡ monitor_name superstate }
{
    numbered("_g", superstate as u64)
}

/// Of the first state of an abort monitor.
pub(crate) fn watching_name() -> Name
    ensures { result ≡ watching_name }
{
    plain("_v")
}

/// Of the abandoned state.
pub(crate) fn abandoned_name() -> Name
    ensures { result ≡ abandoned_name }
{
    plain("_l")
}

/// Of a new initial state.
pub(crate) fn first_name() -> Name
    ensures { result ≡ first_name }
{
    plain("_i")
}
