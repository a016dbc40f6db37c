//! The words of chart text.

ghost use Rattle.std.specs.Prelude.{◌≡◌, codes};
ghost use Rattle.chart_texts.specs.Layout.{word_of, when};

use core_charts::TransitionKind;

/// The word with which a transition begins.
pub(crate) fn word_of(kind: TransitionKind) -> &'static str
    ensures { result.now ≡ word_of kind }
{
    match kind {
        TransitionKind::Go => "go",
        TransitionKind::Strong => "strong",
        TransitionKind::Weak => "weak",
        TransitionKind::Join => "join",
    }
}

/// Of a transition that is tested at once.
pub(crate) fn immediate_text(immediate: bool) -> &'static str
    ensures { result.now ≡ when immediate (codes " immediate") }
{
    if immediate { " immediate" } else { "" }
}

/// Of an initial state.
pub(crate) fn initial_text(is_initial: bool) -> &'static str
    ensures { result.now ≡ when is_initial (codes "initial ") }
{
    if is_initial { "initial " } else { "" }
}

/// Of a final state.
pub(crate) fn final_text(is_final: bool) -> &'static str
    ensures { result.now ≡ when is_final (codes "final ") }
{
    if is_final { "final " } else { "" }
}
