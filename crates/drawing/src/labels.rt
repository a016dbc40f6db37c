//! The words of a transition.

ghost use Rattle.std.specs.Prelude.{◌≡◌, ◌++◌, codes, IfOk, nat_eq, string_bytes};
ghost use Rattle.std.specs.Fmt.{decimal};
ghost use Rattle.std.specs.List.{list_any};
ghost use Rattle.drawing.specs.Labels.{do_text, effect_text, effects_text, further_text, immediate_text};
ghost use Rattle.drawing.specs.Labels.{kind_word, transition_text, trigger_text, words_text};
ghost use Rattle.drawing.specs.Inside.Puts.{Puts};

use crate::expressions::put_expression;
use crate::symbols::{Symbol, put_symbol};
use crate::text::Text;
use core_charts::{Effect, Transition, TransitionKind};
use sc_graph::VariableId;
use sc_values::Expr;
use std::alloc::{AllocError, Global};

fn kind_word(kind: TransitionKind) -> &'static str
    ensures { result.now ≡ kind_word kind }
{
    match kind {
        TransitionKind::Go => "",
        TransitionKind::Strong => " strong",
        TransitionKind::Weak => " weak",
        TransitionKind::Join => " join",
    }
}

fn immediate_text(immediate: bool) -> &'static str
    ensures { result.now ≡ immediate_text immediate }
{
    if immediate { " immediate" } else { "" }
}

/// The condition of a transition with the word before it; nothing where there is none. Err: memory was refused.
pub fn trigger_text(
    alloc: Global,
    symbols: &[Symbol],
    trigger: &Option<Expr>,
) -> Result<String, AllocError>
    ensures { IfOk result (λ text. string_bytes text ≡ trigger_text symbols.now trigger.now) }
{
    let mut text = Text::new(alloc);
    put_trigger(&mut text, symbols, trigger);
    text.finish()
}

fn put_trigger(text: &mut Text, symbols: &[Symbol], trigger: &Option<Expr>)
    ensures { Puts text.old text.new (trigger_text symbols.now trigger.now) }
{
    if let Some(trigger) = trigger {
        text.put(" if ");
        put_expression(text, symbols, trigger);
    }
}

fn is_among(signals: &[VariableId], variable: VariableId) -> bool
    ensures { result ≡ list_any (nat_eq variable) signals.now }
{
    signals.iter().any(|other| variable == *other)
}

/// An effect: the signal that is emitted, or the name of its variable, and the expression whose value that gets. Err:
/// memory was refused.
pub fn effect_text(
    alloc: Global,
    symbols: &[Symbol],
    signals: &[VariableId],
    effect: &Effect,
) -> Result<String, AllocError>
    ensures { IfOk result (λ text. string_bytes text ≡ effect_text symbols.now signals.now effect.now) }
{
    let mut text = Text::new(alloc);
    put_effect(&mut text, symbols, signals, effect);
    text.finish()
}

#[tactic(auto, unfolding(crate::specs::Labels::effect_text))]
fn put_effect(text: &mut Text, symbols: &[Symbol], signals: &[VariableId], effect: &Effect)
    ensures { Puts text.old text.new (effect_text symbols.now signals.now effect.now) }
{
    if is_among(signals, effect.variable) {
        text.put("emit ");
        put_symbol(text, symbols, effect.variable);
    } else {
        put_symbol(text, symbols, effect.variable);
        text.put(" = ");
        put_expression(text, symbols, &effect.value);
    }
}

/// The effects behind the first, each in a line of its own. Err: memory was refused.
pub fn further_text(
    alloc: Global,
    symbols: &[Symbol],
    signals: &[VariableId],
    effects: &[Effect],
) -> Result<String, AllocError>
    ensures { IfOk result (λ text. string_bytes text ≡ further_text symbols.now signals.now effects.now) }
{
    let mut text = Text::new(alloc);
    put_further(&mut text, symbols, signals, effects);
    text.finish()
}

fn put_further(text: &mut Text, symbols: &[Symbol], signals: &[VariableId], effects: &[Effect])
    ensures { Puts text.old text.new (further_text symbols.now signals.now effects.now) }
{
    for effect in effects {
        text.put(",  \\l     ");
        put_effect(text, symbols, signals, effect);
    }
}

// What stands before the effects.
fn do_text(trigger: &Option<Expr>) -> &'static str
    ensures { result.now ≡ do_text trigger.now }
{
    match trigger {
        Some(_) => "  \\l     do ",
        None => " do ",
    }
}

// Puts all effects, where there are some.
fn put_effects(
    text: &mut Text,
    symbols: &[Symbol],
    signals: &[VariableId],
    trigger: &Option<Expr>,
    effects: &[Effect],
)
    ensures { Puts text.old text.new (effects_text symbols.now signals.now trigger.now effects.now) }
{
    match effects {
        [] => {}
        [first, rest @ ..] => {
            text.put(do_text(trigger));
            put_effect(text, symbols, signals, first);
            put_further(text, symbols, signals, rest);
        }
    }
}

// Puts with what the words of the transition of this number begin.
fn put_opening(text: &mut Text, number: u32, transition: &Transition)
    ensures { Puts text.old text.new (codes "  " ++ (decimal number ++ (codes ":"
        ++ (kind_word transition.now.kind ++ immediate_text transition.now.immediate)))) }
{
    text.put("  ");
    text.put_number(number);
    text.put(":");
    text.put(kind_word(transition.kind));
    text.put(immediate_text(transition.immediate));
}

/// The transition with this number among those of its state, in the words of chart text, without its target: what it
/// asks is written so, and so is how it enters its target. Err: memory was refused.
pub fn words_text(
    alloc: Global,
    symbols: &[Symbol],
    signals: &[VariableId],
    number: u32,
    transition: &Transition,
    asked: &str,
    entering: &str,
) -> Result<String, AllocError>
    ensures { IfOk result (λ text. string_bytes text
        ≡ words_text symbols.now signals.now number transition.now asked.now entering.now) }
{
    let mut text = Text::new(alloc);
    let own = transition.effects.as_slice();
    put_opening(&mut text, number, transition);
    text.put(asked);
    put_effects(&mut text, symbols, signals, &transition.trigger, own);
    text.put(entering);
    text.put("  \\l");
    text.finish()
}

/// The transition of a chart with this number among those of its state. Err: memory was refused.
pub(crate) fn transition_text(
    alloc: Global,
    symbols: &[Symbol],
    number: u32,
    transition: &Transition,
) -> Result<String, AllocError>
    ensures { IfOk result (λ text. string_bytes text ≡ transition_text symbols.now number transition.now) }
{
    let mut text = Text::new(alloc);
    let own = transition.effects.as_slice();
    put_opening(&mut text, number, transition);
    put_trigger(&mut text, symbols, &transition.trigger);
    put_effects(&mut text, symbols, &[], &transition.trigger, own);
    text.put("  \\l");
    text.finish()
}
