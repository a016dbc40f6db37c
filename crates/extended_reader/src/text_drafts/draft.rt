//! What a text of an extended chart spells: a draft of a chart without what is new, and what is new beside it.

use chart_reader::{DraftChart, DraftEffect};
use sc_text::{Declaration, Named, TextExpression};
use sc_values::{BinaryOperator, Kind};
use sqlite_items::Items;

/// What is declared behind the first word of an item. A signal has the word before its name instead of a kind, and is a
/// truth value.
#[derive(Drop)]
pub struct ItemBody {
    pub kind: Kind,
    pub signal: Option<Named>,
    pub named: Named,
    pub value: Option<TextExpression>,
}

/// A variable, or what stands among variables behind a word that charts don't have: an input of the chart then. The
/// word before its name where it is a signal, and its value where it has one.
#[derive(Drop)]
pub struct DraftItem {
    pub declared: Declaration,
    pub word: Option<Named>,
    pub signal: Option<Named>,
    pub value: Option<TextExpression>,
}

/// An operator and the `=` behind it, with their places, and the right operand.
#[derive(Drop)]
pub struct CompoundSign {
    pub operator: BinaryOperator,
    pub at: usize,
    pub equals: usize,
    pub operand: TextExpression,
}

/// What stands behind the first name of an effect: what it becomes, what it is combined with, or a name, before which
/// it is a word.
#[derive(Drop)]
pub enum EffectEnd {
    Value(TextExpression),
    Combined(CompoundSign),
    Name(Named),
}

/// What is done as a state is entered or left, or while it goes on, by the word before it; behind `immediate`, and
/// where a trigger is true.
#[derive(Drop)]
pub struct DraftEntry {
    pub immediate: bool,
    pub word: Named,
    pub trigger: Option<TextExpression>,
    pub effects: Items<DraftEffect>,
}

/// The actions of a state, and whether some may be made while it goes on: it is not final.
#[derive(Drop)]
pub struct StateActions {
    pub entries: Items<DraftEntry>,
    pub may_last: bool,
}

/// A condition of which ticks are counted, behind a word.
#[derive(Drop)]
pub struct DraftCount {
    pub word: Named,
    pub condition: TextExpression,
}

/// What a transition waits for: so many ticks, behind a word, all or those in which a condition is true; or, of a
/// termination, its trigger, without a word.
#[derive(Drop)]
pub struct DraftDelay {
    pub word: Option<Named>,
    pub until: TextExpression,
    pub count: Option<DraftCount>,
}

/// The two words before a target that is entered by its history.
#[derive(Clone, Copy)]
pub struct HistoryWords {
    pub shallow: Named,
    pub history: Named,
}

/// Where a transition leads, and the words before that where it is entered by its history.
#[derive(Clone, Copy)]
pub struct DraftLead {
    pub history: Option<HistoryWords>,
    pub target: Named,
}

/// What is new of a transition: what it waits for, and the words by which its target is entered by its history.
#[derive(Drop)]
pub struct DraftWay {
    pub delay: Option<DraftDelay>,
    pub history: Option<HistoryWords>,
}

/// What is new in states and transitions: a row of actions for each state, in the order in which states begin in the
/// text, and one for each transition, in the order of the text.
#[derive(Drop)]
pub struct DraftRows {
    pub entries: Items<StateActions>,
    pub ways: Items<DraftWay>,
}

/// An extended chart: the word before `chart`, the chart without what is new, an item for each of its variables, and
/// the rows of its states and transitions.
#[derive(Drop)]
pub struct ExtendedDraft {
    pub word: Named,
    pub core: DraftChart,
    pub items: Items<DraftItem>,
    pub rows: DraftRows,
}
