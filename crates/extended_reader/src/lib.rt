//! Reading extended chart text: without its block comments (`comments`) and its modules (`modules`) to a draft
//! (`text_drafts`), and from a draft in which nothing is wrong to the extended chart that the text spells.
//! `specs/Items` and `specs/Resolved` say which chart that is, and `specs/Read` what a text is read into.
#![tactic(auto)]

mod actions;
mod chart;
mod comments;
mod counts;
mod items;
mod laws;
mod modules;
mod read;
mod regions;
mod rows;
mod sorts;
mod targets;
mod text_drafts;
mod transitions;
mod values;

pub use chart::extended_of;
pub use comments::{Part, comment_length, comments_keep_places, without_comments};
pub use laws::extended_texts_have_one_answer;
pub use modules::{
    Known, Module, ModuleHead, ModuleUse, Parameter, ParameterRole, Replacement, plain_texts_stay,
    without_modules,
};
pub use read::read_extended;
pub use text_drafts::{
    CompoundSign, DraftCount, DraftDelay, DraftEntry, DraftItem, DraftLead, DraftRows, DraftWay,
    EffectEnd, ExtendedDraft, HistoryWords, ItemBody, StateActions, extended_drafts_are_shaped,
    extended_texts_are_told, extended_told_flaws, read_checked_extended, read_extended_draft,
};
