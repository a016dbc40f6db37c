//! Reading extended chart text: a draft of a chart, and what is new beside it.

mod checked;
mod draft;
mod effects;
mod emission_flaws;
mod entries;
mod history_flaws;
mod inside_flaws;
mod item_flaws;
mod items;
mod laws;
mod name_flaws;
mod regions;
mod row_flaws;
mod rows;
mod simple_targets;
mod targets;
mod transitions;
mod whole;

pub use checked::{extended_told_flaws, read_checked_extended};
pub use draft::{
    CompoundSign, DraftCount, DraftDelay, DraftEntry, DraftItem, DraftLead, DraftRows, DraftWay,
    EffectEnd, ExtendedDraft, HistoryWords, ItemBody, StateActions,
};
pub use laws::{extended_drafts_are_shaped, extended_texts_are_told};
pub use whole::read_extended_draft;
