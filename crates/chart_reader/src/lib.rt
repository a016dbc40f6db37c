//! Reading chart text: to a draft (`text_drafts`), and from a draft in which nothing is wrong to the chart that it
//! spells. `specs/Resolved` says which chart that is, and `specs/Read` what a text is read into.
#![tactic(auto)]

mod chart;
mod laws;
mod read;
mod regions;
mod states;
mod text_drafts;
mod transitions;

pub use chart::chart_of;
pub use laws::chart_texts_have_one_answer;
pub use read::read_chart;
pub use states::StateScope;
pub use text_drafts::{
    DraftChart, DraftEffect, DraftRegion, DraftState, DraftTransition, chart_drafts_are_shaped,
    chart_texts_are_told, effect_flaws, read_checked, read_draft, state_names, text_parts,
    told_flaws,
};
pub use transitions::{effects, put_effects, trigger};
