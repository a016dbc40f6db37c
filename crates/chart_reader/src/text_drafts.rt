//! Reading chart text to a draft: a function for each rule of its grammar, and what is wrong with a draft.

mod ahead;
mod checked;
mod draft;
mod laws;
mod names;
mod region_flaws;
mod regions;
mod rows;
pub mod text_parts;
mod transition_flaws;
mod transitions;
mod whole;
mod words;

pub use checked::{read_checked, told_flaws};
pub use draft::{DraftChart, DraftEffect, DraftRegion, DraftState, DraftTransition};
pub use laws::{chart_drafts_are_shaped, chart_texts_are_told};
pub use region_flaws::state_names;
pub use transition_flaws::effect_flaws;
pub use whole::read_draft;
