//! Files by name: what is read from them, why they are refused, and how they are written.
#![tactic(auto)]

mod compiled;
mod fault;
mod fault_text;
mod files;
mod images;
mod laws;
mod listing;
mod load;
mod making;
mod placing;
mod source;
mod standing;
mod storing;

pub use compiled::{Unmade, compile_bytes, compile_read};
pub use fault::LoadFault;
pub use fault_text::shown_name;
pub use files::{FileFault, Files, HostFiles};
pub use images::load_verified;
pub use laws::one_line;
pub use load::bytes_of;
pub use making::makes_program;
pub use source::{load_scl, text_of};
pub use standing::{reduced_source, reduction_of, source_of};
pub use storing::{store, store_new};
