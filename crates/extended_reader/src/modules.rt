//! Modules of extended charts: what stands where a module is used. `specs/Uses` says it of one use, `specs/Modules` of
//! a text.

mod arguments;
mod bodies;
mod fresh;
mod heads;
mod known;
mod laws;
mod parts;
mod phrases;
mod replacing;
mod uses;
mod well;
mod whole;
mod words;

pub use laws::plain_texts_stay;
pub use parts::{Known, Module, ModuleHead, ModuleUse, Parameter, ParameterRole, Replacement};
pub use whole::without_modules;
