//! What the program `sct` does, over its words, files and streams: it compiles charts and SCL text, tells why they are
//! refused, prints their SCL and core charts and draws them; it checks images, lists them, runs them, and writes them
//! anew.
#![tactic(auto)]

mod commands;
mod compile;
mod explain;
mod fault;
mod fault_text;
mod keep;
mod migrate;
mod print;
mod report;
mod run;
mod run_ruled;
mod run_with_states;
mod simulate;
mod source_image;
mod test;
mod warnings;
mod words;
mod write_compiled;
mod writing;

pub use command_files::{FileFault, Files, HostFiles, LoadFault, load_verified, one_line};
pub use commands::{DONE, MISUSED, REFUSED, command};
pub use fault::Fault;
