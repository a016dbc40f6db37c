//! A machine inside another program: machines behind handles, ticks over cells, and what is opened for them
//! (`texts`).
#![tactic(auto)]

mod buffers;
mod calls;
mod cells;
mod controls;
mod fault;
mod handles;
mod inputs;
mod loose;
mod machine;
mod opened;
mod rows;
mod states;
mod texts;

pub use buffers::{put_beginning, put_bytes};
pub use calls::{close, open_machine, react, reset, restore, save, state_is_active, tell_names};
pub use cells::{status_cell, status_in, value_cell, value_in};
pub use controls::{control_in, put_control, put_values};
pub use fault::MachineFault;
pub use handles::MachineHandle;
pub use machine::Machine;
pub use opened::Opened;
pub use rows::{VariableRow, names_of, put_rows};
pub use states::StateTable;
pub use texts::{image_of_text, opened_image, opened_text, verified_image};
