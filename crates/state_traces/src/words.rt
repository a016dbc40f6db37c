//! What a line tells of a configuration besides its outputs.

ghost use Rattle.std.specs.Prelude.{◌≡◌, ◌++◌, true, OnOk};
ghost use Rattle.serde_json.specs.Data.{Members};
ghost use Rattle.serde_json.specs.Written.{members_text};

use std::alloc::{AllocError, Global};
use tick_core::Control;

/// What a line tells of a configuration besides its outputs. Contracts see the members of a JSON object, which stand
/// behind those that each line has.
pub trait Words {
    ghost use Rattle.sc_graph.specs.declared.control.Control.{Control as Configuration};

    ghost words: { Self → Configuration → Members };

    /// Puts the members for this configuration behind a line, each with a comma before it, and the brace that ends the
    /// object.
    fn put(&self, alloc: Global, line: &mut Vec<u8>, control: &Control) -> Result<(), AllocError>
        ensures { OnOk result (line.new.items ≡ line.old.items ++ members_text true (words self.now control.now)) };
}
