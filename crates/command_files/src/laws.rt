//! The law of fault lines. The function does nothing: its contract is the law.

ghost use Rattle.std.specs.Prelude.{◌≡◌, ◌==◌, ℕ, List, false};
ghost use Rattle.std.specs.List.{list_any};
ghost use Rattle.command_files.specs.FaultText.{shown_name};
ghost use Rattle.sc_text.specs.Pieces.{line_feed};

/// The name of a file stands on one line, as a fault shows it: there is no line feed in it.
pub fn one_line()
    ensures { (name : List ℕ) → list_any (λ byte. byte == line_feed) (shown_name name) ≡ false }
{}
